ghost use Rattle.std.specs.Prelude.{◌≡◌};
ghost use Rattle.im_octet.specs.Fields.{field2, field4, field8, signed_field8};

/// A number as two octets, the high one first.
#[tactic(auto, unfolding(crate::specs::Fields::field2))]
pub fn two(n: u16) -> [u8; 2]
    ensures { result ≡ field2 n }
{
    n.to_be_bytes()
}

/// A number as four octets, the highest first.
#[tactic(auto, unfolding(crate::specs::Fields::field4))]
pub fn four(n: u32) -> [u8; 4]
    ensures { result ≡ field4 n }
{
    n.to_be_bytes()
}

/// A number as eight octets, the highest first.
#[tactic(auto, unfolding(crate::specs::Fields::field8))]
pub fn eight(n: u64) -> [u8; 8]
    ensures { result ≡ field8 n }
{
    n.to_be_bytes()
}

/// A signed number as eight octets in two's complement, the highest first.
#[tactic(auto, unfolding(crate::specs::Fields::signed_field8))]
pub fn signed_eight(n: i64) -> [u8; 8]
    ensures { result ≡ signed_field8 n }
{
    n.to_be_bytes()
}
