//! Octets as hex, and numbers in decimal, behind a text.

ghost use Rattle.std.specs.Prelude.{ℕ, ◌≡◌, ◌++◌, take, OnOk, OnErr};
ghost use Rattle.std.specs.Fmt.{decimal};
ghost use Rattle.hex.specs.Hex.{encode_lower};

use std::alloc::{AllocError, Global};

/// Adds a text, and then octets as lower-case hex. Where memory is refused a front part of them may
/// have been added.
#[tactic(auto, using(im_octet::proofs::PartLemmas::part_none, im_octet::proofs::PartLemmas::part_first))]
pub fn push_hex(
    alloc: Global,
    out: &mut Vec<u8>,
    text: &[u8],
    octets: &[u8],
) -> Result<(), AllocError>
    ensures whole { OnOk result (out.new.items ≡ out.old.items ++ text.now ++ encode_lower octets.now) }
    ensures part { OnErr result ((n : ℕ) × (out.new.items ≡ out.old.items ++ take n (text.now ++ encode_lower octets.now))) }
{
    out.extend_from_slice(text)?;
    out.extend_from_slice(hex::encode(alloc, octets)?.as_bytes())
}

/// Adds a text, and then a number in decimal. Where memory is refused a front part of them may
/// have been added.
#[tactic(auto, using(im_octet::proofs::PartLemmas::part_none, im_octet::proofs::PartLemmas::part_first))]
pub fn push_number(alloc: Global, out: &mut Vec<u8>, text: &[u8], n: u64) -> Result<(), AllocError>
    ensures whole { OnOk result (out.new.items ≡ out.old.items ++ text.now ++ decimal n) }
    ensures part { OnErr result ((k : ℕ) × (out.new.items ≡ out.old.items ++ take k (text.now ++ decimal n))) }
{
    out.extend_from_slice(text)?;
    out.extend_from_slice(n.to_string(alloc)?.as_bytes())
}
