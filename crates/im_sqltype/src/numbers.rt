ghost use Rattle.std.specs.Prelude.{◌≡◌};
ghost use Rattle.im_sqltype.specs.Texts.{raised};

// 2^63, by which numbers are raised.
const HALF: u64 = 0x8000_0000_0000_0000;

/// A number with a sign plus 2^63, so that the least one is 0.
pub(crate) fn raised(number: i64) -> u64
    ensures { result ≡ raised number }
{
    let bits = number.cast_unsigned();
    if bits < HALF {
        bits + HALF
    } else {
        bits - HALF
    }
}

/// The number that was raised by 2^63.
pub(crate) fn lowered(number: u64) -> i64
    ensures { raised result ≡ number }
{
    if number < HALF {
        (number + HALF).cast_signed()
    } else {
        (number - HALF).cast_signed()
    }
}
