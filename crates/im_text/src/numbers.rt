//! Numbers in decimal, read.

ghost use Rattle.std.specs.Prelude.{◌≡◌, ◌≤◌, ◌↔◌, length, IsTrue};
ghost use Rattle.std.specs.List.{list_all};
ghost use Rattle.std.specs.Char.{is_ascii_digit};
ghost use Rattle.im_text.specs.Finds.{Finds};
ghost use Rattle.im_text.specs.Words.{IsDigits, number_value, IsNumber};

// The most digits of a number.
const MOST_DIGITS: usize = 20;

// Whether each octet is a decimal digit.
fn are_digits(text: &[u8]) -> bool
    ensures { result ≡ list_all is_ascii_digit text.now }
{
    text.iter().all(|octet| octet.is_ascii_digit())
}

/// Whether a text is as many decimal digits as a number may have, 1 to 20.
#[tactic(auto, unfolding(crate::specs::Words::is_word))]
pub fn is_digits(text: &[u8]) -> bool
    ensures value { IsTrue result ↔ IsDigits text.now }
    ensures few { IsTrue result → length text.now ≤ 20 }
    ensures digits { IsTrue result → IsTrue (list_all is_ascii_digit text.now) }
{
    (1..=MOST_DIGITS).contains(&text.len()) && are_digits(text)
}

// The number that some decimal digits stand for.
fn number_value(digits: &[u8]) -> u128
    requires few { length digits.now ≤ 20 }
    requires digits { IsTrue (list_all is_ascii_digit digits.now) }
    ensures { result ≡ number_value digits.now }
{
    let mut value = 0;
    for digit in digits {
        value = value * 10 + u128::from(*digit - b'0');
    }
    value
}

/// The number below 2^64 that a text of 1 to 20 decimal digits says, or `None` where it says none.
pub fn read_number(text: &[u8]) -> Option<u64>
    ensures { Finds result (IsNumber text.now) }
{
    if !is_digits(text) {
        return None;
    }
    let value = number_value(text);
    if value > u128::from(u64::MAX) {
        return None;
    }
    Some(value as u64)
}
