ghost use Rattle.im_text.specs.Finds.{Finds};
ghost use Rattle.im_script.specs.Script.{AreNumbers, IsAt};
ghost use Rattle.im_script.specs.Arguments.{IsIndex};

use im_text::cuts::{after, cut};
use im_text::numbers::read_number;

// The two numbers that a text says, parted by one space.
pub(crate) fn read_numbers(text: &[u8]) -> Option<(u64, u64)>
    ensures { Finds result (λ numbers. AreNumbers text.now numbers.0 numbers.1) }
{
    let (front, back) = cut(text, b' ')?;
    let first = read_number(front)?;
    let second = read_number(back)?;
    Some((first, second))
}

// The index, at most 2^32 - 1, that a text says.
pub(crate) fn read_index(text: &[u8]) -> Option<u32>
    ensures { Finds result (IsIndex text.now) }
{
    let number = read_number(text)?;
    if number > u64::from(u32::MAX) {
        return None;
    }
    Some(number as u32)
}

// The transaction that the end of a command names, ` @` and its number, or none where nothing is left.
pub(crate) fn read_at(text: &[u8]) -> Option<Option<u64>>
    ensures { Finds result (IsAt text.now) }
{
    if text.is_empty() {
        return Some(None);
    }
    let digits = after(text, b" @")?;
    let number = read_number(digits)?;
    Some(Some(number))
}
