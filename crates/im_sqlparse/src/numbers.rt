//! Numbers, by their digits.

ghost use Rattle.std.specs.Prelude.{◌≡◌, ◌<◌, ◌+◌, ◌-◌, ◌*◌, ◌^◌};
ghost use Rattle.std.specs.Option.{SomeIff};
ghost use Rattle.im_text.specs.Words.{number_value};
ghost use Rattle.im_sqlparse.specs.Values as spec;
ghost use Rattle.im_sqlparse.specs.Input.{ReadsTokens};

use crate::errors::{ParseError, SyntaxKind};
use crate::kinds::Kind;
use crate::tokens::Tokens;

// The greatest distance of a number of 64 bits with a sign from 0.
const MOST_BELOW_ZERO: u64 = 1 << 63;

// A number with one more digit behind it, or `None` where that is 2^64 or more.
fn with_digit(value: u64, digit: u8) -> Option<u64>
    ensures { SomeIff result (value * 10 + (digit - 48) < 2 ^ 64) (value * 10 + (digit - 48)) }
{
    value
        .checked_mul(10)?
        .checked_add(u64::from(digit.saturating_sub(b'0')))
}

// The number that decimal digits say, or `None` where it is 2^64 or more.
fn number_value(mut digits: &[u8]) -> Option<u64>
    ensures { SomeIff result (number_value digits.entry.now < 2 ^ 64) (number_value digits.entry.now) }
{
    let mut value = 0;
    while let [digit, rest @ ..] = digits {
        value = with_digit(value, *digit)?;
        digits = rest;
    }
    Some(value)
}

fn below_zero(distance: u64) -> Option<i64>
    ensures { result ≡ spec.below_zero distance }
{
    if distance > MOST_BELOW_ZERO {
        return None;
    }
    Some(0_i64.wrapping_sub_unsigned(distance))
}

fn above_zero(distance: u64) -> Option<i64>
    ensures { result ≡ spec.above_zero distance }
{
    if distance >= MOST_BELOW_ZERO {
        return None;
    }
    Some(distance as i64)
}

/// The number of 64 bits with a sign that digits say, with a minus in front or without.
#[tactic(auto, unfolding(crate::specs::Values::integer_value))]
pub fn integer_value(text: &[u8]) -> Option<i64>
    ensures { result ≡ spec.integer_value text.now }
{
    match text {
        [b'-', digits @ ..] => below_zero(number_value(digits)?),
        _ => above_zero(number_value(text)?),
    }
}

#[tactic(auto, unfolding(crate::specs::Values::is_unsigned))]
fn is_unsigned(tokens: &Tokens<'_>) -> bool
    ensures { result ≡ spec.is_unsigned tokens.now }
{
    tokens.sees(Kind::Number) && tokens.spelling().first() != Some(&b'-')
}

// The number, if it is of the range.
#[tactic(auto, unfolding(crate::specs::Values::within))]
fn within(text: &[u8], least: u64, most: u64) -> Option<u64>
    ensures { result ≡ spec.within least most text.now }
{
    let value = number_value(text)?;
    if least <= value && value <= most {
        Some(value)
    } else {
        None
    }
}

/// A number of this range, without a sign.
#[tactic(auto, unfolding(crate::specs::Values::number))]
pub fn number(tokens: &mut Tokens<'_>, least: u64, most: u64) -> Result<u64, ParseError>
    ensures { ReadsTokens (spec.number least most tokens.old) result tokens.new }
{
    if !is_unsigned(tokens) {
        return Err(tokens.refuse());
    }
    match within(tokens.spelling(), least, most) {
        Some(value) => {
            tokens.take();
            Ok(value)
        }
        None => Err(tokens.fault(SyntaxKind::Number)),
    }
}
