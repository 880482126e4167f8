//! Names and values.

ghost use Rattle.std.specs.Prelude.{◌≡◌, Bool, List, false, IfOk};
ghost use Rattle.std.specs.Result.{result_ok};
ghost use Rattle.hex.specs.Hex.{decode_of};
ghost use Rattle.im_sqlparse.specs.Values as spec;
ghost use Rattle.im_sqlparse.specs.Input.{ReadsTokens};

use crate::errors::{ParseError, SyntaxKind};
use crate::kinds::Kind;
use crate::lists::{Listed, separated};
use crate::names::MOST_NAME;
use crate::numbers::integer_value;
use crate::statements::{Literal, Name};
use crate::tokens::Tokens;
use hex::FromHexError;
use sqlite_items::Items;
use std::alloc::{AllocError, Global};

/// A name, folded to lower case.
#[tactic(auto, unfolding(crate::specs::Values::name))]
pub fn name(alloc: Global, tokens: &mut Tokens<'_>) -> Result<Name, ParseError>
    ensures { ReadsTokens (spec.name tokens.old) result tokens.new }
{
    if !tokens.sees(Kind::Word) {
        return Err(tokens.refuse());
    }
    let word = tokens.spelling();
    if word.len() > MOST_NAME {
        return Err(tokens.fault(SyntaxKind::Name));
    }
    let folded = word.to_ascii_lowercase(alloc)?;
    tokens.take();
    Ok(Items::from_vec(folded))
}

/// A column: a name, or `_rev` where that may stand.
#[tactic(auto, unfolding(crate::specs::Values::column))]
pub fn column(alloc: Global, tokens: &mut Tokens<'_>, rev: bool) -> Result<Name, ParseError>
    ensures { ReadsTokens (spec.column rev tokens.old) result tokens.new }
{
    if !(rev && tokens.sees(Kind::Rev)) {
        return name(alloc, tokens);
    }
    let column = Items::from_slice(alloc, b"_rev".as_slice())?;
    tokens.take();
    Ok(column)
}

// Without this many octets in front, and one behind.
#[tactic(auto, unfolding(crate::specs::Values::inside))]
fn inside(front: usize, text: &[u8]) -> &[u8]
    ensures { result.now ≡ spec.inside front text.now }
{
    let rest = &text[front.min(text.len())..];
    &rest[..rest.len().saturating_sub(1)]
}

// One quote for each two.
fn undouble(alloc: Global, mut text: &[u8]) -> Result<Items<u8>, AllocError>
    ensures { IfOk result (λ plain. plain ≡ spec.undouble false text.entry.now) }
{
    let mut plain = Items::new(alloc);
    let mut is_second = false;
    while let [octet, rest @ ..] = text {
        if !is_second {
            plain.push(*octet)?;
        }
        is_second = !is_second && *octet == b'\'';
        text = rest;
    }
    Ok(plain)
}

#[tactic(auto, unfolding(crate::specs::Values::integer))]
fn integer(tokens: &mut Tokens<'_>) -> Result<Literal, ParseError>
    ensures { ReadsTokens (spec.integer tokens.old) result tokens.new }
{
    match integer_value(tokens.spelling()) {
        Some(number) => {
            tokens.take();
            Ok(Literal::Integer(number))
        }
        None => Err(tokens.fault(SyntaxKind::Integer)),
    }
}

// The octets that hex digits say, if they come in pairs.
fn decoded(alloc: Global, digits: &[u8]) -> Result<Option<Items<u8>>, AllocError>
    ensures { IfOk result (λ octets. octets ≡ result_ok (decode_of digits.now)) }
{
    match hex::decode(alloc, digits) {
        Ok(octets) => Ok(Some(Items::from_vec(octets))),
        Err(FromHexError::OutOfMemory) => Err(AllocError),
        Err(_) => Ok(None),
    }
}

#[tactic(auto, unfolding(crate::specs::Values::blob))]
fn blob(alloc: Global, tokens: &mut Tokens<'_>) -> Result<Literal, ParseError>
    ensures { ReadsTokens (spec.blob tokens.old) result tokens.new }
{
    match decoded(alloc, inside(2, tokens.spelling()))? {
        Some(octets) => {
            tokens.take();
            Ok(Literal::Blob(octets))
        }
        None => Err(tokens.refuse()),
    }
}

/// A value as it is written.
#[tactic(auto, unfolding(crate::specs::Values::value))]
pub fn value(alloc: Global, tokens: &mut Tokens<'_>) -> Result<Literal, ParseError>
    ensures { ReadsTokens (spec.value tokens.old) result tokens.new }
{
    match tokens.peek() {
        Kind::Null => {
            tokens.take();
            Ok(Literal::Null)
        }
        Kind::False => {
            tokens.take();
            Ok(Literal::Boolean(false))
        }
        Kind::True => {
            tokens.take();
            Ok(Literal::Boolean(true))
        }
        Kind::Number => integer(tokens),
        Kind::Text => Ok(Literal::Text(undouble(alloc, inside(1, tokens.take()))?)),
        Kind::Hex => blob(alloc, tokens),
        _ => Err(tokens.refuse()),
    }
}

impl Listed for Items<u8> {
    ghost rule = { spec.column };

    fn read(alloc: Global, tokens: &mut Tokens<'_>, rev: bool) -> Result<Self, ParseError> {
        column(alloc, tokens, rev)
    }
}

impl Listed for Literal {
    ghost rule = { λ _. spec.value };

    fn read(alloc: Global, tokens: &mut Tokens<'_>, _: bool) -> Result<Self, ParseError> {
        value(alloc, tokens)
    }
}

impl Listed for Items<Literal> {
    ghost rule = { λ _. spec.row };

    fn read(alloc: Global, tokens: &mut Tokens<'_>, _: bool) -> Result<Self, ParseError> {
        row(alloc, tokens)
    }
}

/// Names in parentheses.
#[tactic(auto, unfolding(crate::specs::Values::names))]
pub fn names(alloc: Global, tokens: &mut Tokens<'_>) -> Result<Items<Name>, ParseError>
    ensures { ReadsTokens (spec.names tokens.old) result tokens.new }
{
    tokens.expect(Kind::Open)?;
    let found = separated::<Items<u8>>(alloc, tokens, false)?;
    tokens.expect(Kind::Close)?;
    Ok(found)
}

/// Values in parentheses.
#[tactic(auto, unfolding(crate::specs::Values::row))]
fn row(alloc: Global, tokens: &mut Tokens<'_>) -> Result<Items<Literal>, ParseError>
    ensures { ReadsTokens (spec.row tokens.old) result tokens.new }
{
    tokens.expect(Kind::Open)?;
    let found = separated::<Literal>(alloc, tokens, false)?;
    tokens.expect(Kind::Close)?;
    Ok(found)
}
