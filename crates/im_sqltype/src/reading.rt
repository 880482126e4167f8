ghost use Rattle.std.specs.Prelude.{◌≡◌, ◌≢◌, ◌∷◌, ◌++◌, List, ℕ, IfOk, MatchOption, IfSome, IfNone, length, ◌<◌, FitsSigned, if◌then◌else◌};
ghost use Rattle.std.specs.Int.{w64};
ghost use Rattle.im_octet.specs.Fields.{field8};
ghost use Rattle.im_sqltype.specs.Kinds.{IsOfKind, AreOfKinds};
ghost use Rattle.im_sqltype.specs.Reading.{BeginsWith, BeginsWithNone, BeginWith, BeginWithNone, HasNoOctets, HasNoTruth, IsFront};
ghost use Rattle.im_sqltype.specs.Texts.{raised, octets_text, value_text, row_text};
ghost use Rattle.im_sqltype.specs.declared.values.Value.{Value as Cell};

use crate::kinds::ValueKind;
use crate::numbers::lowered;
use crate::rows::Row;
use crate::values::Value;
use im_octet::octets::Octets;
use im_octet::reader::Reader;
use std::alloc::{AllocError, Global};
use thiserror::Error;

/// Why octets aren't read as values.
#[derive(Clone, Copy, Debug, PartialEq, Eq, Error)]
pub enum ReadError {
    /// They are no text of values of these kinds.
    #[error("not the text of values of these kinds")]
    NotText,
    /// Memory ran out.
    #[error("out of memory")]
    Memory,
}

impl From<AllocError> for ReadError {
    ghost use Rattle.std.specs.Prelude.{◌≡◌};
    ghost use Rattle.im_sqltype.specs.declared.reading.ReadError.TheVariants.{Memory};

    ghost from_gives = { λ _ e. e ≡ Memory };

    fn from(_: AllocError) -> Self {
        ReadError::Memory
    }
}

// What stands at the front of a text of octets.
enum Front<'t> {
    // An octet, and what is behind it.
    Octet(u8, &'t [u8]),
    // The end of the octets, and what is behind it.
    End(&'t [u8]),
    // Neither.
    Nothing,
}

#[tactic(auto, using(crate::proofs::OctetLemmas::fronts))]
fn front_of(text: &[u8]) -> Front<'_>
    ensures { IsFront text.now result }
{
    let Some((first, behind)) = text.split_first() else {
        return Front::Nothing;
    };
    if *first != 0 {
        return Front::Octet(*first, behind);
    }
    let Some((second, rest)) = behind.split_first() else {
        return Front::Nothing;
    };
    if *second == 0 {
        return Front::End(rest);
    }
    if *second == 255 {
        return Front::Octet(0, rest);
    }
    Front::Nothing
}

// The octets whose text comes first, and what is behind it.
#[tactic(auto, using(crate::proofs::OctetLemmas::octets_so_far))]
fn read_octets(alloc: Global, text: &[u8]) -> Result<Option<(Octets, &[u8])>, AllocError>
    ensures { IfOk result (λ found. MatchOption found (HasNoOctets text.now) (λ front. text.now ≡ octets_text front.0 ++ front.1.now)) }
{
    let mut octets = Vec::new(alloc);
    let mut left = text;
    loop {
        match front_of(left) {
            Front::Octet(octet, rest) => {
                octets.push(octet)?;
                left = rest;
            }
            Front::End(rest) => return Ok(Some((Octets::from_vec(octets), rest))),
            Front::Nothing => return Ok(None),
        }
    }
}

// The number whose 8 octets come first, and what is behind them.
fn read_number(text: &[u8]) -> Option<(i64, &[u8])>
    ensures some { IfSome result (λ front. text.now ≡ field8 (raised front.0) ++ front.1.now) }
    ensures fits { IfSome result (λ front. FitsSigned w64 front.0) }
    ensures none { IfNone result (length text.now < 8) }
{
    let mut reader = Reader::new(text);
    match reader.u64() {
        Ok(number) => Some((lowered(number), reader.rest())),
        Err(_) => None,
    }
}

// Whether the octet that comes first is 00 or 01, and what is behind it.
#[tactic(auto, using(crate::proofs::ReadLemmas::truths))]
fn read_truth(text: &[u8]) -> Option<(bool, &[u8])>
    ensures some { IfSome result (λ front. text.now ≡ (if front.0 then 1 else 0) ∷ front.1.now) }
    ensures none { IfNone result (HasNoTruth text.now) }
{
    let Some((first, rest)) = text.split_first() else {
        return None;
    };
    match *first {
        0 => Some((false, rest)),
        1 => Some((true, rest)),
        _ => None,
    }
}

// The value of a kind whose text is 01 and then the front of this one, and what is behind it.
#[tactic(auto, using(crate::proofs::ReadLemmas::contents))]
fn read_content(
    alloc: Global,
    kind: ValueKind,
    text: &[u8],
) -> Result<Option<(Value, &[u8])>, AllocError>
    ensures { IfOk result (λ found. MatchOption found (BeginsWithNone kind (1 ∷ text.now)) (λ front. BeginsWith kind (1 ∷ text.now) front.0 front.1.now)) }
{
    match kind {
        ValueKind::Integer => match read_number(text) {
            Some((number, rest)) => Ok(Some((Value::Integer(number), rest))),
            None => Ok(None),
        },
        ValueKind::Boolean => match read_truth(text) {
            Some((truth, rest)) => Ok(Some((Value::Boolean(truth), rest))),
            None => Ok(None),
        },
        ValueKind::Varchar => match read_octets(alloc, text)? {
            Some((octets, rest)) => Ok(Some((Value::Varchar(octets), rest))),
            None => Ok(None),
        },
        ValueKind::Blob => match read_octets(alloc, text)? {
            Some((octets, rest)) => Ok(Some((Value::Blob(octets), rest))),
            None => Ok(None),
        },
    }
}

// The value of a kind whose text comes first, and what is behind it.
#[tactic(auto, using(crate::proofs::ReadLemmas::beginnings))]
fn read_front(
    alloc: Global,
    kind: ValueKind,
    text: &[u8],
) -> Result<Option<(Value, &[u8])>, AllocError>
    ensures { IfOk result (λ found. MatchOption found (BeginsWithNone kind text.now) (λ front. BeginsWith kind text.now front.0 front.1.now)) }
{
    match text {
        [0, rest @ ..] => Ok(Some((Value::Null, rest))),
        [1, rest @ ..] => read_content(alloc, kind, rest),
        [_, ..] => Ok(None),
        [] => Ok(None),
    }
}

/// Reads a value back from its text, which `value_text`, its twin, gives. The column's limit isn't looked at.
///
/// # Errors
///
/// `NotText` where no value of this kind, nor NULL, has this text. `Memory` where memory runs out.
#[tactic(auto, using(crate::proofs::RowLemmas::whole_values))]
pub fn read_value(alloc: Global, kind: ValueKind, text: &[u8]) -> Result<Value, ReadError>
    ensures value { IfOk result (λ value. IsOfKind kind value × (text.now ≡ value_text value)) }
    ensures none { result ≡ Err ReadError.NotText → (value : Cell) → IsOfKind kind value → text.now ≢ value_text value }
{
    match read_front(alloc, kind, text)? {
        None => Err(ReadError::NotText),
        Some((value, [])) => Ok(value),
        Some((value, _)) => {
            drop(value);
            Err(ReadError::NotText)
        }
    }
}

// Reads a value of each kind, one behind the other, and gives them with what is behind the last.
#[tactic(auto, using(crate::proofs::RowLemmas::rows_so_far))]
fn read_values<'t>(
    alloc: Global,
    kinds: &[ValueKind],
    text: &'t [u8],
) -> Result<Option<(Vec<Value>, &'t [u8])>, AllocError>
    ensures { IfOk result (λ found. MatchOption found (BeginWithNone kinds.now text.now) (λ front. BeginWith kinds.now text.now front.0.items front.1.now)) }
{
    let mut values = Vec::new(alloc);
    let mut left = text;
    for kind in kinds {
        let Some((value, rest)) = read_front(alloc, *kind, left)? else {
            return Ok(None);
        };
        values.push(value)?;
        left = rest;
    }
    Ok(Some((values, left)))
}

/// Reads values back from their texts, one behind the other, which `row_text`, its twin, gives: one of each of
/// these kinds, or NULL. The columns' limits aren't looked at.
///
/// # Errors
///
/// `NotText` where no values of these kinds have these texts. `Memory` where memory runs out.
#[tactic(auto, using(crate::proofs::RowLemmas::whole_rows))]
pub fn read_row(alloc: Global, kinds: &[ValueKind], text: &[u8]) -> Result<Row, ReadError>
    ensures row { IfOk result (λ row. AreOfKinds kinds.now row × (text.now ≡ row_text row)) }
    ensures none { result ≡ Err ReadError.NotText → (row : List Cell) → AreOfKinds kinds.now row → text.now ≢ row_text row }
{
    match read_values(alloc, kinds, text)? {
        None => Err(ReadError::NotText),
        Some((values, [])) => Ok(Row::from_vec(values)),
        Some((values, _)) => {
            drop(values);
            Err(ReadError::NotText)
        }
    }
}
