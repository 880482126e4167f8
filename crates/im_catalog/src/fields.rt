//! The parts of the texts of tables and indexes, read from the front.

ghost use Rattle.std.specs.Prelude.{◌≡◌, ◌≢◌, ◌≤◌, IfOk, MatchOption};
ghost use Rattle.im_octet.specs.Fields.{field2};
ghost use Rattle.im_sqlparse.specs.Formed.{IsName};
ghost use Rattle.im_sqlmodel.specs.Tables.{IsTyped, type_code, limit_of, column_text, numbers_text};
ghost use Rattle.im_catalog.specs.Fronts.{StandsFirst, NoneStandsFirst, AreMany};
ghost use Rattle.im_catalog.specs.Parts.{IsFlag, flag_text, FitsTwo, AreColumnNumbers, name_text, held_text, MayNotLimit, IsHeldBy, NoneIsHeldBy, IsColumn, columns_text, fields_text};

use im_octet::octets::Octets;
use im_octet::reader::Reader;
use im_sqlmodel::tables::Column;
use im_sqlparse::names::is_name;
use im_sqltype::columns::{ColumnType, Limit};
use std::alloc::{AllocError, Global};

/// Whether the octet that comes first is 00 or 01, and what is behind it.
#[tactic(auto, using(crate::proofs::PartLemmas::flags))]
pub(crate) fn read_flag(text: &[u8]) -> Option<(bool, &[u8])>
    ensures { MatchOption result (NoneStandsFirst IsFlag flag_text text.now) (λ front. StandsFirst IsFlag flag_text text.now front.0 front.1.now) }
{
    match text {
        [0, rest @ ..] => Some((false, rest)),
        [1, rest @ ..] => Some((true, rest)),
        [_, ..] => None,
        [] => None,
    }
}

/// The number whose two octets come first, and what is behind them.
#[tactic(auto, using(crate::proofs::PartLemmas::numbers))]
pub(crate) fn read_number(text: &[u8]) -> Option<(u16, &[u8])>
    ensures { MatchOption result (NoneStandsFirst FitsTwo field2 text.now) (λ front. StandsFirst FitsTwo field2 text.now front.0 front.1.now) }
{
    let mut reader = Reader::new(text);
    match reader.u16() {
        Ok(number) => Some((number, reader.rest())),
        Err(_) => None,
    }
}

// The name that comes first, behind its length, and what is behind it.
#[tactic(auto, using(crate::proofs::PartLemmas::names))]
fn read_name(text: &[u8]) -> Option<(&[u8], &[u8])>
    ensures { MatchOption result (NoneStandsFirst IsName name_text text.now) (λ front. StandsFirst IsName name_text text.now front.0.now front.1.now) }
{
    let Some((len, behind)) = text.split_first() else {
        return None;
    };
    let len = *len as usize;
    if behind.len() < len {
        return None;
    }
    let (name, rest) = behind.split_at(len);
    if !is_name(name) {
        return None;
    }
    Some((name, rest))
}

// The limit of so many octets, if a column may have it.
fn limit(octets: u16) -> Option<Limit>
    ensures { MatchOption result (MayNotLimit octets) (λ limit. (limit ≡ octets) × (1 ≤ limit) × (limit ≤ 1024)) }
{
    if octets < 1 || 1024 < octets {
        return None;
    }
    Some(Limit::new(octets))
}

// The type where n is 0, as it is of a type that sets none.
fn unlimited(n: u16, holds: ColumnType) -> Option<ColumnType>
    ensures { MatchOption result (n ≢ 0) (λ found. (found ≡ holds) × (n ≡ 0)) }
{
    if n == 0 { Some(holds) } else { None }
}

// The type of a code and an n.
#[tactic(auto, using(crate::proofs::PartLemmas::kinds))]
fn held_of(code: u8, n: u16) -> Option<ColumnType>
    ensures { MatchOption result (NoneIsHeldBy code n) (λ holds. IsHeldBy code n holds) }
{
    match code {
        1 => unlimited(n, ColumnType::Integer),
        2 => unlimited(n, ColumnType::Boolean),
        3 => match limit(n) {
            Some(limit) => Some(ColumnType::Varchar(limit)),
            None => None,
        },
        4 => match limit(n) {
            Some(limit) => Some(ColumnType::Blob(limit)),
            None => None,
        },
        _ => None,
    }
}

// The type that comes first, and what is behind it.
#[tactic(auto, using(crate::proofs::PartLemmas::held))]
fn read_held(text: &[u8]) -> Option<(ColumnType, &[u8])>
    ensures { MatchOption result (NoneStandsFirst IsTyped held_text text.now) (λ front. StandsFirst IsTyped held_text text.now front.0 front.1.now) }
{
    let Some((code, behind)) = text.split_first() else {
        return None;
    };
    let Some((n, rest)) = read_number(behind) else {
        return None;
    };
    match held_of(*code, n) {
        Some(holds) => Some((holds, rest)),
        None => None,
    }
}

// The column that comes first, and what is behind it.
#[tactic(auto, using(crate::proofs::ColumnLemmas::columns))]
fn read_column(alloc: Global, text: &[u8]) -> Result<Option<(Column, &[u8])>, AllocError>
    ensures { IfOk result (λ found. MatchOption found (NoneStandsFirst IsColumn column_text text.now) (λ front. StandsFirst IsColumn column_text text.now front.0 front.1.now)) }
{
    let Some((name, behind_name)) = read_name(text) else {
        return Ok(None);
    };
    let Some((holds, behind)) = read_held(behind_name) else {
        return Ok(None);
    };
    let Some((not_null, rest)) = read_flag(behind) else {
        return Ok(None);
    };
    let name = Octets::from_slice(alloc, name)?;
    Ok(Some((
        Column {
            name,
            holds,
            not_null,
        },
        rest,
    )))
}

/// So many columns, which come first, and what is behind them.
pub(crate) fn read_columns(
    alloc: Global,
    count: u16,
    text: &[u8],
) -> Result<Option<(Vec<Column>, &[u8])>, AllocError>
    ensures { IfOk result (λ found. MatchOption found (NoneStandsFirst (AreMany IsColumn count) columns_text text.now) (λ front. StandsFirst (AreMany IsColumn count) columns_text text.now front.0.items front.1.now)) }
{
    let mut columns = Vec::new(alloc);
    let mut left = text;
    for _at in 0..count {
        let Some((column, rest)) = read_column(alloc, left)? else {
            return Ok(None);
        };
        columns.push(column)?;
        left = rest;
    }
    Ok(Some((columns, left)))
}

// So many numbers, which come first, and what is behind them.
fn read_each_number(
    alloc: Global,
    count: u16,
    text: &[u8],
) -> Result<Option<(Vec<u16>, &[u8])>, AllocError>
    ensures { IfOk result (λ found. MatchOption found (NoneStandsFirst (AreMany FitsTwo count) fields_text text.now) (λ front. StandsFirst (AreMany FitsTwo count) fields_text text.now front.0.items front.1.now)) }
{
    let mut numbers = Vec::new(alloc);
    let mut left = text;
    for _at in 0..count {
        let Some((number, rest)) = read_number(left) else {
            return Ok(None);
        };
        numbers.push(number)?;
        left = rest;
    }
    Ok(Some((numbers, left)))
}

/// The numbers that come first, behind their count, and what is behind them.
#[tactic(auto, using(crate::proofs::ColumnLemmas::lists))]
pub(crate) fn read_numbers(
    alloc: Global,
    text: &[u8],
) -> Result<Option<(Vec<u16>, &[u8])>, AllocError>
    ensures { IfOk result (λ found. MatchOption found (NoneStandsFirst AreColumnNumbers numbers_text text.now) (λ front. StandsFirst AreColumnNumbers numbers_text text.now front.0.items front.1.now)) }
{
    let Some((count, behind)) = read_number(text) else {
        return Ok(None);
    };
    match read_each_number(alloc, count, behind)? {
        Some((numbers, rest)) => Ok(Some((numbers, rest))),
        None => Ok(None),
    }
}
