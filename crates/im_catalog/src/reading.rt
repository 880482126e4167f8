//! Tables and indexes read back from their texts, which `texts`, their twin, writes.

ghost use Rattle.std.specs.Prelude.{◌≡◌, ◌≢◌, IfOk, MatchOption};
ghost use Rattle.im_sqlmodel.specs.Tables as spec;
ghost use Rattle.im_octet.specs.Fields.{field4};
ghost use Rattle.im_sqlmodel.specs.declared.tables.SqlIndex.{SqlIndex as DescribedIndex};
ghost use Rattle.im_sqlmodel.specs.declared.tables.Table.{Table as Described};
ghost use Rattle.im_catalog.specs.Fronts.{StandsFirst, NoneStandsFirst};
ghost use Rattle.im_catalog.specs.Parts.{FitsFour, AreColumnNumbers, HasNoNumbers, HasParts, HasNoParts, HasIndexParts, HasNoIndexParts};

use crate::fields::{read_columns, read_flag, read_number, read_numbers};
use crate::judged::{are_columns, is_table};
use im_octet::octets::Octets;
use im_octet::reader::Reader;
use im_sqlmodel::tables::{SqlIndex, Table};
use im_sqltype::reading::ReadError;
use sqlite_items::Items;
use std::alloc::{AllocError, Global};

// The number that a table's text begins with, and what is behind it.
#[tactic(auto, using(crate::proofs::TableLemmas::tids))]
fn read_tid(text: &[u8]) -> Option<(u32, &[u8])>
    ensures { MatchOption result (NoneStandsFirst FitsFour field4 text.now) (λ front. StandsFirst FitsFour field4 text.now front.0 front.1.now) }
{
    let mut reader = Reader::new(text);
    match reader.u32() {
        Ok(tid) => Some((tid, reader.rest())),
        Err(_) => None,
    }
}

// A table of this name as its text has it, whatever its parts are.
#[tactic(auto, using(crate::proofs::TableLemmas::parts))]
fn read_parts(alloc: Global, name: &[u8], text: &[u8]) -> Result<Option<Table>, AllocError>
    ensures { IfOk result (λ found. MatchOption found (HasNoParts text.now) (λ table. HasParts name.now text.now table)) }
{
    let Some((tid, behind_tid)) = read_tid(text) else {
        return Ok(None);
    };
    let Some((count, behind)) = read_number(behind_tid) else {
        return Ok(None);
    };
    let Some((columns, left)) = read_columns(alloc, count, behind)? else {
        return Ok(None);
    };
    let Some(key) = read_key(alloc, left)? else {
        return Ok(None);
    };
    let name = Octets::from_slice(alloc, name)?;
    Ok(Some(Table {
        tid,
        name,
        columns: Items::from_vec(columns),
        key,
    }))
}

// The numbers whose text is this one, behind which nothing stands.
#[tactic(auto, using(crate::proofs::TableLemmas::keys))]
fn read_key(alloc: Global, text: &[u8]) -> Result<Option<Items<u16>>, AllocError>
    ensures { IfOk result (λ found. MatchOption found (HasNoNumbers text.now) (λ numbers. AreColumnNumbers numbers × (text.now ≡ spec.numbers_text numbers))) }
{
    match read_numbers(alloc, text)? {
        Some((numbers, [])) => Ok(Some(Items::from_vec(numbers))),
        Some((numbers, _)) => {
            drop(numbers);
            Ok(None)
        }
        None => Ok(None),
    }
}

/// Reads the table of this name back from its text, which `table_text`, its twin, gives.
///
/// # Errors
///
/// `NotText` where no table of this name has this text. `Memory` where memory runs out.
pub fn read_table(alloc: Global, name: &[u8], text: &[u8]) -> Result<Table, ReadError>
    ensures table { IfOk result (λ table. spec.IsTable table × (table.name ≡ name.now) × (text.now ≡ spec.table_text table)) }
    ensures none { result ≡ Err ReadError.NotText → (table : Described) → spec.IsTable table → table.name ≡ name.now → text.now ≢ spec.table_text table }
{
    match read_parts(alloc, name, text)? {
        Some(table) => {
            if is_table(&table) {
                return Ok(table);
            }
            drop(table);
            Err(ReadError::NotText)
        }
        None => Err(ReadError::NotText),
    }
}

// An index as its text has it, whatever its columns are.
#[tactic(auto, using(crate::proofs::TableLemmas::indexes))]
fn read_index_parts(alloc: Global, iid: u32, text: &[u8]) -> Result<Option<SqlIndex>, AllocError>
    ensures { IfOk result (λ found. MatchOption found (HasNoIndexParts text.now) (λ index. HasIndexParts iid text.now index)) }
{
    let Some((unique, behind)) = read_flag(text) else {
        return Ok(None);
    };
    match read_key(alloc, behind)? {
        Some(columns) => Ok(Some(SqlIndex {
            iid,
            unique,
            columns,
        })),
        None => Ok(None),
    }
}

/// Reads the index of a table of this number back from its text, which `index_text`, its twin, gives.
///
/// # Errors
///
/// `NotText` where no index of the table of this number has this text. `Memory` where memory runs out.
pub fn read_index(
    alloc: Global,
    table: &Table,
    iid: u32,
    text: &[u8],
) -> Result<SqlIndex, ReadError>
    requires { spec.IsTable table.now }
    ensures index { IfOk result (λ index. spec.IsTableIndex table.now index × (index.iid ≡ iid) × (text.now ≡ spec.index_text index)) }
    ensures none { result ≡ Err ReadError.NotText → (index : DescribedIndex) → spec.IsTableIndex table.now index → index.iid ≡ iid → text.now ≢ spec.index_text index }
{
    match read_index_parts(alloc, iid, text)? {
        Some(index) => {
            if 1 <= iid && are_columns(index.columns.as_slice(), table.columns.len()) {
                return Ok(index);
            }
            drop(index);
            Err(ReadError::NotText)
        }
        None => Err(ReadError::NotText),
    }
}
