//! Whether the numbers of tables and of their indexes run from 1.

ghost use Rattle.std.specs.Prelude.{◌≡◌, ◌≢◌, ◌↔◌, ◌≤◌, ◌<◌, ◌^◌, ℕ, List, length, All, IsTrue};
ghost use Rattle.im_octet.specs.Fields.{field4};
ghost use Rattle.im_model.specs.declared.transactions.Transaction.{Transaction};
ghost use Rattle.im_versions.specs.Versions.{IsScan};
ghost use Rattle.im_sqlmodel.specs.Keys as keys;
ghost use Rattle.im_sqlsound.specs.Sounding as spec;
ghost use Rattle.im_sqlsound.specs.declared.found.TableFound.{TableFound as Found};

use crate::found::TableFound;
use crate::said::{are_same, under};
use im_catalog::keys::tables_key;
use im_octet::fields::four;
use im_sqlmodel::tables::SqlIndex;
use im_versions::versions::Version;

fn has_number(found: &TableFound, tid: u32) -> bool
    ensures { IsTrue result ↔ (found.now.table.tid ≡ tid) }
{
    found.table.tid == tid
}

fn has_iid(index: &SqlIndex, iid: usize) -> bool
    ensures { IsTrue result ↔ (index.now.iid ≡ iid) }
{
    index.iid as usize == iid
}

// Whether octets are the four of a number.
fn is_field(text: &[u8], number: u32) -> bool
    ensures { IsTrue result ↔ (text.now ≡ field4 number) }
{
    are_same(text, &four(number))
}

// Whether they are, and the number fits in them.
fn says_number(text: &[u8], number: usize) -> bool
    ensures { IsTrue result ↔ ((number < 2 ^ 32) × (text.now ≡ field4 number)) }
{
    match u32::try_from(number) {
        Ok(number) => is_field(text, number),
        Err(_) => false,
    }
}

// Whether a version is the number of tables.
fn says_count(version: &Version, count: usize) -> bool
    ensures { IsTrue result ↔ ((version.now.key ≡ keys.tables_key) × ((count < 2 ^ 32) × (version.now.value ≡ field4 count))) }
{
    let key = tables_key();
    are_same(version.key.as_slice(), key.as_slice()) && says_number(version.value.as_slice(), count)
}

// Whether the key of the number of tables says this number.
fn is_count(shown: &[Version], count: usize) -> bool
    requires { (history : List Transaction) × (prefix : List ℕ) × IsScan history prefix shown.now }
    ensures { IsTrue result ↔ spec.IsCountShown shown.now count }
{
    let said = under(shown, &tables_key());
    if said.is_empty() {
        return count == 0;
    }
    if said.len() != 1 {
        return false;
    }
    says_count(&said[0], count)
}

// Whether a number is from 1 to a count.
fn is_within(number: u32, count: usize) -> bool
    ensures { IsTrue result ↔ ((1 ≤ number) × (number ≤ count)) }
{
    1 <= number && number as usize <= count
}

// Whether no table has a number.
fn is_free(tables: &[TableFound], tid: u32) -> bool
    ensures { IsTrue result ↔ All (λ (f : Found). f.table.tid ≢ tid) tables.now }
{
    for found in tables {
        if has_number(found, tid) {
            return false;
        }
    }
    true
}

// Whether the number of a table is from 1 to a count, and none of these has it.
fn is_numbered(before: &[TableFound], tid: u32, count: usize) -> bool
    ensures { IsTrue result ↔ (((1 ≤ tid) × (tid ≤ count)) × All (λ (f : Found). f.table.tid ≢ tid) before.now) }
{
    is_within(tid, count) && is_free(before, tid)
}

// Whether the numbers of tables are 1 to their count, each once.
fn are_told(tables: &[TableFound]) -> bool
    ensures { IsTrue result ↔ spec.AreUpTo (length tables.now) tables.now }
{
    for (at, found) in tables.iter().enumerate() {
        if !is_numbered(&tables[..at], found.table.tid, tables.len()) {
            return false;
        }
    }
    true
}

/// Whether they are, and the count is the one that is said.
pub(crate) fn are_numbered(shown: &[Version], tables: &[TableFound]) -> bool
    requires { (history : List Transaction) × (prefix : List ℕ) × IsScan history prefix shown.now }
    ensures { IsTrue result ↔ spec.AreNumbered shown.now tables.now }
{
    is_count(shown, tables.len()) && are_told(tables)
}

/// Whether the numbers of a table's indexes run from 1 without gaps.
pub(crate) fn are_gapless(indexes: &[SqlIndex]) -> bool
    ensures { IsTrue result ↔ spec.AreGapless indexes.now }
{
    for (at, index) in indexes.iter().enumerate() {
        if !has_iid(index, at + 1) {
            return false;
        }
    }
    true
}
