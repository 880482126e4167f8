//! The history of a table's rows: each version of a row's key has a number from 1, and each that isn't a deletion is
//! a row, with its number behind its columns.

ghost use Rattle.std.specs.Prelude.{◌≡◌, ◌≤◌, ◌<◌, ◌+◌, ◌-◌, ◌^◌, ◌++◌, ◌∷◌, ℕ, [], List, length, take, filter, not, All, IfOk, OnOk};
ghost use Rattle.std.specs.List.{AllZip, count_by};
ghost use Rattle.im_model.specs.History.{IsHistory};
ghost use Rattle.im_model.specs.declared.transactions.Transaction.{Transaction};
ghost use Rattle.im_versions.specs.Versions.{is_of};
ghost use Rattle.im_sqltype.specs.Orders.{octets_cmp};
ghost use Rattle.im_sqlmodel.specs.Kept.{IsSqlKept, IsTableOf};
ghost use Rattle.im_sqlmodel.specs.Rows.{HistoryIs, IsRevision, numbered};
ghost use Rattle.im_sqlmodel.specs.Sorts.{sorted};
ghost use Rattle.im_sqlmodel.specs.Tables as spec;
ghost use Rattle.im_catalog.specs.Numbered.{pair_of, pairs_of, number_of, Counts};
ghost use Rattle.im_catalog.specs.Rows.{HasRowText, IsRowIfLive};
ghost use Rattle.im_catalog.specs.declared.histories.Numbered.{Numbered as TheNumbered};

use crate::keys::rows_prefix;
use crate::rows::{kinds_of, said_row};
use im_sqlmodel::tables::Table;
use im_sqltype::kinds::ValueKind;
use im_sqltype::rows::Row;
use im_sqltype::values::Value;
use im_versions::changes::ChangesView;
use im_versions::errors::ViewError;
use im_versions::versions::Version;
use std::alloc::{AllocError, Global};
use std::collections::BTreeMap;

// A version with its number among those of its key, from 1.
#[derive(Clone, Copy)]
struct Numbered<'v> {
    number: u64,
    version: &'v Version,
}

/// The history of a table's rows among the first `n` transactions, by rising primary key and number: the columns of
/// each row in the table's order, and its number, which is `_rev`, behind them. Rows whose last version is a deletion
/// are there too. By one `changes`: a look-up in a map for each version, and a sort. Its only error is want of memory.
pub fn history_of<V: ChangesView>(
    alloc: Global,
    view: &V,
    table: &Table,
    n: u64,
) -> Result<Vec<Row>, ViewError>
    requires { (history : List Transaction) × V.stands view.now history × (n ≤ length history) × IsHistory history × IsSqlKept (take n history)
        × IsTableOf (take n history) table.now }
    ensures { (history : List Transaction) → V.stands view.now history → n ≤ length history → IsHistory history → IsSqlKept (take n history)
        → IsTableOf (take n history) table.now → IfOk result (λ rows. HistoryIs (take n history) table.now rows.items) }
{
    let prefix = rows_prefix(alloc, table.tid)?;
    let changes = view.changes(alloc, prefix.as_slice(), n)?;
    let rows = revisions_of(alloc, table, changes.as_slice())?;
    Ok(rows)
}

// The rows of these versions, those of one key oldest first, as `history_of` gives them.
fn revisions_of(alloc: Global, table: &Table, changes: &[Version]) -> Result<Vec<Row>, AllocError>
    requires few { (key : List ℕ) → count_by (is_of key) changes.now < 2 ^ 63 }
    requires texts { All (IsRowIfLive table.now) changes.now }
    ensures { IfOk result (λ rows. AllZip (IsRevision table.now) (sorted (λ a b. octets_cmp a.1.key b.1.key) (filter (λ p. not p.1.deleted) (numbered [] changes.now))) rows.items) }
{
    let mut numbered = live_numbered(alloc, changes)?;
    sort_by_key(&mut numbered)?;
    rows_of(alloc, table, numbered.as_slice())
}

// The row of each, with its number behind it.
fn rows_of(alloc: Global, table: &Table, numbered: &[Numbered<'_>]) -> Result<Vec<Row>, AllocError>
    requires numbers { All (λ (n : TheNumbered). n.number < 2 ^ 63) numbered.now }
    requires texts { All (λ (n : TheNumbered). HasRowText table.now n.version.now.key n.version.now.value) numbered.now }
    ensures { IfOk result (λ rows. AllZip (IsRevision table.now) (pairs_of numbered.now) rows.items) }
{
    let kinds = kinds_of(alloc, table)?;
    let mut rows = Vec::with_capacity(alloc, numbered.len())?;
    for one in numbered {
        let row = revision_of(alloc, table, kinds.as_slice(), *one)?;
        rows.push(row)?;
    }
    Ok(rows)
}

// Those of these versions that aren't deletions, with their numbers.
fn live_numbered(alloc: Global, changes: &[Version]) -> Result<Vec<Numbered<'_>>, AllocError>
    ensures { IfOk result (λ live. pairs_of live.items ≡ filter (λ p. not p.1.deleted) (numbered [] changes.now)) }
{
    let mut numbers = BTreeMap::new(alloc);
    let mut live = Vec::new(alloc);
    for version in changes {
        let number = next_number(&mut numbers, version.key.as_slice())?;
        push_live(&mut live, number, version)?;
    }
    Ok(live)
}

// Adds a version with its number, where it isn't a deletion.
fn push_live<'v>(
    live: &mut Vec<Numbered<'v>>,
    number: u64,
    version: &'v Version,
) -> Result<(), AllocError>
    ensures { OnOk result (pairs_of live.new.items ≡ pairs_of live.old.items ++ filter (λ p. not p.1.deleted) ((number, version.now) ∷ [])) }
{
    if version.deleted {
        return Ok(());
    }
    live.push(Numbered { number, version })?;
    Ok(())
}

// The number of the next version of a key, which is counted.
fn next_number<'v>(numbers: &mut BTreeMap<&'v [u8], u64>, key: &'v [u8]) -> Result<u64, AllocError>
    requires { number_of numbers.old key.now < 2 ^ 64 - 1 }
    ensures number { IfOk result (λ number. number ≡ number_of numbers.old key.now + 1) }
    ensures counted { IfOk result (λ number. Counts numbers.old numbers.new key.now number) }
{
    let number = match numbers.get(key) {
        Some(number) => *number + 1,
        None => 1,
    };
    numbers.insert(key, number)?;
    Ok(number)
}

// Sorts them by key; of one key they stay oldest first.
fn sort_by_key(numbered: &mut Vec<Numbered<'_>>) -> Result<(), AllocError>
    ensures { OnOk result (pairs_of numbered.new.items ≡ sorted (λ a b. octets_cmp a.1.key b.1.key) (pairs_of numbered.old.items)) }
{
    numbered.sort_by(|a, b| a.version.key.as_slice().cmp(b.version.key.as_slice()))
}

// A row and its number behind it.
fn revision_of(
    alloc: Global,
    table: &Table,
    kinds: &[ValueKind],
    one: Numbered<'_>,
) -> Result<Row, AllocError>
    requires kinds { kinds.now ≡ spec.kinds_of table.now }
    requires number { one.number < 2 ^ 63 }
    requires text { HasRowText table.now one.version.now.key one.version.now.value }
    ensures { IfOk result (IsRevision table.now (pair_of one.entry)) }
{
    let row = said_row(alloc, table, kinds, one.version)?;
    let mut values = row.into_vec();
    values.push(Value::Integer(one.number as i64))?;
    Ok(Row::from_vec(values))
}
