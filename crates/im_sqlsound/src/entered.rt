//! Whether the entries that stand are those that rows give.

ghost use Rattle.std.specs.Prelude.{◌≡◌, ◌↔◌, ℕ, List, ◌++◌, map, flat_map, IfOk, OnOk, IsTrue};
ghost use Rattle.im_model.specs.declared.transactions.Transaction.{Transaction};
ghost use Rattle.im_versions.specs.Versions.{IsScan};
ghost use Rattle.im_sqltype.specs.Orders.{octets_cmp};
ghost use Rattle.im_sqlmodel.specs.Sorts.{sorted};
ghost use Rattle.im_sqlmodel.specs.Writes as rules;
ghost use Rattle.im_sqlsound.specs.Sounding as spec;

use crate::found::TableFound;
use crate::said::under;
use im_catalog::entries::entry_written;
use im_sqlmodel::tables::{SqlIndex, Table};
use im_sqlmodel::written::Written;
use im_sqltype::values::Value;
use im_versions::versions::Version;
use std::alloc::{AllocError, Global};

// The entries that a row gives, put behind others.
fn push_row(
    alloc: Global,
    entries: &mut Vec<Written>,
    table: &Table,
    indexes: &[SqlIndex],
    row: &[Value],
) -> Result<(), AllocError>
    ensures { OnOk result (entries.new.items ≡ entries.old.items ++ map (rules.entry_written table.now row.now) indexes.now) }
{
    for index in indexes {
        let entry = entry_written(alloc, table, row, index)?;
        entries.push(entry)?;
    }
    Ok(())
}

// Those that a table's rows give.
fn push_entries(
    alloc: Global,
    entries: &mut Vec<Written>,
    found: &TableFound,
) -> Result<(), AllocError>
    ensures { OnOk result (entries.new.items ≡ entries.old.items ++ spec.entries_of found.now) }
{
    let indexes = found.indexes.as_slice();
    let rows = found.rows.as_slice();
    for stored in rows {
        push_row(alloc, entries, &found.table, indexes, stored.row.as_slice())?;
    }
    Ok(())
}

/// All entries that rows give. Its only error is want of memory.
pub(crate) fn entries_given(
    alloc: Global,
    tables: &[TableFound],
) -> Result<Vec<Written>, AllocError>
    ensures { IfOk result (λ entries. entries.items ≡ flat_map spec.entries_of tables.now) }
{
    let mut entries = Vec::new(alloc);
    for found in tables {
        push_entries(alloc, &mut entries, found)?;
    }
    Ok(entries)
}

/// Sorts entries by their keys. Those of one key stay as they stood. Its only error is want of memory.
pub(crate) fn sort_by_key(entries: &mut Vec<Written>) -> Result<(), AllocError>
    ensures { OnOk result (entries.new.items ≡ sorted (λ a b. octets_cmp a.key b.key) entries.old.items) }
{
    entries.sort_by(|a, b| a.key.as_slice().cmp(b.key.as_slice()))
}

// Whether a live version is an entry.
fn is_said(version: &Version, entry: &Written) -> bool
    ensures { IsTrue result ↔ (spec.said_by version.now ≡ entry.now) }
{
    match &entry.value {
        Some(value) => {
            version.key.as_slice() == entry.key.as_slice()
                && version.value.as_slice() == value.as_slice()
        }
        None => false,
    }
}

/// Whether these versions are these entries, one by one.
pub(crate) fn are_said(shown: &[Version], entries: &[Written]) -> bool
    ensures { IsTrue result ↔ (map spec.said_by shown.now ≡ entries.now) }
{
    if shown.len() != entries.len() {
        return false;
    }
    for (at, version) in shown.iter().enumerate() {
        if !is_said(version, &entries[at]) {
            return false;
        }
    }
    true
}

// Whether these versions, and behind them those, are these entries.
fn are_both_said(plain: &[Version], unique: &[Version], entries: &[Written]) -> bool
    ensures { IsTrue result ↔ (map spec.said_by (plain.now ++ unique.now) ≡ entries.now) }
{
    if entries.len() < plain.len() {
        return false;
    }
    let (front, back) = entries.split_at(plain.len());
    if !are_said(plain, front) {
        return false;
    }
    are_said(unique, back)
}

/// Whether the entries that stand are those that rows give, with their values.
pub(crate) fn are_entered(
    alloc: Global,
    shown: &[Version],
    tables: &[TableFound],
) -> Result<bool, AllocError>
    requires { (history : List Transaction) × (prefix : List ℕ) × IsScan history prefix shown.now }
    ensures { IfOk result (λ are. IsTrue are ↔ spec.AreEntered shown.now tables.now) }
{
    let mut entries = entries_given(alloc, tables)?;
    sort_by_key(&mut entries)?;
    let plain = under(shown, &[0, 5]);
    let unique = under(shown, &[0, 6]);
    let same = are_both_said(plain, unique, entries.as_slice());
    drop(entries);
    Ok(same)
}
