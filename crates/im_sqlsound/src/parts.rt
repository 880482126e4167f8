//! Tables with their indexes, and those of their rows whose keys a transaction writes.

ghost use Rattle.std.specs.Prelude.{◌≡◌, ◌≤◌, false, List, [], ◌∷◌, ◌++◌, length, take, Some, All, IfOk, OnOk, IfSome, IsTrue};
ghost use Rattle.std.specs.List.{AllZip};
ghost use Rattle.im_model.specs.declared.transactions.Transaction.{Transaction};
ghost use Rattle.im_versions.specs.Versions.{last_version, begins_with};
ghost use Rattle.im_versions.specs.declared.versions.Version.{Version as TheVersion};
ghost use Rattle.im_sqlmodel.specs.Keys as keys;
ghost use Rattle.im_sqlmodel.specs.Kept.{IsTableOf, IsSqlSound};
ghost use Rattle.im_sqlmodel.specs.Rows.{IsStoredRow};
ghost use Rattle.im_sqlsound.specs.Stepping as spec;

use crate::found::TableFound;
use crate::own::push_own;
use crate::said::{rows_said, table_said};
use im_catalog::catalogue::indexes;
use im_catalog::keys::rows_prefix;
use im_sqlmodel::rows::StoredRow;
use im_sqlmodel::tables::Table;
use im_versions::errors::ViewError;
use im_versions::versions::Version;
use im_versions::view::KvView;
use sqlite_items::Items;
use std::alloc::{AllocError, Global};

// The live rows of a table whose keys versions have; none where one of these keys says no row.
fn own_rows<V: KvView>(
    alloc: Global,
    view: &V,
    own: &[Version],
    table: &Table,
    n: u64,
) -> Result<Option<Items<StoredRow>>, ViewError>
    requires { (history : List Transaction) × V.stands view.now history × (n ≤ length history) }
    ensures { (history : List Transaction) → V.stands view.now history → n ≤ length history
        → IfOk result (λ found. IfSome found (AllZip (IsStoredRow table.now) (spec.live_own (take n history) (keys.rows_prefix table.now.tid) own.now))) }
{
    let front = rows_prefix(alloc, table.tid)?;
    let mut live = Vec::new(alloc);
    push_own(alloc, view, &mut live, own, front.as_slice(), n)?;
    let rows = rows_said(alloc, table, live.as_slice())?;
    drop(live);
    Ok(rows)
}

// A table with its indexes after the first `before` transactions, and those of its rows after the first `n`.
fn part_of<V: KvView>(
    alloc: Global,
    view: &V,
    own: &[Version],
    table: Table,
    before: u64,
    n: u64,
) -> Result<Option<TableFound>, ViewError>
    requires { (history : List Transaction) × V.stands view.now history × (n ≤ length history) × (before ≤ length history)
        × IsSqlSound (take before history) × IsTableOf (take before history) table }
    ensures { (history : List Transaction) → V.stands view.now history → n ≤ length history → before ≤ length history
        → IsSqlSound (take before history) → IsTableOf (take before history) table
        → IfOk result (λ found. IfSome found (λ f. (f.table ≡ table) × spec.IsPart (take before history) (take n history) own.now f)) }
{
    let indexes = match indexes(alloc, view, &table, before) {
        Ok(indexes) => indexes,
        Err(error) => {
            drop(table);
            return Err(error);
        }
    };
    let rows = match own_rows(alloc, view, own, &table, n) {
        Ok(rows) => rows,
        Err(error) => {
            drop(table);
            drop(indexes);
            return Err(error);
        }
    };
    let Some(rows) = rows else {
        drop(table);
        drop(indexes);
        return Ok(None);
    };
    Ok(Some(TableFound {
        table,
        indexes,
        rows,
    }))
}

// By the version that says the table.
fn part_by<V: KvView>(
    alloc: Global,
    view: &V,
    own: &[Version],
    version: &Version,
    before: u64,
    n: u64,
) -> Result<Option<TableFound>, ViewError>
    requires front { IsTrue (begins_with keys.table_prefix version.now.key) }
    requires view { (history : List Transaction) × V.stands view.now history × (n ≤ length history) × (before ≤ length history)
        × IsSqlSound (take before history) × (last_version (take before history) version.now.key ≡ Some version.now) × (version.now.deleted ≡ false) }
    ensures { (history : List Transaction) → V.stands view.now history → n ≤ length history → before ≤ length history
        → IsSqlSound (take before history) → last_version (take before history) version.now.key ≡ Some version.now → version.now.deleted ≡ false
        → IfOk result (λ found. IfSome found (spec.IsPartBy (take before history) (take n history) own.now version.now)) }
{
    match table_said(alloc, version)? {
        Some(table) => part_of(alloc, view, own, table, before, n),
        None => Ok(None),
    }
}

// Adds a table.
fn add(tables: &mut Vec<TableFound>, found: TableFound) -> Result<(), AllocError>
    ensures { OnOk result (tables.new.items ≡ tables.old.items ++ found ∷ []) }
{
    tables.push(found)?;
    Ok(())
}

// All tables that these versions say.
fn parts_said<V: KvView>(
    alloc: Global,
    view: &V,
    own: &[Version],
    said: &[Version],
    before: u64,
    n: u64,
) -> Result<Option<Vec<TableFound>>, ViewError>
    requires front { All (λ v. IsTrue (begins_with keys.table_prefix v.key)) said.now }
    requires view { (history : List Transaction) × V.stands view.now history × (n ≤ length history) × (before ≤ length history)
        × IsSqlSound (take before history) × All (λ (v : TheVersion). (last_version (take before history) v.key ≡ Some v) × (v.deleted ≡ false)) said.now }
    ensures { (history : List Transaction) → V.stands view.now history → n ≤ length history → before ≤ length history
        → IsSqlSound (take before history) → All (λ (v : TheVersion). (last_version (take before history) v.key ≡ Some v) × (v.deleted ≡ false)) said.now
        → IfOk result (λ found. IfSome found (λ fs. AllZip (spec.IsPartBy (take before history) (take n history) own.now) said.now fs.items)) }
{
    let mut tables = Vec::new(alloc);
    for version in said {
        match part_by(alloc, view, own, version, before, n)? {
            Some(found) => add(&mut tables, found)?,
            None => {
                drop(tables);
                return Ok(None);
            }
        }
    }
    Ok(Some(tables))
}

/// All tables with their indexes after the first `before` transactions, when keys are SQL's, and those of their rows
/// after the first `n` whose keys these versions have; or none where one of these keys says no row. It asks for one
/// `scan` of the tables, one of each table's indexes, and one `get` for each version under a table's rows. Its only
/// error is want of memory.
pub(crate) fn parts_at<V: KvView>(
    alloc: Global,
    view: &V,
    own: &[Version],
    before: u64,
    n: u64,
) -> Result<Option<Vec<TableFound>>, ViewError>
    requires { (history : List Transaction) × V.stands view.now history × (n ≤ length history) × (before ≤ length history) × IsSqlSound (take before history) }
    ensures { (history : List Transaction) → V.stands view.now history → n ≤ length history → before ≤ length history → IsSqlSound (take before history)
        → IfOk result (λ found. IfSome found (λ fs. spec.AreParts (take before history) (take n history) own.now fs.items)) }
{
    let said = view.scan(alloc, &[0, 1], before)?;
    let parts = parts_said(alloc, view, own, said.as_slice(), before, n)?;
    drop(said);
    Ok(parts)
}
