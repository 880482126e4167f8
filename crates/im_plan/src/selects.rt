//! SELECT.

ghost use Rattle.std.specs.Prelude.{◌≡◌, ◌≤◌, ◌⊎◌, List, length, take, filter, map, IfOk};
ghost use Rattle.im_model.specs.History.{IsHistory};
ghost use Rattle.im_model.specs.declared.transactions.Transaction.{Transaction};
ghost use Rattle.im_sqltype.specs.declared.values.Value.{Value as Cell};
ghost use Rattle.im_sqlmodel.specs.Conditions as conditions;
ghost use Rattle.im_sqlmodel.specs.Kept.{IsSqlKept, IsTableOf};
ghost use Rattle.im_sqlmodel.specs.Options.{first_found};
ghost use Rattle.im_sqlmodel.specs.Selects as spec;

use crate::cuts::shown_rows;
use crate::found::{revisions_meeting, rows_meeting};
use crate::ordering::sort_rows;
use im_catalog::catalogue::{indexes, table};
use im_expr::judged::{filter_fault, name_fault};
use im_expr::scopes::scope_of;
use im_octet::octets::Octets;
use im_sqlmodel::answers::{SqlError, SqlOut};
use im_sqlmodel::rows::StoredRow;
use im_sqlmodel::tables::{Nameable, Table};
use im_sqlparse::statements::{Name, OrderTerm, Period, Select};
use im_sqltype::rows::Row;
use im_versions::changes::ChangesView;
use im_versions::errors::ViewError;
use sqlite_items::Items;
use std::alloc::{AllocError, Global};

// After how many transactions it reads, where a line counts n.
fn number_read(n: u64, period: Period) -> u64
    ensures { result ≡ spec.number_read n period }
{
    match period {
        Period::Now => n,
        Period::Before(number) => number.saturating_sub(1),
        Period::Until(number) => number,
    }
}

// The first of these names that is no column.
fn names_fault(
    alloc: Global,
    scope: &[Nameable],
    names: &[Name],
) -> Result<Option<SqlError>, AllocError>
    ensures { IfOk result (λ fault. fault ≡ first_found (conditions.name_fault scope.now) names.now) }
{
    for name in names {
        if let Some(fault) = name_fault(alloc, scope, name.as_slice())? {
            return Ok(Some(fault));
        }
    }
    Ok(None)
}

fn shown_fault(
    alloc: Global,
    scope: &[Nameable],
    columns: &Option<Items<Name>>,
) -> Result<Option<SqlError>, AllocError>
    ensures { IfOk result (λ fault. fault ≡ spec.shown_fault scope.now columns.now) }
{
    match columns {
        Some(names) => names_fault(alloc, scope, names.as_slice()),
        None => Ok(None),
    }
}

// The first term of an ORDER BY that names no column.
fn order_fault(
    alloc: Global,
    scope: &[Nameable],
    terms: &[OrderTerm],
) -> Result<Option<SqlError>, AllocError>
    ensures { IfOk result (λ fault. fault ≡ first_found (λ t. conditions.name_fault scope.now t.column) terms.now) }
{
    for term in terms {
        if let Some(fault) = name_fault(alloc, scope, term.column.as_slice())? {
            return Ok(Some(fault));
        }
    }
    Ok(None)
}

// What is wrong with a SELECT, from the left.
fn select_fault(
    alloc: Global,
    scope: &[Nameable],
    select: &Select,
) -> Result<Option<SqlError>, AllocError>
    ensures { IfOk result (λ fault. fault ≡ spec.select_fault scope.now select.now) }
{
    if let Some(fault) = shown_fault(alloc, scope, &select.columns)? {
        return Ok(Some(fault));
    }
    if let Some(fault) = filter_fault(alloc, scope, &select.filter)? {
        return Ok(Some(fault));
    }
    order_fault(alloc, scope, select.order.as_slice())
}

/// What a SELECT answers where its line counts n transactions: its rows, of those that stood after the number of
/// transactions that it names. `found` says what is looked at to find them; those that meet the condition are held in
/// memory, sorted where there is an ORDER BY, cut, and the kept ones copied.
///
/// # Errors
///
/// The first of: `NoTable`; `NoColumn` and `Compare`, from the left; `Beyond`, where it reads after more than n.
/// `Memory` where memory runs out.
pub fn select<V: ChangesView>(
    alloc: Global,
    view: &V,
    select: &Select,
    n: u64,
) -> Result<SqlOut, SqlError>
    requires { (history : List Transaction) × V.stands view.now history × (n ≤ length history) × IsHistory history × IsSqlKept (take n history) }
    ensures { (history : List Transaction) → V.stands view.now history → n ≤ length history → IsHistory history → IsSqlKept (take n history)
        → (result ≡ Err SqlError.Memory) ⊎ spec.SelectIs (take n history) select.now result }
{
    let named = number_read(n, select.period).min(n);
    match table(alloc, view, select.table.as_slice(), named)? {
        Some(table) => {
            let answer = select_of(alloc, view, select, &table, n);
            drop(table);
            answer
        }
        None => {
            let table = Octets::from_slice(alloc, select.table.as_slice())?;
            Err(SqlError::NoTable { table })
        }
    }
}

// What it answers of a table that is there.
fn select_of<V: ChangesView>(
    alloc: Global,
    view: &V,
    select: &Select,
    table: &Table,
    n: u64,
) -> Result<SqlOut, SqlError>
    requires { (history : List Transaction) × V.stands view.now history × (n ≤ length history) × IsHistory history × IsSqlKept (take n history)
        × IsTableOf (take (spec.number_named n select.now.period) history) table.now }
    ensures { (history : List Transaction) → V.stands view.now history → n ≤ length history → IsHistory history → IsSqlKept (take n history)
        → IsTableOf (take (spec.number_named n select.now.period) history) table.now
        → (result ≡ Err SqlError.Memory) ⊎ spec.SelectOf (take n history) select.now table.now result }
{
    let scope = scope_of(alloc, table, select.history)?;
    if let Some(fault) = select_fault(alloc, scope.as_slice(), select)? {
        drop(scope);
        return Err(fault);
    }
    let read = number_read(n, select.period);
    if n < read {
        drop(scope);
        return Err(SqlError::Beyond { n });
    }
    let rows = selected(alloc, view, select, table, scope.as_slice(), read)?;
    drop(scope);
    Ok(SqlOut::Rows(rows))
}

// The rows that it answers, of those after so many transactions.
fn selected<V: ChangesView>(
    alloc: Global,
    view: &V,
    select: &Select,
    table: &Table,
    scope: &[Nameable],
    n: u64,
) -> Result<Items<Row>, ViewError>
    requires view { (history : List Transaction) × V.stands view.now history × (n ≤ length history) × IsHistory history × IsSqlKept (take n history)
        × IsTableOf (take n history) table.now }
    requires scope { scope.now ≡ conditions.scope_of table.now select.now.history }
    ensures { (history : List Transaction) → V.stands view.now history → n ≤ length history → IsHistory history → IsSqlKept (take n history)
        → IsTableOf (take n history) table.now → (rows : List (List Cell)) → spec.SourceIs (take n history) table.now select.now.history rows
        → IfOk result (λ shown. shown ≡ spec.selected scope.now select.now rows) }
{
    let mut rows = source_rows(alloc, view, select, table, scope, n)?;
    sort_rows(scope, select.order.as_slice(), &mut rows)?;
    let shown = shown_rows(alloc, scope, select, rows.as_slice());
    drop(rows);
    Ok(shown?)
}

// The rows that are read and meet its condition, by rising primary key.
fn source_rows<V: ChangesView>(
    alloc: Global,
    view: &V,
    select: &Select,
    table: &Table,
    scope: &[Nameable],
    n: u64,
) -> Result<Vec<Row>, ViewError>
    requires view { (history : List Transaction) × V.stands view.now history × (n ≤ length history) × IsHistory history × IsSqlKept (take n history)
        × IsTableOf (take n history) table.now }
    requires scope { scope.now ≡ conditions.scope_of table.now select.now.history }
    ensures { (history : List Transaction) → V.stands view.now history → n ≤ length history → IsHistory history → IsSqlKept (take n history)
        → IsTableOf (take n history) table.now → (rows : List (List Cell)) → spec.SourceIs (take n history) table.now select.now.history rows
        → IfOk result (λ found. found.items ≡ filter (conditions.meets scope.now select.now.filter) rows) }
{
    if select.history {
        return revisions_meeting(alloc, view, table, scope, &select.filter, n);
    }
    let indexes = indexes(alloc, view, table, n)?;
    let stored = rows_meeting(
        alloc,
        view,
        table,
        indexes.as_slice(),
        scope,
        &select.filter,
        n,
    )?;
    drop(indexes);
    let rows = values_of(alloc, stored)?;
    Ok(rows)
}

// The values of rows, which are moved.
fn values_of(alloc: Global, stored: Vec<StoredRow>) -> Result<Vec<Row>, AllocError>
    ensures { IfOk result (λ rows. rows.items ≡ map (λ s. s.row) stored.items) }
{
    let mut rows = Vec::with_capacity(alloc, stored.len())?;
    for one in stored {
        let StoredRow { row, tx: _ } = one;
        rows.push(row)?;
    }
    Ok(rows)
}
