//! DELETE.

ghost use Rattle.std.specs.Prelude.{◌≡◌, ◌≤◌, ◌<◌, ◌-◌, ◌^◌, ◌⊎◌, List, length, take, map, nat_eq, if◌then◌else◌, OnOk};
ghost use Rattle.im_model.specs.History.{IsHistory};
ghost use Rattle.im_model.specs.declared.transactions.Transaction.{Transaction};
ghost use Rattle.im_sqlparse.specs.Formed.{IsDeleteStatement};
ghost use Rattle.im_sqlmodel.specs.Kept.{IsSqlKept, IsTableOf};
ghost use Rattle.im_sqlmodel.specs.Rows.{RowsAre, IndexesAre};
ghost use Rattle.im_sqlmodel.specs.Tables.{IsTable};
ghost use Rattle.im_sqlmodel.specs.Writes as spec;
ghost use Rattle.im_sqlmodel.specs.declared.answers.SqlError.TheVariants as error;
ghost use Rattle.im_sqlmodel.specs.declared.answers.SqlOut.TheVariants as out;
ghost use Rattle.im_sqlmodel.specs.declared.rows.StoredRow.{StoredRow as TheStoredRow};
ghost use Rattle.im_sqlmodel.specs.declared.tables.SqlIndex.{SqlIndex as TheIndex};
ghost use Rattle.im_sql.specs.Writing.{AreFine, Answers};

use crate::placing::placed;
use crate::writes::Writes;
use im_catalog::catalogue::{indexes, table};
use im_catalog::entries::{all_written, deleted};
use im_expr::judged::filter_fault;
use im_expr::scopes::scope_of;
use im_octet::octets::Octets;
use im_plan::found::rows_meeting;
use im_sqlmodel::answers::{SqlError, SqlOut};
use im_sqlmodel::rows::StoredRow;
use im_sqlmodel::tables::{SqlIndex, Table};
use im_sqlparse::statements::Delete;
use im_sqltype::values::Value;
use im_versions::view::KvView;
use std::alloc::{AllocError, Global};

/// What DELETE answers where its line counts n transactions. Which rows are looked at `im_plan`'s `rows_meeting` says.
///
/// # Errors
///
/// The first of: `NoTable`; `NoColumn` and `Compare`, from the left; `TooMany`. `Memory` where memory runs out.
pub(crate) fn delete<V: KvView>(
    alloc: Global,
    view: &V,
    delete: &Delete,
    n: u64,
) -> Result<SqlOut, SqlError>
    requires view { (history : List Transaction) × V.stands view.now history × (n ≤ length history) × IsHistory history × IsSqlKept (take n history) }
    requires formed { IsDeleteStatement delete.now }
    ensures { (history : List Transaction) → V.stands view.now history → n ≤ length history → IsHistory history → IsSqlKept (take n history)
        → (result ≡ Err error.Memory) ⊎ spec.WriteIs (take n history) delete.now.table (spec.erased (take n history) delete.now) result }
{
    match table(alloc, view, delete.table.as_slice(), n)? {
        Some(table) => {
            let answer = delete_from(alloc, view, &table, delete, n);
            drop(table);
            answer
        }
        None => {
            let table = Octets::from_slice(alloc, delete.table.as_slice())?;
            Err(SqlError::NoTable { table })
        }
    }
}

// What it answers of a table that is there.
fn delete_from<V: KvView>(
    alloc: Global,
    view: &V,
    table: &Table,
    delete: &Delete,
    n: u64,
) -> Result<SqlOut, SqlError>
    requires { (history : List Transaction) × V.stands view.now history × (n ≤ length history) × IsHistory history × IsSqlKept (take n history)
        × IsTableOf (take n history) table.now }
    ensures { (history : List Transaction) → V.stands view.now history → n ≤ length history → IsHistory history → IsSqlKept (take n history)
        → IsTableOf (take n history) table.now → (indexes : List TheIndex) (rows : List TheStoredRow) → IndexesAre (take n history) table.now indexes
        → RowsAre (take n history) table.now rows → Answers result (spec.erased (take n history) delete.now table.now indexes rows) }
{
    let scope = scope_of(alloc, table, false)?;
    if let Some(fault) = filter_fault(alloc, scope.as_slice(), &delete.filter)? {
        drop(scope);
        return Err(fault);
    }
    let indexes = indexes(alloc, view, table, n)?;
    let rows = rows_meeting(
        alloc,
        view,
        table,
        indexes.as_slice(),
        scope.as_slice(),
        &delete.filter,
        n,
    )?;
    drop(scope);
    let answer = erase(alloc, table, indexes.as_slice(), rows.as_slice(), n);
    drop(indexes);
    drop(rows);
    answer
}

// What is answered where these rows are met.
fn erase(
    alloc: Global,
    table: &Table,
    indexes: &[SqlIndex],
    rows: &[StoredRow],
    n: u64,
) -> Result<SqlOut, SqlError>
    requires table { IsTable table.now }
    requires few { length indexes.now < 2 ^ 32 - 1 }
    requires fine { AreFine (spec.rows_dropped table.now indexes.now rows.now) }
    ensures { Answers result (if nat_eq (length rows.now) 0 then Ok out.Nothing else spec.placed n table.now indexes.now (spec.rows_dropped table.now indexes.now rows.now)) }
{
    if rows.is_empty() {
        return Ok(SqlOut::Nothing);
    }
    let mut writes = Writes::new(alloc);
    for stored in rows {
        erase_row(alloc, table, indexes, &mut writes, stored.row.as_slice())?;
    }
    placed(alloc, n, table, indexes, writes)
}

// Deletes the key of a row and its entries.
fn erase_row(
    alloc: Global,
    table: &Table,
    indexes: &[SqlIndex],
    writes: &mut Writes,
    row: &[Value],
) -> Result<(), AllocError>
    ensures { OnOk result (writes.new ≡ spec.put_all (map spec.deleted (spec.all_written table.now indexes.now row.now)) writes.old) }
{
    let written = all_written(alloc, table, indexes, row)?;
    for one in written {
        writes.put(deleted(one))?;
    }
    Ok(())
}
