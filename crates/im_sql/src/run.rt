//! What a statement answers.

ghost use Rattle.std.specs.Prelude.{◌≡◌, ◌≤◌, ◌⊎◌, List, length, take};
ghost use Rattle.im_model.specs.History.{IsHistory};
ghost use Rattle.im_model.specs.declared.transactions.Transaction.{Transaction};
ghost use Rattle.im_sqlmodel.specs.Answers.{AnswerIs};
ghost use Rattle.im_sqlmodel.specs.Kept.{IsSqlKept};
ghost use Rattle.im_sqlmodel.specs.declared.answers.SqlError.TheVariants as error;

use crate::creating::{create_index, create_table};
use crate::deleting::delete;
use crate::inserting::insert;
use im_plan::selects::select;
use im_sqlmodel::answers::{SqlError, SqlOut};
use im_sqlparse::statements::{Form, Stmt};
use im_versions::changes::ChangesView;
use std::alloc::Global;

/// What a statement answers where its line counts n transactions: the rows of a SELECT; what is to be placed, and under
/// which preconditions; or that there is nothing to write. It changes nothing. What it gives to be placed is judged by
/// its preconditions where it is placed: a `conflict` comes by these alone.
///
/// # Steps
///
/// It asks the view for the table by one `get`, and for no more where that or the statement's names refuse it. All but a CREATE TABLE and
/// a SELECT of a history then ask for the table's indexes by one `scan`. A SELECT and a DELETE look at what `im_plan` says: of rows
/// `rows_meeting`, of a history `revisions_meeting`. An INSERT or UPSERT asks for each of its rows by at most one `get`, and for each
/// unique index by at most one more. A CREATE TABLE asks for the number of tables by at most one `get`; a CREATE INDEX, before the
/// indexes, for the table's rows by at most one `scan`.
///
/// # Errors
///
/// The first in the order of docs/SQL.md, and `Memory` where memory runs out.
pub fn run<V: ChangesView>(alloc: Global, view: &V, stmt: &Stmt, n: u64) -> Result<SqlOut, SqlError>
    requires { (history : List Transaction) × V.stands view.now history × (n ≤ length history) × IsHistory history × IsSqlKept (take n history) }
    ensures { (history : List Transaction) → V.stands view.now history → n ≤ length history → IsHistory history → IsSqlKept (take n history)
        → (result ≡ Err error.Memory) ⊎ AnswerIs (take n history) stmt.now result }
{
    match stmt.form() {
        Form::CreateTable(create) => create_table(alloc, view, create, n),
        Form::CreateIndex(create) => create_index(alloc, view, create, n),
        Form::Upsert(insertion) => insert(alloc, view, insertion, false, n),
        Form::Insert(insertion) => insert(alloc, view, insertion, true, n),
        Form::Delete(erasure) => delete(alloc, view, erasure, n),
        Form::Select(query) => select(alloc, view, query, n),
    }
}
