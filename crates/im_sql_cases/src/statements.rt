use crate::creations::{push_index, push_table};
use crate::selects::push_select;
use crate::writes::{push_deletion, push_insertion};
use im_sqlparse::statements::{Form, Stmt};
use std::alloc::AllocError;

/// Adds a statement: one expression in parentheses, its parts with single blanks between.
pub fn push_statement(out: &mut String, statement: &Stmt) -> Result<(), AllocError> {
    match statement.form() {
        Form::CreateTable(creation) => push_table(out, creation),
        Form::CreateIndex(creation) => push_index(out, creation),
        Form::Upsert(insertion) => push_insertion(out, "upsert", insertion),
        Form::Insert(insertion) => push_insertion(out, "insert", insertion),
        Form::Delete(deletion) => push_deletion(out, deletion),
        Form::Select(select) => push_select(out, select),
    }
}
