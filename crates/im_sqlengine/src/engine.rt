//! The one engine.

use im_sql::run::run;
use im_sqlmodel::answers::{KeptError, SqlError, SqlOut};
use im_sqlmodel::engine::SqlEngine;
use im_sqlparse::statements::Stmt;
use im_sqlsound::kept::kept;
use im_versions::changes::ChangesView;
use std::alloc::Global;

/// Answers statements as `im_sql::run` does, and judges as `im_sqlsound::kept` does, whose costs are told there.
#[derive(Clone, Copy)]
pub struct Engine;

impl SqlEngine for Engine {
    ghost use Rattle.im_sqlsound.proofs.StatementLemmas.{statement-kept};

    fn run<V: ChangesView>(
        &self,
        alloc: Global,
        view: &V,
        stmt: &Stmt,
        n: u64,
    ) -> Result<SqlOut, SqlError> {
        run(alloc, view, stmt, n)
    }

    fn judge<V: ChangesView>(&self, alloc: Global, view: &V, n: u64) -> Result<(), KeptError> {
        kept(alloc, view, n)
    }

    ghost keeps = { statement-kept };
}
