//! A statement, judged over a session.

ghost use Rattle.std.specs.Prelude.{◌≤◌, length};

use crate::session::Session;
use im_sql::run::run;
use im_sqlmodel::answers::{KeptError, SqlError, SqlOut};
use im_sqlparse::errors::{ParseError, SqlSyntax};
use im_sqlparse::parse;
use im_sqlparse::statements::Stmt;
use im_sqlsound::kept::kept;
use im_tx::prepared::Prepared;
use std::alloc::{AllocError, Global};

/// What a text comes to.
#[derive(Drop)]
pub enum Judged {
    /// It is no statement.
    Syntax(SqlSyntax),
    /// It isn't judged: after transaction `tx` the keys aren't SQL's.
    NotKept { tx: u64 },
    /// What it answers.
    Answered(SqlOut),
    /// Why it is refused.
    Refused(SqlError),
}

/// What a text comes to after the first `n` transactions. Its only error is want of memory.
pub fn judge(alloc: Global, session: &Session, text: &str, n: u64) -> Result<Judged, AllocError>
    requires { n ≤ length session.now }
{
    match parse(alloc, text) {
        Ok(statement) => {
            let judged = judge_statement(alloc, session, &statement, n);
            drop(statement);
            judged
        }
        Err(ParseError::Syntax(fault)) => Ok(Judged::Syntax(fault)),
        Err(ParseError::Memory) => Err(AllocError),
    }
}

// What a statement comes to after the first `n` transactions: it is run where the keys are SQL's.
fn judge_statement(
    alloc: Global,
    session: &Session,
    statement: &Stmt,
    n: u64,
) -> Result<Judged, AllocError>
    requires { n ≤ length session.now }
{
    let view = session.view(alloc)?;
    match kept(alloc, &view, n) {
        Ok(()) => told(run(alloc, &view, statement, n)),
        Err(KeptError::NotKept { tx }) => Ok(Judged::NotKept { tx }),
        Err(KeptError::Memory) => Err(AllocError),
    }
}

fn told(answer: Result<SqlOut, SqlError>) -> Result<Judged, AllocError> {
    match answer {
        Ok(out) => Ok(Judged::Answered(out)),
        Err(error) => match error {
            SqlError::Memory => Err(AllocError),
            error => Ok(Judged::Refused(error)),
        },
    }
}

/// What is to be placed, if a text comes to that.
pub fn to_place(judged: Judged) -> Option<Prepared> {
    match judged {
        Judged::Answered(out) => written(out),
        other => {
            drop(other);
            None
        }
    }
}

fn written(out: SqlOut) -> Option<Prepared> {
    match out {
        SqlOut::Write(prepared) => Some(prepared),
        other => {
            drop(other);
            None
        }
    }
}

/// The first transaction after which the keys aren't SQL's, if there is one. Its only error is want of memory.
pub fn not_kept(alloc: Global, session: &Session) -> Result<Option<u64>, AllocError> {
    let view = session.view(alloc)?;
    match kept(alloc, &view, session.len()) {
        Ok(()) => Ok(None),
        Err(KeptError::NotKept { tx }) => Ok(Some(tx)),
        Err(KeptError::Memory) => Err(AllocError),
    }
}
