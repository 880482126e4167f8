//! Replies to statements of SQL that ask for nothing to be placed.

ghost use Rattle.std.specs.Prelude.{◌≡◌, IfErr, IfOk, Ok};
ghost use Rattle.im_sqlparse.specs.declared.errors.SqlSyntax.{SqlSyntax};
ghost use Rattle.im_sqlreply.specs.Replies.{syntax_reply};
ghost use Rattle.im_sqlreply.specs.Shown.{IsShown};

use crate::answers::Answer;
use crate::errors::LineError;
use im_sqlmodel::answers::{SqlError, SqlOut};
use im_sqlparse::errors::ParseError;
use im_sqlreply::errors::{error_text, syntax_text};
use im_sqlreply::rows::rows_text;
use std::alloc::Global;

/// The reply of an answer that asks for nothing to be placed; want of memory has none.
pub fn shown(alloc: Global, answer: Result<SqlOut, SqlError>) -> Result<Vec<u8>, LineError>
    requires shown { (prepared : _) → answer ≡ Ok (SqlOut.Write prepared) → ⊥ }
    ensures ok { IfOk result (λ reply. IsShown answer reply.items) }
    ensures err { IfErr result (λ why. why ≡ LineError.Memory) }
{
    let reply = reply_to(alloc, &answer);
    drop(answer);
    reply
}

// The reply to a statement that got this answer, as above.
fn reply_to(alloc: Global, answer: &Result<SqlOut, SqlError>) -> Result<Vec<u8>, LineError>
    requires shown { (prepared : _) → answer.now ≡ Ok (SqlOut.Write prepared) → ⊥ }
    ensures ok { IfOk result (λ reply. IsShown answer.now reply.items) }
    ensures err { IfErr result (λ why. why ≡ LineError.Memory) }
{
    match answer {
        Ok(SqlOut::Rows(rows)) => Ok(rows_text(alloc, rows)?),
        Ok(SqlOut::Nothing) => Ok(Vec::from_slice(alloc, b"none")?),
        Ok(SqlOut::Write(_)) => unreachable!(),
        Err(error) => Ok(error_text(alloc, error)?),
    }
}

/// The answer to a text that isn't read as a statement; want of memory has none.
pub fn unread(alloc: Global, error: ParseError, number: u64) -> Result<Answer, LineError>
    ensures number { IfOk result (λ answer. answer.number ≡ number) }
    ensures ok { IfOk result (λ answer. (fault : SqlSyntax) × (error ≡ ParseError.Syntax fault) × (answer.reply.items ≡ syntax_reply fault)) }
    ensures err { IfErr result (λ why. why ≡ LineError.Memory) }
{
    match error {
        ParseError::Syntax(fault) => {
            let reply = syntax_text(alloc, fault)?;
            Ok(Answer { number, reply })
        }
        ParseError::Memory => Err(LineError::Memory),
    }
}
