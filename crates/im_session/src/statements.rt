//! Replies to statements of SQL.

ghost use Rattle.std.specs.Prelude.{◌≡◌, ◌≤◌, ℕ, List, IfErr, IfOk, Ok};
ghost use Rattle.im_dealing.specs.Found.{IsFoundKept};
ghost use Rattle.im_script.specs.declared.commands.Command.TheVariants.{Sql};
ghost use Rattle.im_session.specs.Answered.{IsAnswered, IsOfStatement, IsStatementRefusal, IsUnanswered, fault_of};
ghost use Rattle.im_session.specs.Statements.{AsksBehind, HasCounted};
ghost use Rattle.im_seated_book.specs.Seats.{MayBePlaced};
ghost use Rattle.im_sqllaw.specs.Law.{KeepsSql};
ghost use Rattle.im_sqlparse.specs.Formed.{IsStatement};
ghost use Rattle.im_sqlparse.specs.Statements.{statement_of};
ghost use Rattle.im_sqlparse.specs.declared.statements.Form.{Form as TheForm};
ghost use Rattle.im_table.specs.Known.{KnownPass};
ghost use Rattle.im_table.specs.Passes.{IsPassOf, Later};

use crate::reads::keys_at;
use im_dealing::answers::Answer;
use im_dealing::errors::LineError;
use im_dealing::statements::{shown, unread};
use im_digest::Hash32;
use im_disk::disk::Disk;
use im_edge::clock::Clock;
use im_report::statements::{conflict_text, full_read_text, tx_read_text};
use im_sqllaw::law::SqlKeys;
use im_sqllaw::laws::{a_list_is_kept, a_statement_asks_since, a_statement_may_be_placed};
use im_sqlmodel::answers::SqlOut;
use im_sqlmodel::engine::SqlEngine;
use im_sqlparse::laws::what_is_read_is_formed;
use im_sqlparse::parse;
use im_sqlparse::statements::Stmt;
use im_store::errors::CommitError;
use im_store::store::Store;
use im_table::pass::Pass;
use im_table::tip_name::TipName;
use im_tx::prepared::Prepared;
use std::alloc::Global;
use std::sync::Wait;

// The reply to a statement whose commit has no receipt, where it has one: that a key was written since, or that no more transactions may be placed.
fn unplaced(alloc: Global, error: CommitError, read: u64) -> Result<Answer, LineError>
    requires asked { IsOfStatement error }
    ensures ok { IfOk result (λ answer. IsStatementRefusal read error answer) }
    ensures err { IfErr result (λ why. why ≡ fault_of error) }
{
    let answer = unplaced_reply(alloc, &error, read);
    drop(error);
    answer
}

// The same of an error that is lent.
fn unplaced_reply(alloc: Global, error: &CommitError, read: u64) -> Result<Answer, LineError>
    requires asked { IsOfStatement error.now }
    ensures ok { IfOk result (λ answer. IsStatementRefusal read error.now answer) }
    ensures err { IfErr result (λ why. why ≡ fault_of error.now) }
{
    match error {
        CommitError::Modified { key, tx, at } => Ok(Answer {
            number: *at,
            reply: conflict_text(alloc, key.as_slice(), *tx, read)?,
        }),
        CommitError::Full { at } => Ok(Answer {
            number: *at,
            reply: full_read_text(alloc, read)?,
        }),
        CommitError::DiskFault { .. } | CommitError::Stopped { .. } => Err(LineError::DiskFault),
        CommitError::Memory { .. } => Err(LineError::Memory),
        CommitError::Missing { .. } | CommitError::Exists { .. } => unreachable!(),
    }
}

// Commits what a statement asks for, judged behind `read` transactions. It is tried once.
fn commit_read<H: Hash32, D: Disk, C: Clock, N: TipName, R: Wait>(
    rt: &R,
    alloc: Global,
    store: &Store<'_, H, D, C, SqlKeys, N>,
    pass: &mut Pass,
    prepared: Prepared,
    read: u64,
) -> Result<Answer, LineError>
    requires pass { IsPassOf N.table pass.old }
    requires asks { (said : TheForm) × AsksBehind pass.old said read prepared }
    requires law { MayBePlaced KeepsSql pass.old.view.seen prepared }
    ensures later { Later pass.old pass.new }
    ensures ok { IfOk result (λ answer. (first : KnownPass) (text : List ℕ) (said : TheForm) → HasCounted first pass.old read → statement_of text ≡ Ok said
        → AsksBehind pass.old said read prepared → IsAnswered N.digest first pass.new (Sql text) answer) }
    ensures err { IfErr result (λ why. (first : KnownPass) (text : List ℕ) (said : TheForm) → HasCounted first pass.old read → statement_of text ≡ Ok said
        → AsksBehind pass.old said read prepared → IsUnanswered first pass.new (Sql text) why) }
{
    a_statement_asks_since();
    match store.commit(rt, alloc, pass, prepared) {
        Ok(receipt) => {
            let number = receipt.id;
            drop(receipt);
            let reply = tx_read_text(alloc, number, read)?;
            Ok(Answer { number, reply })
        }
        Err(error) => unplaced(alloc, error, read),
    }
}

// Answers a statement whose line counted so many transactions.
fn answer_statement<H: Hash32, D: Disk, C: Clock, N: TipName, Q: SqlEngine, R: Wait>(
    rt: &R,
    alloc: Global,
    engine: &Q,
    store: &Store<'_, H, D, C, SqlKeys, N>,
    pass: &mut Pass,
    stmt: &Stmt,
    number: u64,
) -> Result<Answer, LineError>
    requires pass { IsPassOf N.table pass.old }
    requires found { IsFoundKept N.found }
    requires formed { IsStatement stmt.now }
    requires counted { number ≤ pass.old.view.least.durable }
    ensures later { Later pass.old pass.new }
    ensures ok { IfOk result (λ answer. (first : KnownPass) (text : List ℕ) → HasCounted first pass.old number → statement_of text ≡ Ok stmt.now
        → IsAnswered N.digest first pass.new (Sql text) answer) }
    ensures err { IfErr result (λ why. (first : KnownPass) (text : List ℕ) → HasCounted first pass.old number → statement_of text ≡ Ok stmt.now
        → IsUnanswered first pass.new (Sql text) why) }
{
    let keys = keys_at(rt, alloc, store, pass, number)?;
    store.show(rt, pass);
    a_list_is_kept();
    a_statement_may_be_placed::<Q>();
    let answer = engine.run(alloc, &keys, stmt, number);
    drop(keys);
    match answer {
        Ok(SqlOut::Write(prepared)) => commit_read(rt, alloc, store, pass, prepared, number),
        answer => {
            let reply = shown(alloc, answer)?;
            Ok(Answer { number, reply })
        }
    }
}

/// Answers `sql`: what the statement answers behind all that is durable as the line began. Where it is to write, a transaction is committed under its
/// preconditions. Where another session has written a key since that they guard, that is told, and nothing is tried again. What a statement costs is said at
/// its engine, and at the store's `snapshot` and `commit`; it also waits for the book's lock once.
pub(crate) fn answer_sql<H: Hash32, D: Disk, C: Clock, N: TipName, Q: SqlEngine, R: Wait>(
    rt: &R,
    alloc: Global,
    engine: &Q,
    store: &Store<'_, H, D, C, SqlKeys, N>,
    pass: &mut Pass,
    text: &str,
) -> Result<Answer, LineError>
    requires pass { IsPassOf N.table pass.old }
    requires found { IsFoundKept N.found }
    ensures later { Later pass.old pass.new }
    ensures ok { IfOk result (λ answer. IsAnswered N.digest pass.old pass.new (Sql text.now) answer) }
    ensures err { IfErr result (λ why. IsUnanswered pass.old pass.new (Sql text.now) why) }
{
    let number = store.tip(pass);
    let parsed = parse(alloc, text);
    match parsed {
        Ok(stmt) => {
            what_is_read_is_formed();
            let answer = answer_statement(rt, alloc, engine, store, pass, &stmt, number);
            drop(stmt);
            answer
        }
        Err(error) => {
            // What was read is let go before the reply is made.
            drop(parsed);
            unread(alloc, error, number)
        }
    }
}
