ghost use Rattle.std.specs.Prelude.{◌≡◌, IfErr, IfOk, List, map};
ghost use Rattle.im_draft.specs.Drafts.{entry_of, AreEntries, AreFree};
ghost use Rattle.im_draft.specs.declared.drafts.Draft.{Draft as TheDraft};
ghost use Rattle.im_script.specs.declared.commands.Command.TheVariants.{Set, Link};
ghost use Rattle.im_report.specs.Reads.{place_reply};
ghost use Rattle.im_session.specs.Answered.{IsAnswered, IsRefusal, IsUnanswered, fault_of};
ghost use Rattle.im_table.specs.Passes.{IsPassOf, Later};

use im_dealing::answers::Answer;
use im_dealing::errors::LineError;
use im_digest::Hash32;
use im_disk::disk::Disk;
use im_draft::drafts::Draft;
use im_draft::preconditions::Pres;
use im_edge::clock::Clock;
use im_report::reads::place_text;
use im_report::replies::{refused_text, reserved_text, tx_text};
use im_sqllaw::law::SqlKeys;
use im_sqllaw::laws::other_entries_may_be_placed;
use im_store::errors::CommitError;
use im_store::store::Store;
use im_table::pass::Pass;
use im_table::tip_name::TipName;
use im_tx::prepare::prepare;
use im_tx::prepared::Prepared;
use im_tx::reserved::first_reserved;
use im_versions::refusals::PlaceError;
use std::alloc::{AllocError, Global};
use std::sync::Wait;

// The reply of a commit that was refused behind so many transactions.
fn refusal(alloc: Global, why: PlaceError, at: u64) -> Result<Answer, AllocError>
    ensures { IfOk result (λ answer. (answer.number ≡ at) × (answer.reply.items ≡ place_reply why)) }
{
    let reply = place_text(alloc, &why);
    drop(why);
    Ok(Answer {
        number: at,
        reply: reply?,
    })
}

// The reply of a commit that has no receipt, where it has one: a refusal. The device's answers and want of memory have none.
fn refused(alloc: Global, error: CommitError) -> Result<Answer, LineError>
    ensures ok { IfOk result (λ answer. IsRefusal error answer) }
    ensures err { IfErr result (λ why. why ≡ fault_of error) }
{
    match error {
        CommitError::Missing { key, at } => Ok(refusal(alloc, PlaceError::Missing { key }, at)?),
        CommitError::Exists { key, tx, at } => {
            Ok(refusal(alloc, PlaceError::Exists { key, tx }, at)?)
        }
        CommitError::Modified { key, tx, at } => {
            Ok(refusal(alloc, PlaceError::Modified { key, tx }, at)?)
        }
        CommitError::Full { at } => Ok(refusal(alloc, PlaceError::Full, at)?),
        CommitError::DiskFault { .. } | CommitError::Stopped { .. } => {
            drop(error);
            Err(LineError::DiskFault)
        }
        CommitError::Memory { .. } => {
            drop(error);
            Err(LineError::Memory)
        }
    }
}

// Commits what was prepared.
fn commit<H: Hash32, D: Disk, C: Clock, N: TipName, R: Wait>(
    rt: &R,
    alloc: Global,
    store: &Store<'_, H, D, C, SqlKeys, N>,
    pass: &mut Pass,
    prepared: Prepared,
) -> Result<Answer, LineError>
    requires pass { IsPassOf N.table pass.old }
    requires free { (drafts : List TheDraft) × AreFree drafts × (prepared.entries ≡ map entry_of drafts) }
    ensures later { Later pass.old pass.new }
    ensures ok { IfOk result (λ answer. (drafts : List TheDraft) → AreFree drafts → AreEntries drafts → prepared.entries ≡ map entry_of drafts
        → IsAnswered N.digest pass.old pass.new (Set prepared.pres drafts) answer) }
    ensures err { IfErr result (λ why. (drafts : List TheDraft) → AreFree drafts → AreEntries drafts → prepared.entries ≡ map entry_of drafts
        → IsUnanswered pass.old pass.new (Set prepared.pres drafts) why) }
{
    other_entries_may_be_placed();
    match store.commit(rt, alloc, pass, prepared) {
        Ok(receipt) => {
            let number = receipt.id;
            drop(receipt);
            let reply = tx_text(alloc, number)?;
            Ok(Answer { number, reply })
        }
        Err(error) => refused(alloc, error),
    }
}

/// Answers `set` and `del`: commits a transaction of the drafts, unless they are refused before. What that costs is said at `prepare` and
/// at the store's `commit`.
pub(crate) fn answer_set<H: Hash32, D: Disk, C: Clock, N: TipName, R: Wait>(
    rt: &R,
    alloc: Global,
    store: &Store<'_, H, D, C, SqlKeys, N>,
    pass: &mut Pass,
    pres: Pres,
    drafts: Vec<Draft>,
) -> Result<Answer, LineError>
    requires pass { IsPassOf N.table pass.old }
    ensures later { Later pass.old pass.new }
    ensures ok { IfOk result (λ answer. IsAnswered N.digest pass.old pass.new (Set pres drafts.items) answer) }
    ensures err { IfErr result (λ why. IsUnanswered pass.old pass.new (Set pres drafts.items) why) }
{
    if let Some(i) = first_reserved(&drafts) {
        drop(pres);
        drop(drafts);
        let number = store.tip(pass);
        let reply = reserved_text(alloc, i as u64)?;
        return Ok(Answer { number, reply });
    }
    let made = prepare(alloc, drafts, pres);
    match made {
        Ok(prepared) => commit(rt, alloc, store, pass, prepared),
        Err(why) => {
            // What was drafted is let go before the reply is made.
            drop(made);
            let number = store.tip(pass);
            let reply = refused_text(alloc, why)?;
            Ok(Answer { number, reply })
        }
    }
}

/// Answers `link`: raises the tree by so many transactions, at most to what is durable. It is in memory alone.
pub(crate) fn answer_link<H: Hash32, D: Disk, C: Clock, N: TipName, R: Wait>(
    rt: &R,
    alloc: Global,
    store: &Store<'_, H, D, C, SqlKeys, N>,
    pass: &mut Pass,
    count: u64,
) -> Result<Answer, LineError>
    requires pass { IsPassOf N.table pass.old }
    ensures later { Later pass.old pass.new }
    ensures ok { IfOk result (λ answer. IsAnswered N.digest pass.old pass.new (Link count) answer) }
    ensures err { IfErr result (λ why. IsUnanswered pass.old pass.new (Link count) why) }
{
    let number = store.tip(pass);
    store.link(rt, alloc, pass, count)?;
    let reply = Vec::from_slice(alloc, b"linked")?;
    Ok(Answer { number, reply })
}
