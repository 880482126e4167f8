//! Replies to reads: the keys behind all that is durable, and what is read off them.

ghost use Rattle.std.specs.Prelude.{◌≤◌, [], IfErr, IfOk};
ghost use Rattle.im_dealing.specs.Shown.{ShowsKeys};
ghost use Rattle.im_script.specs.declared.commands.Command.TheVariants.{Get, Scan, History};
ghost use Rattle.im_session.specs.Answered.{IsAnswered, IsUnanswered};
ghost use Rattle.im_store.specs.Gains.{Gains};
ghost use Rattle.im_table.specs.Passes.{IsPassOf, Later};

use im_dealing::answers::Answer;
use im_dealing::errors::LineError;
use im_dealing::reads::{get_text, history_shown, scan_shown};
use im_digest::Hash32;
use im_disk::disk::Disk;
use im_edge::clock::Clock;
use im_index::snapshot::Snapshot;
use im_sqllaw::law::SqlKeys;
use im_store::errors::SnapshotError;
use im_store::store::Store;
use im_table::pass::Pass;
use im_table::tip_name::TipName;
use std::alloc::{AllocError, Global};
use std::sync::Wait;

// As many transactions as there may be: so many are indexed at once where a read finds too few.
const MOST_INDEXED: u64 = 1_048_576;

// What stands of the keys behind the first n transactions. Where too few are indexed, it indexes once, as many as there may be, and asks again.
pub(crate) fn keys_at<H: Hash32, D: Disk, C: Clock, N: TipName, R: Wait>(
    rt: &R,
    alloc: Global,
    store: &Store<'_, H, D, C, SqlKeys, N>,
    pass: &mut Pass,
    n: u64,
) -> Result<Snapshot, AllocError>
    requires pass { IsPassOf N.table pass.old }
    requires durable { n ≤ pass.old.view.least.durable }
    ensures later { Later pass.old pass.new }
    ensures gains { Gains [] 0 0 pass.old pass.new }
    ensures keys { IfOk result (λ keys. ShowsKeys pass.new n keys) }
{
    match store.snapshot(rt, alloc, pass, n) {
        Ok(keys) => return Ok(keys),
        Err(SnapshotError::NotYet { .. }) => {}
        Err(SnapshotError::Memory) => return Err(AllocError),
        Err(SnapshotError::Beyond { .. }) => unreachable!(),
    }
    store.index(rt, alloc, pass, MOST_INDEXED.max(n))?;
    match store.snapshot(rt, alloc, pass, n) {
        Ok(keys) => Ok(keys),
        Err(SnapshotError::Memory) => Err(AllocError),
        Err(SnapshotError::NotYet { .. } | SnapshotError::Beyond { .. }) => unreachable!(),
    }
}

/// Answers `get`: by what stands behind all that is durable, or behind the first `at`.
pub(crate) fn answer_get<H: Hash32, D: Disk, C: Clock, N: TipName, R: Wait>(
    rt: &R,
    alloc: Global,
    store: &Store<'_, H, D, C, SqlKeys, N>,
    pass: &mut Pass,
    key: &[u8],
    at: Option<u64>,
) -> Result<Answer, LineError>
    requires pass { IsPassOf N.table pass.old }
    ensures later { Later pass.old pass.new }
    ensures ok { IfOk result (λ answer. IsAnswered N.digest pass.old pass.new (Get key.now at) answer) }
    ensures err { IfErr result (λ why. IsUnanswered pass.old pass.new (Get key.now at) why) }
{
    let number = store.tip(pass);
    let keys = keys_at(rt, alloc, store, pass, number)?;
    let shown = get_text(alloc, &keys, number, key, at);
    drop(keys);
    let reply = shown?;
    Ok(Answer { number, reply })
}

/// Answers `scan`: as `answer_get`.
pub(crate) fn answer_scan<H: Hash32, D: Disk, C: Clock, N: TipName, R: Wait>(
    rt: &R,
    alloc: Global,
    store: &Store<'_, H, D, C, SqlKeys, N>,
    pass: &mut Pass,
    prefix: &[u8],
    at: Option<u64>,
) -> Result<Answer, LineError>
    requires pass { IsPassOf N.table pass.old }
    ensures later { Later pass.old pass.new }
    ensures ok { IfOk result (λ answer. IsAnswered N.digest pass.old pass.new (Scan prefix.now at) answer) }
    ensures err { IfErr result (λ why. IsUnanswered pass.old pass.new (Scan prefix.now at) why) }
{
    let number = store.tip(pass);
    let keys = keys_at(rt, alloc, store, pass, number)?;
    let shown = scan_shown(alloc, &keys, number, prefix, at);
    drop(keys);
    let reply = shown?;
    Ok(Answer { number, reply })
}

/// Answers `history`: by what stands behind all that is durable.
pub(crate) fn answer_history<H: Hash32, D: Disk, C: Clock, N: TipName, R: Wait>(
    rt: &R,
    alloc: Global,
    store: &Store<'_, H, D, C, SqlKeys, N>,
    pass: &mut Pass,
    key: &[u8],
) -> Result<Answer, LineError>
    requires pass { IsPassOf N.table pass.old }
    ensures later { Later pass.old pass.new }
    ensures ok { IfOk result (λ answer. IsAnswered N.digest pass.old pass.new (History key.now) answer) }
    ensures err { IfErr result (λ why. IsUnanswered pass.old pass.new (History key.now) why) }
{
    let number = store.tip(pass);
    let keys = keys_at(rt, alloc, store, pass, number)?;
    let shown = history_shown(alloc, &keys, number, key);
    drop(keys);
    let reply = shown?;
    Ok(Answer { number, reply })
}
