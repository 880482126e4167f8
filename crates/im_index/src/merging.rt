//! Runs that take the versions of further transactions, and are merged while the newest are short.

ghost use Rattle.std.specs.Prelude.{◌≡◌, ◌≤◌, ◌<◌, ◌+◌, List, [], ◌∷◌, ◌++◌, length, IfOk, OnOk};
ghost use Rattle.im_versions.specs.Versions.{versions_from, versions_in};
ghost use Rattle.im_versions.specs.declared.versions.Version.{Version as TheVersion};
ghost use Rattle.im_index.specs.Runs.{IsRunOf, HoldInOrder, AreHalving, lengths, settled, taken_in};

use crate::blocks::hint_all;
use crate::run::Run;
use crate::shared::Shared;
use im_model::entries::Entry;
use im_model::transactions::Transaction;
use im_versions::entries::{is_shown, version_of};
use std::alloc::{AllocError, Global};

// The versions that the entries of transaction `k` are, in their order.
fn versions_in(alloc: Global, k: u64, entries: &[Entry]) -> Result<Vec<Shared>, AllocError>
    ensures { IfOk result (λ versions. versions.items ≡ versions_in k entries.now) }
{
    let mut versions = Vec::with_capacity(alloc, entries.len())?;
    for entry in entries {
        if is_shown(entry) {
            versions.push(Shared::new(alloc, version_of(alloc, k, entry)?)?)?;
        }
    }
    Ok(versions)
}

// The versions that the entries of transactions are, of which the first has number `k`, in their order.
pub(crate) fn versions_from(
    alloc: Global,
    k: u64,
    txs: &[Transaction],
) -> Result<Vec<Shared>, AllocError>
    requires { k + length txs.now ≤ 1048577 }
    ensures { IfOk result (λ versions. versions.items ≡ versions_from k txs.now) }
{
    let mut versions = Vec::new(alloc);
    for (i, tx) in txs.iter().enumerate() {
        let mut added = versions_in(alloc, k + i as u64, tx.entries.as_slice())?;
        versions.append(&mut added)?;
    }
    Ok(versions)
}

// A run of these versions. Where they are two runs one behind the other, the sort finds both and merges them.
fn sorted(alloc: Global, mut versions: Vec<Shared>) -> Result<Run, AllocError>
    ensures { IfOk result (λ run. IsRunOf run versions.items) }
{
    versions.sort_by(Shared::cmp_key)?;
    hint_all(&mut versions);
    Run::of(alloc, versions)
}

// Puts the versions of a run behind others. Their contents are shared.
fn share_behind(versions: &mut Vec<Shared>, run: &[Shared]) -> Result<(), AllocError>
    ensures { OnOk result (versions.new.items ≡ versions.old.items ++ run.now) }
{
    for version in run {
        versions.push(version.share()?)?;
    }
    Ok(())
}

// One run of what an older and a newer one hold.
fn merged(alloc: Global, older: &Run, newer: &Run) -> Result<Run, AllocError>
    ensures { IfOk result (λ run. IsRunOf run (older.now ++ newer.now)) }
{
    let mut versions = Vec::new(alloc);
    share_behind(&mut versions, older.as_slice())?;
    share_behind(&mut versions, newer.as_slice())?;
    sorted(alloc, versions)
}

// Runs, of which the last ones may have become one.
#[derive(Drop)]
struct Settled<'r> {
    older: &'r [Run],
    last: Run,
}

// Merges the last of the runs into the one behind them, while it is shorter than twice that one.
fn settle<'r>(alloc: Global, runs: &'r [Run], newest: Run) -> Result<Settled<'r>, AllocError>
    ensures holds { (versions : List TheVersion) → HoldInOrder (runs.now ++ newest ∷ []) versions
        → IfOk result (λ s. HoldInOrder (s.older.now ++ s.last ∷ []) versions) }
    ensures halving { AreHalving runs.now → 0 < length newest → IfOk result (λ s. AreHalving (s.older.now ++ s.last ∷ [])) }
    ensures lengths { IfOk result (λ s. lengths (s.older.now ++ s.last ∷ []) ≡ settled (length newest) (lengths runs.now)) }
{
    let mut last = newest;
    let mut older = runs;
    while let Some((run, before)) = older.split_last() {
        let is_long = last.len() <= run.len() / 2;
        if is_long {
            return Ok(Settled { older, last });
        }
        let next = merged(alloc, run, &last)?;
        last = next;
        older = before;
    }
    Ok(Settled { older, last })
}

// Each of the runs for one more owner.
pub(crate) fn shares_of(alloc: Global, runs: &[Run]) -> Result<Vec<Run>, AllocError>
    ensures { IfOk result (λ shares. shares.items ≡ runs.now) }
{
    let mut shares = Vec::new(alloc);
    for run in runs {
        shares.push(run.share()?)?;
    }
    Ok(shares)
}

// The runs with one more behind them, merged with the last of them where these are short.
fn with_newest(alloc: Global, runs: &[Run], newest: Run) -> Result<Vec<Run>, AllocError>
    ensures holds { (versions : List TheVersion) → HoldInOrder (runs.now ++ newest ∷ []) versions
        → IfOk result (λ next. HoldInOrder next.items versions) }
    ensures halving { AreHalving runs.now → 0 < length newest → IfOk result (λ next. AreHalving next.items) }
    ensures lengths { IfOk result (λ next. lengths next.items ≡ settled (length newest) (lengths runs.now)) }
{
    let settled = settle(alloc, runs, newest)?;
    let Settled { older, last } = settled;
    let mut next = shares_of(alloc, older)?;
    next.push(last)?;
    Ok(next)
}

// The runs behind transactions of these versions. Its only error is want of memory.
pub(crate) fn with_versions(
    alloc: Global,
    runs: &[Run],
    versions: Vec<Shared>,
) -> Result<Vec<Run>, AllocError>
    ensures holds { (before : List TheVersion) → HoldInOrder runs.now before
        → IfOk result (λ next. HoldInOrder next.items (before ++ versions.items)) }
    ensures halving { AreHalving runs.now → IfOk result (λ next. AreHalving next.items) }
    ensures lengths { IfOk result (λ next. lengths next.items ≡ taken_in (length versions.items) (lengths runs.now)) }
{
    if versions.is_empty() {
        return shares_of(alloc, runs);
    }
    let newest = sorted(alloc, versions)?;
    with_newest(alloc, runs, newest)
}
