//! All versions of the keys that begin with a prefix, read off runs.

ghost use Rattle.std.specs.Prelude.{◌≡◌, ◌<◌, ◌++◌, List, All, filter, nat_le, take, IfOk, OnOk};
ghost use Rattle.std.specs.List.Sorted.{IsSorted};
ghost use Rattle.im_model.specs.declared.transactions.Transaction.{Transaction};
ghost use Rattle.im_versions.specs.declared.versions.Version.{Version as TheVersion};
ghost use Rattle.im_versions.specs.Changes.{AreChanges};
ghost use Rattle.im_index.specs.Indexed.{AreRunsOf};
ghost use Rattle.im_index.specs.Marks.{numbered};

use crate::blocks::is_within;
use crate::run::Run;
use crate::search::begun;
use crate::shared::Shared;
use crate::steps::Steps;
use im_versions::versions::{Version, Versions};
use std::alloc::{AllocError, Global};
use std::marker::Brand;
use std::sync::ledger::{Blank, Ledger};

// Puts copies of those of the versions behind others that are of the first `n` transactions.
fn copy_within(
    alloc: Global,
    copies: &mut Vec<Version>,
    versions: &[Shared],
    n: u64,
) -> Result<(), AllocError>
    ensures { OnOk result (copies.new.items ≡ copies.old.items ++ filter (λ v. nat_le v.tx n) versions.now) }
{
    for shared in versions {
        if is_within(shared, n) {
            copies.push(shared.version().try_clone(alloc)?)?;
        }
    }
    Ok(())
}

// Copies of the versions of the keys that begin with a prefix, among the first `n` transactions, run by run from the oldest
// on, with a count of steps that nobody reads.
fn changes_counted<L: Ledger>(
    alloc: Global,
    runs: &[Run],
    prefix: &[u8],
    n: u64,
    blank: Blank,
) -> Result<Versions, AllocError>
    requires name { blank.name ≡ L.name }
    requires parts { blank.parts ≡ L.parts }
    requires some { 0 < blank.parts }
    requires sorted { All (IsSorted numbered) runs.now }
    requires counted { All (λ r. All (λ (v : TheVersion). 0 < v.tx) r) runs.now }
    ensures { (history : List Transaction) → AreRunsOf runs.now history → IfOk result (AreChanges (take n history) prefix.now) }
{
    let mut steps = Steps::<L>::new(blank);
    let mut copies = Vec::new(alloc);
    for run in runs {
        copy_within(
            alloc,
            &mut copies,
            begun(run.as_slice(), prefix, &mut steps),
            n,
        )?;
    }
    Ok(Versions::from_vec(copies))
}

// Copies of the versions of the keys that begin with a prefix, among the first `n` transactions, run by run from the oldest
// on. It looks at the versions in the runs whose keys begin with it, and at the one behind them in each run.
pub(crate) fn changes(
    alloc: Global,
    runs: &[Run],
    prefix: &[u8],
    n: u64,
) -> Result<Versions, AllocError>
    requires sorted { All (IsSorted numbered) runs.now }
    requires counted { All (λ r. All (λ (v : TheVersion). 0 < v.tx) r) runs.now }
    ensures { (history : List Transaction) → AreRunsOf runs.now history → IfOk result (AreChanges (take n history) prefix.now) }
{
    changes_counted::<Brand>(alloc, runs, prefix, n, Blank::new(1))
}
