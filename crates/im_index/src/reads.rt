//! What is read off runs. A call that counts its steps has a twin that counts nothing.

ghost use Rattle.std.specs.Prelude.{◌≡◌, ◌≤◌, ◌<◌, ◌+◌, ◌*◌, ◌++◌, ℕ, List, All, IsTrue, true, filter, length, map, nat_le, take, IfOk, OnOk};
ghost use Rattle.std.specs.List.{last_or, flat_map};
ghost use Rattle.std.specs.List.Sorted.{IsSorted};
ghost use Rattle.im_model.specs.declared.transactions.Transaction.{Transaction};
ghost use Rattle.im_versions.specs.Versions.{begins_with, is_of, IsScan};
ghost use Rattle.im_versions.specs.declared.versions.Version.{Version as TheVersion};
ghost use Rattle.im_index.specs.Indexed.{AreRunsOf};
ghost use Rattle.im_index.specs.Marks.{numbered, found};
ghost use Rattle.im_index.specs.Newest.{HasNewest};
ghost use Rattle.im_index.specs.Runs.{HasDigits};

use crate::blocks::{block_len, block_upto};
use crate::maps::{copies_of, live_of, put};
use crate::run::Run;
use crate::search::{begun, last, of_key};
use crate::shared::Shared;
use crate::steps::Steps;
use im_versions::versions::{Version, Versions};
use std::alloc::{AllocError, Global};
use std::collections::BTreeMap;
use std::marker::Brand;
use std::sync::ledger::{Blank, Ledger};

// The last version of a key in all runs, among the first `n` transactions, with its steps counted. Only it is
// copied.
pub(crate) fn get_steps<L: Ledger>(
    alloc: Global,
    runs: &[Run],
    key: &[u8],
    n: u64,
    steps: &mut Steps<L>,
) -> Result<Option<Version>, AllocError>
    requires { All (IsSorted numbered) runs.now }
    ensures last { IfOk result (λ version. version ≡ last_or None (found key.now n (flat_map (λ r. r) runs.now))) }
    ensures cost { (b : ℕ) → All (λ r. HasDigits b (length r)) runs.now → steps.new ≤ steps.old + length runs.now * (b + 1) }
{
    match last(runs, key, n, steps) {
        Some(version) => Ok(Some(version.try_clone(alloc)?)),
        None => Ok(None),
    }
}

// The same, with a count that nobody reads.
fn get_counted<L: Ledger>(
    alloc: Global,
    runs: &[Run],
    key: &[u8],
    n: u64,
    blank: Blank,
) -> Result<Option<Version>, AllocError>
    requires name { blank.name ≡ L.name }
    requires parts { blank.parts ≡ L.parts }
    requires some { 0 < blank.parts }
    requires sorted { All (IsSorted numbered) runs.now }
    ensures { IfOk result (λ version. version ≡ last_or None (found key.now n (flat_map (λ r. r) runs.now))) }
{
    get_steps(alloc, runs, key, n, &mut Steps::<L>::new(blank))
}

// The last version of a key in all runs, among the first `n` transactions.
pub(crate) fn get(
    alloc: Global,
    runs: &[Run],
    key: &[u8],
    n: u64,
) -> Result<Option<Version>, AllocError>
    requires { All (IsSorted numbered) runs.now }
    ensures { IfOk result (λ version. version ≡ last_or None (found key.now n (flat_map (λ r. r) runs.now))) }
{
    get_counted::<Brand>(alloc, runs, key, n, Blank::new(1))
}

// Puts copies of versions behind others.
fn copy_behind(
    alloc: Global,
    copies: &mut Vec<Version>,
    versions: &[Shared],
) -> Result<(), AllocError>
    ensures { OnOk result (copies.new.items ≡ copies.old.items ++ versions.now) }
{
    for shared in versions {
        copies.push(shared.version().try_clone(alloc)?)?;
    }
    Ok(())
}

// Copies of the versions of a key in all runs, among the first `n` transactions, oldest first, with the steps
// counted. It looks for the first and for the last of them in each run.
pub(crate) fn versions_steps<L: Ledger>(
    alloc: Global,
    runs: &[Run],
    key: &[u8],
    n: u64,
    steps: &mut Steps<L>,
) -> Result<Versions, AllocError>
    requires sorted { All (IsSorted numbered) runs.now }
    requires counted { All (λ r. All (λ (v : TheVersion). 0 < v.tx) r) runs.now }
    ensures versions { IfOk result (λ versions. versions ≡ found key.now n (flat_map (λ r. r) runs.now)) }
    ensures cost { (b : ℕ) → All (λ r. HasDigits b (length r)) runs.now → steps.new ≤ steps.old + length runs.now * (2 * b) }
{
    let mut copies = Vec::new(alloc);
    for run in runs {
        copy_behind(alloc, &mut copies, of_key(run.as_slice(), key, n, steps))?;
    }
    Ok(Versions::from_vec(copies))
}

// The same, with a count that nobody reads.
fn versions_counted<L: Ledger>(
    alloc: Global,
    runs: &[Run],
    key: &[u8],
    n: u64,
    blank: Blank,
) -> Result<Versions, AllocError>
    requires name { blank.name ≡ L.name }
    requires parts { blank.parts ≡ L.parts }
    requires some { 0 < blank.parts }
    requires sorted { All (IsSorted numbered) runs.now }
    requires counted { All (λ r. All (λ (v : TheVersion). 0 < v.tx) r) runs.now }
    ensures { IfOk result (λ versions. versions ≡ found key.now n (flat_map (λ r. r) runs.now)) }
{
    versions_steps(alloc, runs, key, n, &mut Steps::<L>::new(blank))
}

// Copies of the versions of a key in all runs, among the first `n` transactions, oldest first.
pub(crate) fn versions(
    alloc: Global,
    runs: &[Run],
    key: &[u8],
    n: u64,
) -> Result<Versions, AllocError>
    requires sorted { All (IsSorted numbered) runs.now }
    requires counted { All (λ r. All (λ (v : TheVersion). 0 < v.tx) r) runs.now }
    ensures { IfOk result (λ versions. versions ≡ found key.now n (flat_map (λ r. r) runs.now)) }
{
    versions_counted::<Brand>(alloc, runs, key, n, Blank::new(1))
}

// Puts the last version of a block that is of the first `n` transactions into a map, in the place of an earlier one of its
// key.
fn put_block<'v>(
    newest: &mut BTreeMap<&'v [u8], &'v Version>,
    block: &'v [Shared],
    n: u64,
) -> Result<(), AllocError>
    requires sorted { IsSorted numbered block.now }
    requires some { 0 < length block.now }
    requires own { (key : List ℕ) × All (λ v. is_of key v ≡ true) block.now }
    ensures { (before : List TheVersion) (prefix : List ℕ) → HasNewest before prefix newest.old → All (λ v. IsTrue (begins_with prefix v.key)) block.now
        → OnOk result (HasNewest (before ++ filter (λ v. nat_le v.tx n) block.now) prefix newest.new) }
{
    match block_upto(block, n).split_last() {
        None => Ok(()),
        Some((last, _)) => {
            let version = last.version();
            put(newest, version.key.as_slice(), version)
        }
    }
}

// Puts the last version of each key among these that is of the first `n` transactions into a map, in the place of an
// earlier one of its key. It passes over the others of a key by what the first says of them, and by doubling and halving where that isn't so.
fn put_last<'v>(
    newest: &mut BTreeMap<&'v [u8], &'v Version>,
    versions: &'v [Shared],
    n: u64,
) -> Result<(), AllocError>
    requires { IsSorted numbered versions.now }
    ensures { (before : List TheVersion) (prefix : List ℕ) → HasNewest before prefix newest.old → All (λ v. IsTrue (begins_with prefix v.key)) versions.now
        → OnOk result (HasNewest (before ++ filter (λ v. nat_le v.tx n) versions.now) prefix newest.new) }
{
    let mut at = 0;
    'passing: while at < versions.len() {
        let first = versions[at].version();
        let count = block_len(&versions[at..], first.key.as_slice());
        put_block(newest, &versions[at..at + count], n)?;
        at += count;
    }
    Ok(())
}

// The last versions of the live keys that begin with a prefix, after the first `n` transactions, in rising order, lent, with
// the steps counted. In each run it compares the first version of each key that begins with it, and the
// version behind these keys.
pub(crate) fn scan_steps<'r, L: Ledger>(
    alloc: Global,
    runs: &'r [Run],
    prefix: &[u8],
    n: u64,
    steps: &mut Steps<L>,
) -> Result<Vec<&'r Version>, AllocError>
    requires sorted { All (IsSorted numbered) runs.now }
    requires counted { All (λ r. All (λ (v : TheVersion). 0 < v.tx) r) runs.now }
    ensures scan { (history : List Transaction) → AreRunsOf runs.now history → IfOk result (λ shown. IsScan (take n history) prefix.now (map (λ v. v.now) shown.items)) }
    ensures cost { (b : ℕ) → All (λ r. HasDigits b (length r)) runs.now
        → steps.new ≤ steps.old + length runs.now * (b + 1) + length (filter (λ v. begins_with prefix.now v.key) (flat_map (λ r. r) runs.now)) }
{
    let mut newest = BTreeMap::new(alloc);
    for run in runs {
        put_last(&mut newest, begun(run.as_slice(), prefix, steps), n)?;
    }
    live_of(alloc, &newest)
}

// The same, with a count that nobody reads.
fn scan_counted<'r, L: Ledger>(
    alloc: Global,
    runs: &'r [Run],
    prefix: &[u8],
    n: u64,
    blank: Blank,
) -> Result<Vec<&'r Version>, AllocError>
    requires name { blank.name ≡ L.name }
    requires parts { blank.parts ≡ L.parts }
    requires some { 0 < blank.parts }
    requires sorted { All (IsSorted numbered) runs.now }
    requires counted { All (λ r. All (λ (v : TheVersion). 0 < v.tx) r) runs.now }
    ensures { (history : List Transaction) → AreRunsOf runs.now history → IfOk result (λ shown. IsScan (take n history) prefix.now (map (λ v. v.now) shown.items)) }
{
    scan_steps(alloc, runs, prefix, n, &mut Steps::<L>::new(blank))
}

// The last versions of the live keys that begin with a prefix, after the first `n` transactions, in rising order, lent.
pub(crate) fn scan_lent<'r>(
    alloc: Global,
    runs: &'r [Run],
    prefix: &[u8],
    n: u64,
) -> Result<Vec<&'r Version>, AllocError>
    requires sorted { All (IsSorted numbered) runs.now }
    requires counted { All (λ r. All (λ (v : TheVersion). 0 < v.tx) r) runs.now }
    ensures { (history : List Transaction) → AreRunsOf runs.now history → IfOk result (λ shown. IsScan (take n history) prefix.now (map (λ v. v.now) shown.items)) }
{
    scan_counted::<Brand>(alloc, runs, prefix, n, Blank::new(1))
}

// Copies of the last versions of the live keys that begin with a prefix, after the first `n` transactions, in
// rising order.
pub(crate) fn scan(
    alloc: Global,
    runs: &[Run],
    prefix: &[u8],
    n: u64,
) -> Result<Versions, AllocError>
    requires sorted { All (IsSorted numbered) runs.now }
    requires counted { All (λ r. All (λ (v : TheVersion). 0 < v.tx) r) runs.now }
    ensures { (history : List Transaction) → AreRunsOf runs.now history → IfOk result (λ shown. IsScan (take n history) prefix.now shown) }
{
    copies_of(alloc, scan_lent(alloc, runs, prefix, n)?.as_slice())
}
