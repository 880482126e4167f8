//! Places in a run, found by halving: how far the versions stand that are at most at a key and number.

ghost use Rattle.std.specs.Prelude.{◌≡◌, ◌≤◌, ◌<◌, ◌+◌, ◌-◌, ◌*◌, ℕ, true, false, None, All, filter, length, slice_index_or};
ghost use Rattle.std.specs.List.{last_or, flat_map, AllWithin};
ghost use Rattle.std.specs.List.Sorted.{IsSorted, IsPartitionPoint};
ghost use Rattle.std.specs.Option.{option_map};
ghost use Rattle.im_versions.specs.Versions.{begins_with};
ghost use Rattle.im_versions.specs.declared.versions.Version.{Version as TheVersion};
ghost use Rattle.im_index.specs.Marks.{numbered, is_upto, found};
ghost use Rattle.im_index.specs.Runs.{HasDigits};

use crate::blocks::block_len;
use crate::run::Run;
use crate::shared::Shared;
use crate::steps::Steps;
use crate::steps::sought::Sought;
use im_versions::versions::Version;
use std::sync::ledger::Ledger;

// How many versions of a run stand at most at this key and number: those in front. It halves what is left at each
// version that it compares, so that it takes at most as many steps as the run's length has binary digits.
fn place<L: Ledger>(run: &[Shared], key: &Sought<'_>, n: u64, steps: &mut Steps<L>) -> usize
    requires { IsSorted numbered run.now }
    ensures within { result ≤ length run.now }
    ensures parted { IsPartitionPoint (λ v. is_upto key.now n v ≡ true) (λ v. is_upto key.now n v ≡ false) run.now result }
    ensures counted { steps.old ≤ steps.new }
    ensures cost { (b : ℕ) → HasDigits b (length run.now) → steps.new ≤ steps.old + b }
{
    let mut low = 0;
    let mut high = run.len();
    'halving: while low < high {
        let middle = low + (high - low) / 2;
        if key.is_upto(run[middle].version(), n, steps) {
            low = middle + 1;
        } else {
            high = middle;
        }
    }
    low
}

// The last version of a key in a run, among the first `n` transactions. It is the last one that stands at most at
// this key and number, unless that one is of another key: one more comparison.
fn last_in<'r, L: Ledger>(
    run: &'r [Shared],
    key: &Sought<'_>,
    n: u64,
    steps: &mut Steps<L>,
) -> Option<&'r Version>
    requires { IsSorted numbered run.now }
    ensures last { option_map (λ v. v.now) result ≡ last_or None (found key.now n run.now) }
    ensures cost { (b : ℕ) → HasDigits b (length run.now) → steps.new ≤ steps.old + (b + 1) }
{
    let end = place(run, key, n, steps);
    if end == 0 {
        return None;
    }
    let at = end - 1;
    let last = run[at].version();
    if key.is_of(last, steps) {
        return Some(last);
    }
    None
}

// The last version of a key in all runs, among the first `n` transactions: in the newest run that has one.
fn last_of<'r, L: Ledger>(
    runs: &'r [Run],
    key: &Sought<'_>,
    n: u64,
    steps: &mut Steps<L>,
) -> Option<&'r Version>
    requires { All (IsSorted numbered) runs.now }
    ensures last { option_map (λ v. v.now) result ≡ last_or None (found key.now n (flat_map (λ r. r) runs.now)) }
    ensures cost { (b : ℕ) → All (λ r. HasDigits b (length r)) runs.now → steps.new ≤ steps.old + length runs.now * (b + 1) }
{
    let mut older = runs;
    while let Some((run, before)) = older.split_last() {
        if let Some(version) = last_in(run.as_slice(), key, n, steps) {
            return Some(version);
        }
        older = before;
    }
    None
}

// Where the versions of a key stand in a run that are of the first `n` transactions: behind the place of number 0, which
// no version has, and in front of that of `n`.
fn span<L: Ledger>(run: &[Shared], key: &Sought<'_>, n: u64, steps: &mut Steps<L>) -> (usize, usize)
    requires { IsSorted numbered run.now }
    ensures order { result.0 ≤ result.1 }
    ensures within { result.1 ≤ length run.now }
    ensures first { IsPartitionPoint (λ v. is_upto key.now 0 v ≡ true) (λ v. is_upto key.now 0 v ≡ false) run.now result.0 }
    ensures last { IsPartitionPoint (λ v. is_upto key.now n v ≡ true) (λ v. is_upto key.now n v ≡ false) run.now result.1 }
    ensures cost { (b : ℕ) → HasDigits b (length run.now) → steps.new ≤ steps.old + 2 * b }
{
    let from = place(run, key, 0, steps);
    let to = place(run, key, n, steps);
    (from, to)
}

// The versions of a key in a run, among the first `n` transactions. They stand beside each other, and no version
// has number 0.
fn all_of<'r, L: Ledger>(
    run: &'r [Shared],
    key: &Sought<'_>,
    n: u64,
    steps: &mut Steps<L>,
) -> &'r [Shared]
    requires sorted { IsSorted numbered run.now }
    requires counted { All (λ v. 0 < v.tx) run.now }
    ensures versions { result.now ≡ found key.now n run.now }
    ensures cost { (b : ℕ) → HasDigits b (length run.now) → steps.new ≤ steps.old + 2 * b }
{
    let (from, to) = span(run, key, n, steps);
    &run[from..to]
}

// How many versions in front have keys that begin with a prefix. It compares the first one of each key, and the one behind
// them: those of a key have it all or none.
fn count_begun<L: Ledger>(versions: &[Shared], prefix: &Sought<'_>, steps: &mut Steps<L>) -> usize
    requires { IsSorted numbered versions.now }
    ensures within { result ≤ length versions.now }
    ensures front { AllWithin (λ v. begins_with prefix.now v.key ≡ true) versions.now 0 result }
    ensures next { (d : TheVersion) → result < length versions.now → begins_with prefix.now (slice_index_or versions.now result d).key ≡ false }
    ensures cost { steps.new ≤ steps.old + (result + 1) }
{
    let mut at = 0;
    'passing: while at < versions.len() {
        let first = versions[at].version();
        if !prefix.begins(first, steps) {
            return at;
        }
        at += block_len(&versions[at..], first.key.as_slice());
    }
    at
}

// The versions of a run whose keys begin with a prefix. They stand beside each other, and no version has number 0.
fn begun_with<'r, L: Ledger>(
    run: &'r [Shared],
    prefix: &Sought<'_>,
    steps: &mut Steps<L>,
) -> &'r [Shared]
    requires sorted { IsSorted numbered run.now }
    requires counted { All (λ v. 0 < v.tx) run.now }
    ensures sorted { IsSorted numbered result.now }
    ensures versions { result.now ≡ filter (λ v. begins_with prefix.now v.key) run.now }
    ensures cost { (b : ℕ) → HasDigits b (length run.now) → steps.new ≤ steps.old + (b + 1) + length result.now }
{
    let from = place(run, prefix, 0, steps);
    let behind = &run[from..];
    let count = count_begun(behind, prefix, steps);
    &behind[..count]
}

// The last version of a key in all runs, among the first `n` transactions: in the newest run that has one.
pub(crate) fn last<'r, L: Ledger>(
    runs: &'r [Run],
    key: &[u8],
    n: u64,
    steps: &mut Steps<L>,
) -> Option<&'r Version>
    requires { All (IsSorted numbered) runs.now }
    ensures last { option_map (λ v. v.now) result ≡ last_or None (found key.now n (flat_map (λ r. r) runs.now)) }
    ensures cost { (b : ℕ) → All (λ r. HasDigits b (length r)) runs.now → steps.new ≤ steps.old + length runs.now * (b + 1) }
{
    let sought = Sought::new(key);
    last_of(runs, &sought, n, steps)
}

// The versions of a key in a run, among the first `n` transactions.
pub(crate) fn of_key<'r, L: Ledger>(
    run: &'r [Shared],
    key: &[u8],
    n: u64,
    steps: &mut Steps<L>,
) -> &'r [Shared]
    requires sorted { IsSorted numbered run.now }
    requires counted { All (λ v. 0 < v.tx) run.now }
    ensures versions { result.now ≡ found key.now n run.now }
    ensures cost { (b : ℕ) → HasDigits b (length run.now) → steps.new ≤ steps.old + 2 * b }
{
    let sought = Sought::new(key);
    all_of(run, &sought, n, steps)
}

// The versions of a run whose keys begin with a prefix.
pub(crate) fn begun<'r, L: Ledger>(
    run: &'r [Shared],
    prefix: &[u8],
    steps: &mut Steps<L>,
) -> &'r [Shared]
    requires sorted { IsSorted numbered run.now }
    requires counted { All (λ v. 0 < v.tx) run.now }
    ensures sorted { IsSorted numbered result.now }
    ensures versions { result.now ≡ filter (λ v. begins_with prefix.now v.key) run.now }
    ensures cost { (b : ℕ) → HasDigits b (length run.now) → steps.new ≤ steps.old + (b + 1) + length result.now }
{
    let sought = Sought::new(prefix);
    begun_with(run, &sought, steps)
}
