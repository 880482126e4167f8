use crate::maps::copies_of;
use crate::run::Run;
use crate::steps::Steps;
use crate::{changes, reads};
use im_versions::changes::ChangesView;
use im_versions::errors::ViewError;
use im_versions::versions::{Version, Versions};
use im_versions::view::KvView;
use std::alloc::Global;
use std::marker::Model;
use std::sync::ledger::Ledger;

/// What stands after some transactions of a history: a value of the caller's own, which later transactions
/// don't change. A clause sees the runs that it shares, and the number of transactions.
///
/// What a read costs, where the runs hold a number of versions with b binary digits: `get` compares at most
/// b * (b + 1) keys, `versions` at most 2 * b * b, and it copies the versions that it tells. `scan` compares the prefix
/// with at most b * (b + 1) keys and one more for each version in the runs whose key begins with it. In fact it compares
/// it with one version of each key in each run, whose run says how many more follow, and passes over these, twice, by comparing
/// the last of them and the one behind them with it; of each run the last version of each key among the first n
/// transactions is put into a map. `scan` copies the versions that it tells, and `scan_lent` lends them. `changes` finds the versions likewise, and looks at the number of each. Versions of
/// transactions behind the snapshot's are among those that the runs hold.
///
/// # Thread safety
///
/// It shares runs with the index that it was taken of, and no call changes a run, so that reads need no lock.
///
/// # Invariants
///
/// `IsSnapshotOf`, of the first transactions of the index's history, as `Index::snapshot` gives it.
#[derive(Drop)]
pub struct Snapshot {
    runs: Vec<Run>,
    taken: u64,
}

impl Model for Snapshot {
    ghost use Rattle.im_index.specs.Indexed.{Indexed};

    ghost Value = { Indexed };

    ghost view = { λ s. record { runs = s.runs.items; taken = s.taken } };
}

impl Snapshot {
    ghost use Rattle.std.specs.Prelude.{◌≡◌, ◌≤◌, ◌+◌, ◌*◌, ℕ, List, filter, length, map, take, IfOk};
    ghost use Rattle.std.specs.List.{flat_map};
    ghost use Rattle.im_model.specs.declared.transactions.Transaction.{Transaction};
    ghost use Rattle.im_versions.specs.Versions.{begins_with, last_version, versions_of, IsScan};
    ghost use Rattle.im_index.specs.Indexed.{IsSnapshotOf};
    ghost use Rattle.im_index.specs.Runs.{HasDigits, held};

    // A snapshot of so many transactions over these runs.
    pub(crate) fn over(runs: Vec<Run>, taken: u64) -> Self
        ensures { result ≡ record { runs = runs.items; taken = taken } }
    {
        Snapshot { runs, taken }
    }

    /// The number of transactions that it stands for.
    pub fn taken(&self) -> u64
        ensures { result ≡ self.now.taken }
    {
        self.taken
    }

    /// Answers as `get`, and counts the comparisons of keys: with b the number of binary digits of the number of
    /// versions that the runs hold, at most b * (b + 1). Its only error is want of memory.
    pub fn get_steps<L: Ledger>(
        &self,
        alloc: Global,
        key: &[u8],
        n: u64,
        steps: &mut Steps<L>,
    ) -> Result<Option<Version>, ViewError>
        requires { (history : List Transaction) × IsSnapshotOf self.now history × (n ≤ length history) }
        ensures value { (history : List Transaction) → IsSnapshotOf self.now history → n ≤ length history
            → IfOk result (λ version. version ≡ last_version (take n history) key.now) }
        ensures cost { (b : ℕ) → HasDigits b (held self.now.runs) → steps.new ≤ steps.old + b * (b + 1) }
    {
        Ok(reads::get_steps(alloc, &self.runs, key, n, steps)?)
    }

    /// Answers as `versions`, and counts the comparisons of keys: with b the number of binary digits of the number
    /// of versions that the runs hold, at most 2 * b * b. Its only error is want of memory.
    pub fn versions_steps<L: Ledger>(
        &self,
        alloc: Global,
        key: &[u8],
        n: u64,
        steps: &mut Steps<L>,
    ) -> Result<Versions, ViewError>
        requires { (history : List Transaction) × IsSnapshotOf self.now history × (n ≤ length history) }
        ensures value { (history : List Transaction) → IsSnapshotOf self.now history → n ≤ length history
            → IfOk result (λ versions. versions ≡ versions_of (take n history) key.now) }
        ensures cost { (b : ℕ) → HasDigits b (held self.now.runs) → steps.new ≤ steps.old + b * (2 * b) }
    {
        Ok(reads::versions_steps(alloc, &self.runs, key, n, steps)?)
    }

    /// Answers as `scan`, and counts the comparisons with the prefix, not those of keys with each other: with b the
    /// number of binary digits of the number of versions that the runs hold, at most b * (b + 1), and one for each
    /// version in the runs whose key begins with the prefix. Its only error is want of memory.
    pub fn scan_steps<L: Ledger>(
        &self,
        alloc: Global,
        prefix: &[u8],
        n: u64,
        steps: &mut Steps<L>,
    ) -> Result<Versions, ViewError>
        requires { (history : List Transaction) × IsSnapshotOf self.now history × (n ≤ length history) }
        ensures value { (history : List Transaction) → IsSnapshotOf self.now history → n ≤ length history
            → IfOk result (λ shown. IsScan (take n history) prefix.now shown) }
        ensures cost { (b : ℕ) → HasDigits b (held self.now.runs)
            → steps.new ≤ steps.old + b * (b + 1) + length (filter (λ v. begins_with prefix.now v.key) (flat_map (λ r. r) self.now.runs)) }
    {
        let shown = reads::scan_steps(alloc, &self.runs, prefix, n, steps)?;
        Ok(copies_of(alloc, shown.as_slice())?)
    }

    /// Answers as `scan`, and lends the versions that it tells. Its only error is want of memory.
    pub fn scan_lent(
        &self,
        alloc: Global,
        prefix: &[u8],
        n: u64,
    ) -> Result<Vec<&Version>, ViewError>
        requires { (history : List Transaction) × IsSnapshotOf self.now history × (n ≤ length history) }
        ensures { (history : List Transaction) → IsSnapshotOf self.now history → n ≤ length history
            → IfOk result (λ shown. IsScan (take n history) prefix.now (map (λ v. v.now) shown.items)) }
    {
        Ok(reads::scan_lent(alloc, &self.runs, prefix, n)?)
    }
}

impl KvView for Snapshot {
    ghost use Rattle.im_index.specs.Indexed.{IsSnapshotOf};

    ghost stands = { IsSnapshotOf };

    fn get(&self, alloc: Global, key: &[u8], n: u64) -> Result<Option<Version>, ViewError> {
        Ok(reads::get(alloc, &self.runs, key, n)?)
    }

    fn scan(&self, alloc: Global, prefix: &[u8], n: u64) -> Result<Versions, ViewError> {
        Ok(reads::scan(alloc, &self.runs, prefix, n)?)
    }

    fn versions(&self, alloc: Global, key: &[u8], n: u64) -> Result<Versions, ViewError> {
        Ok(reads::versions(alloc, &self.runs, key, n)?)
    }
}

impl ChangesView for Snapshot {
    fn changes(&self, alloc: Global, prefix: &[u8], n: u64) -> Result<Versions, ViewError> {
        Ok(changes::changes(alloc, &self.runs, prefix, n)?)
    }
}
