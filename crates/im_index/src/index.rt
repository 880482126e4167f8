use crate::keys::keys_from;
use crate::merging::{shares_of, versions_from, with_versions};
use crate::reads;
use crate::run::Run;
use crate::search::last;
use crate::snapshot::Snapshot;
use crate::steps::Steps;
use im_model::transactions::Transaction;
use im_versions::errors::ViewError;
use im_versions::versions::{Version, Versions};
use im_versions::view::KvView;
use std::alloc::{AllocError, Global};
use std::marker::Model;
use std::slice;
use std::sync::ledger::Ledger;

/// The timed index of a history: the versions of its keys in sorted runs, with copies of their keys and values.
/// A clause sees the runs, each as the list of its versions, the oldest first, and the number of transactions.
///
/// What a call costs: `take` and its kin sort the versions that are added, and merge runs as long as the last but
/// one is shorter than twice the last. A merge shares the versions and doesn't copy them. `snapshot` shares the
/// runs, of which there are at most as many as the number of versions has binary digits. A read costs what it costs
/// of a `Snapshot` of all that was taken.
///
/// # Thread safety
///
/// None of its own: one owner calls `take`. Reads take `&self` and change nothing, and a `Snapshot` shares only
/// runs, which no call changes.
///
/// # Invariants
///
/// `IsIndexOf`: the runs hold the versions of one history, each once, newer runs those of later transactions, and
/// none is shorter than twice the one behind it. `new` begins with that of the empty history, `take` goes on to
/// the next, and its error leaves the index as it was.
#[derive(Drop)]
pub struct Index {
    runs: Vec<Run>,
    taken: u64,
}

impl Model for Index {
    ghost use Rattle.im_index.specs.Indexed.{Indexed};

    ghost Value = { Indexed };

    ghost view = { λ s. record { runs = s.runs.items; taken = s.taken } };
}

impl Index {
    ghost use Rattle.std.specs.Prelude.{◌≡◌, ◌<◌, ◌≤◌, ◌+◌, ◌*◌, ℕ, List, [], ◌∷◌, ◌++◌, length, take, IfOk, OnOk, OnErr};
    ghost use Rattle.std.specs.Option.{option_map};
    ghost use Rattle.im_model.specs.declared.transactions.Transaction.{Transaction};
    ghost use Rattle.im_versions.specs.Versions.{all_versions, last_version, versions_from, versions_in};
    ghost use Rattle.im_index.specs.Indexed.{IsIndexOf, IsSnapshotOf};
    ghost use Rattle.im_index.specs.Keys.{bare};
    ghost use Rattle.im_index.specs.Runs.{HasDigits, lengths, taken_in};

    /// The index of the empty history. It takes no memory.
    pub fn new(alloc: Global) -> Self
        ensures { IsIndexOf result [] }
    {
        Index {
            runs: Vec::new(alloc),
            taken: 0,
        }
    }

    /// The index of a history, as `take_all` of all of it behind `new`. Its only error is want of memory.
    pub fn of(alloc: Global, history: &[Transaction]) -> Result<Self, AllocError>
        requires { length history.now ≤ 1048576 }
        ensures { IfOk result (λ index. IsIndexOf index history.now) }
    {
        let mut index = Index::new(alloc);
        index.take_all(alloc, history)?;
        Ok(index)
    }

    /// The number of transactions that were taken.
    pub fn taken(&self) -> u64
        ensures { result ≡ self.now.taken }
    {
        self.taken
    }

    /// The number of runs: at most as many as the number of versions has binary digits.
    pub fn runs(&self) -> u64
        ensures runs { result ≡ length self.now.runs }
        ensures bound { (history : List Transaction) (b : ℕ) → IsIndexOf self.now history → HasDigits b (length (all_versions history))
            → result ≤ b }
    {
        self.runs.len() as u64
    }

    /// Takes the next transaction: one more run of its entries that aren't hidden, where it has some, and then,
    /// while the last run but one is shorter than twice the last, both become one. It copies the key and the
    /// value of each of these entries. Its only error is want of memory, and leaves the index as it was.
    pub fn take(&mut self, alloc: Global, tx: &Transaction) -> Result<(), AllocError>
        requires room { self.old.taken < 1048576 }
        ensures taken { (history : List Transaction) → IsIndexOf self.old history → OnOk result (IsIndexOf self.new (history ++ tx.now ∷ [])) }
        ensures lengths { OnOk result (lengths self.new.runs
            ≡ taken_in (length (versions_in (self.old.taken + 1) tx.now.entries)) (lengths self.old.runs)) }
        ensures left { OnErr result (self.new ≡ self.old) }
    {
        self.take_all(alloc, slice::from_ref(tx))
    }

    /// Takes the next transactions: one more run of all their entries that aren't hidden, where they have some, and
    /// then merges as `take` does. So they are sorted once. It copies the key and the value of each of these entries.
    /// Its only error is want of memory, and leaves the index as it was.
    pub fn take_all(&mut self, alloc: Global, txs: &[Transaction]) -> Result<(), AllocError>
        requires room { self.old.taken + length txs.now ≤ 1048576 }
        ensures taken { (history : List Transaction) → IsIndexOf self.old history → OnOk result (IsIndexOf self.new (history ++ txs.now)) }
        ensures lengths { OnOk result (lengths self.new.runs
            ≡ taken_in (length (versions_from (self.old.taken + 1) txs.now)) (lengths self.old.runs)) }
        ensures left { OnErr result (self.new ≡ self.old) }
    {
        let versions = versions_from(alloc, self.taken + 1, txs)?;
        let runs = with_versions(alloc, &self.runs, versions)?;
        self.runs = runs;
        self.taken += txs.len() as u64;
        Ok(())
    }

    /// Takes the next transactions without the values of their entries: an index of the keys alone. It copies the
    /// key of each entry that isn't hidden. Its only error is want of memory, and leaves the index as it was.
    pub fn take_keys(&mut self, alloc: Global, txs: &[Transaction]) -> Result<(), AllocError>
        requires room { self.old.taken + length txs.now ≤ 1048576 }
        ensures taken { (history : List Transaction) → IsIndexOf self.old history → OnOk result (IsIndexOf self.new (history ++ bare txs.now)) }
        ensures count { OnOk result (self.new.taken ≡ self.old.taken + length txs.now) }
        ensures left { OnErr result (self.new ≡ self.old) }
    {
        let versions = keys_from(alloc, self.taken + 1, txs)?;
        let runs = with_versions(alloc, &self.runs, versions)?;
        self.runs = runs;
        self.taken += txs.len() as u64;
        Ok(())
    }

    /// Lends the last version of a key after all that was taken, a deletion too, or none. It counts the comparisons
    /// of keys: with b the number of binary digits of the number of versions, at most b * (b + 1). It takes no
    /// memory.
    pub fn last_steps<L: Ledger>(&self, key: &[u8], steps: &mut Steps<L>) -> Option<&Version>
        requires { (history : List Transaction) × IsIndexOf self.now history }
        ensures value { (history : List Transaction) → IsIndexOf self.now history
            → option_map (λ v. v.now) result ≡ last_version history key.now }
        ensures cost { (history : List Transaction) (b : ℕ) → IsIndexOf self.now history → HasDigits b (length (all_versions history))
            → steps.new ≤ steps.old + b * (b + 1) }
    {
        last(&self.runs, key, self.taken, steps)
    }

    /// What stands after the first `n` transactions, as a value of the caller's own, whatever is taken later. It
    /// shares the runs, and copies none of their versions. Its only error is want of memory.
    pub fn snapshot(&self, alloc: Global, n: u64) -> Result<Snapshot, AllocError>
        requires { n ≤ self.now.taken }
        ensures history { (history : List Transaction) → IsIndexOf self.now history → IfOk result (λ snapshot. IsSnapshotOf snapshot (take n history)) }
        ensures shared { IfOk result (λ snapshot. snapshot ≡ record { runs = self.now.runs; taken = n }) }
    {
        let runs = shares_of(alloc, &self.runs)?;
        Ok(Snapshot::over(runs, n))
    }
}

impl KvView for Index {
    ghost use Rattle.im_index.specs.Indexed.{IsIndexOf};

    ghost stands = { IsIndexOf };

    fn get(&self, alloc: Global, key: &[u8], n: u64) -> Result<Option<Version>, ViewError> {
        Ok(reads::get(alloc, &self.runs, key, n)?)
    }

    fn scan(&self, alloc: Global, prefix: &[u8], n: u64) -> Result<Versions, ViewError> {
        Ok(reads::scan(alloc, &self.runs, prefix, n)?)
    }

    fn versions(&self, alloc: Global, key: &[u8], n: u64) -> Result<Versions, ViewError> {
        Ok(reads::versions(alloc, &self.runs, key, n)?)
    }
}
