//! Placed transactions, and an index of the keys of the first of them.

ghost use Rattle.std.specs.Prelude.{◌≡◌};

use crate::last::{Last, last_in, last_of};
use im_index::index::Index;
use im_index::steps::Steps;
use im_model::transactions::Transaction;
use std::alloc::{AllocError, Global};
use std::marker::Model;
use std::sync::ledger::Ledger;

/// Placed transactions, with an index of their keys that may lag: it has those of the first so many. A clause sees the
/// transactions, that number, and how many transactions more there is room for.
///
/// # Invariants
///
/// `IsKeyed`, at all times: the index is that of the first transactions, without their values.
#[derive(Drop)]
pub(crate) struct KeyedList {
    transactions: Vec<Transaction>,
    keys: Index,
}

impl Model for KeyedList {
    ghost use Rattle.std.specs.Prelude.{◌-◌, vec_capacity, vec_len};
    ghost use Rattle.im_book.specs.Keyed.{IsKeyed, Keyed};

    ghost Value = { Keyed };

    ghost view = { λ s. record {
      transactions = s.transactions.items;
      keyed = s.keys.taken;
      room = vec_capacity s.transactions - vec_len s.transactions;
    } };

    ghost invariant = { λ s. IsKeyed s.keys s.transactions.items };
}

impl KeyedList {
    ghost use Rattle.std.specs.Prelude.{◌≡◌, ◌≤◌, ◌+◌, ◌*◌, ℕ, [], ◌∷◌, ◌++◌, true, false, length, not, MatchOption, OnErr, OnOk};
    ghost use Rattle.im_versions.specs.Versions.{all_versions, is_live, last_number};
    ghost use Rattle.im_index.specs.Runs.{HasDigits};

    /// These transactions, of which the index has none. It takes no memory, and they aren't copied.
    pub(crate) fn new(alloc: Global, transactions: Vec<Transaction>) -> Self
        ensures { result.transactions ≡ transactions.items }
    {
        KeyedList {
            transactions,
            keys: Index::new(alloc),
        }
    }

    /// Lends the transactions.
    pub(crate) fn as_slice(&self) -> &[Transaction]
        ensures { result.now ≡ self.now.transactions }
    {
        self.transactions.as_slice()
    }

    /// The number of transactions.
    pub(crate) fn len(&self) -> usize
        ensures { result ≡ length self.now.transactions }
    {
        self.transactions.len()
    }

    // The number of transactions that the index has.
    fn keyed(&self) -> usize
        ensures value { result ≡ self.now.keyed }
        ensures within { result ≤ length self.now.transactions }
    {
        self.keys.taken() as usize
    }

    // Whether the index has all transactions.
    fn has_all(&self) -> bool
        ensures all { result ≡ true → self.now.keyed ≡ length self.now.transactions }
        ensures lags { result ≡ false → self.now.keyed ≡ length self.now.transactions → ⊥ }
    {
        self.keyed() == self.transactions.len()
    }

    /// Takes memory for one transaction more, where there is no room for it. Its only error is want of memory, and
    /// nothing is changed then.
    pub(crate) fn reserve(&mut self) -> Result<(), AllocError>
        ensures room { OnOk result (1 ≤ self.new.room) }
        ensures same { (self.new.transactions ≡ self.old.transactions) × (self.new.keyed ≡ self.old.keyed) }
        ensures left { OnErr result (self.new ≡ self.old) }
    {
        self.transactions.reserve(1)
    }

    /// Takes a transaction behind the others, into the room that there is for it. The index lags by it.
    pub(crate) fn push(&mut self, tx: Transaction)
        requires room { 1 ≤ self.old.room }
        ensures grown { self.new.transactions ≡ self.old.transactions ++ tx ∷ [] }
        ensures keyed { self.new.keyed ≡ self.old.keyed }
    {
        self.transactions.push_reserved(tx);
    }

    /// Brings the index to the last transaction. Its only error is want of memory, and nothing is changed then.
    pub(crate) fn catch_up(&mut self, alloc: Global) -> Result<(), AllocError>
        requires few { length self.old.transactions ≤ 1048576 }
        ensures same { (self.new.transactions ≡ self.old.transactions) × (self.new.room ≡ self.old.room) }
        ensures keyed { OnOk result (self.new.keyed ≡ length self.new.transactions) }
        ensures left { OnErr result (self.new ≡ self.old) }
    {
        let start = self.keyed();
        self.keys.take_keys(alloc, &self.transactions[start..])?;
        Ok(())
    }

    /// The last version of a key, or `None` where it has none. Where the index has all transactions it is looked up
    /// there, and each comparison of keys is counted; else it is read off them, from the last one back.
    pub(crate) fn last<L: Ledger>(&self, key: &[u8], steps: &mut Steps<L>) -> Option<Last>
        ensures number { MatchOption result (last_number self.now.transactions key.now ≡ 0) (λ last. last_number self.now.transactions key.now ≡ last.tx) }
        ensures live { MatchOption result (is_live self.now.transactions key.now ≡ false) (λ last. is_live self.now.transactions key.now ≡ not last.deleted) }
        ensures cost { self.now.keyed ≡ length self.now.transactions → (b : ℕ) → HasDigits b (length (all_versions self.now.transactions))
            → steps.new ≤ steps.old + b * (b + 1) }
    {
        if self.has_all() {
            return last_in(&self.keys, key, steps);
        }
        last_of(self.transactions.as_slice(), key)
    }
}
