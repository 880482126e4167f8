use crate::entries::versions_in;
use crate::reads;
use im_model::transactions::Transaction;
use im_versions::errors::ViewError;
use im_versions::versions::{Version, Versions};
use im_versions::view::KvView;
use std::alloc::{AllocError, Global};
use std::marker::Model;

/// The index as one list: the versions of a history's keys, in the order of its transactions, with copies of their
/// keys and values. It tells what `Index` of im_index tells, under the same contract, and is what that one is read against. A
/// clause sees the versions, and the number of transactions.
///
/// What a read costs: `get` and `versions` find the versions of the first `n` transactions by halving, then
/// `get` looks at them from the last one back to the last one of its key, and `versions` at each. `scan` looks at
/// each too, and puts those of keys with its prefix into a map. Only what is answered is copied.
///
/// # Thread safety
///
/// None of its own: one owner calls `take`. Reads take `&self` and change nothing, and what `snapshot` gives shares
/// nothing with the index.
///
/// # Invariants
///
/// `IsListOf`: the versions and the number of transactions are those of one history. `new` begins with that of the
/// empty one, `take` goes on to the next, and its error leaves the index as it was.
#[derive(Drop)]
pub struct PlainIndex {
    versions: Vec<Version>,
    taken: u64,
}

impl Model for PlainIndex {
    ghost use Rattle.im_plain.specs.Listed.{Listed};

    ghost Value = { Listed };

    ghost view = { λ s. record { versions = s.versions.items; taken = s.taken } };
}

impl PlainIndex {
    ghost use Rattle.std.specs.Prelude.{◌≡◌, ◌<◌, ◌≤◌, List, [], ◌∷◌, ◌++◌, take, IfOk, OnOk, OnErr};
    ghost use Rattle.im_model.specs.declared.transactions.Transaction.{Transaction};
    ghost use Rattle.im_plain.specs.Listed.{IsListOf};

    /// The index of the empty history. It takes no memory.
    pub fn new(alloc: Global) -> Self
        ensures { IsListOf result [] }
    {
        PlainIndex {
            versions: Vec::new(alloc),
            taken: 0,
        }
    }

    /// The number of transactions that were taken.
    pub fn taken(&self) -> u64
        ensures { result ≡ self.now.taken }
    {
        self.taken
    }

    /// Takes the next transaction. It copies the key and the value of each of its entries that isn't hidden. Its
    /// only error is want of memory, and leaves the index as it was.
    pub fn take(&mut self, alloc: Global, tx: &Transaction) -> Result<(), AllocError>
        requires room { self.old.taken < 1048576 }
        ensures taken { (history : List Transaction) → IsListOf self.old history → OnOk result (IsListOf self.new (history ++ tx.now ∷ [])) }
        ensures left { OnErr result (self.new ≡ self.old) }
    {
        let mut versions = versions_in(alloc, self.taken + 1, tx.entries.as_slice())?;
        self.versions.append(&mut versions)?;
        self.taken += 1;
        Ok(())
    }

    /// What stands after the first `n` transactions, as a value of the caller's own, whatever is taken later. It
    /// copies their versions. Its only error is want of memory.
    pub fn snapshot(&self, alloc: Global, n: u64) -> Result<PlainIndex, AllocError>
        requires { n ≤ self.now.taken }
        ensures { (history : List Transaction) → IsListOf self.now history → IfOk result (λ snapshot. IsListOf snapshot (take n history)) }
    {
        let versions = reads::copy_of(alloc, reads::up_to(&self.versions, n))?;
        Ok(PlainIndex { versions, taken: n })
    }
}

impl KvView for PlainIndex {
    ghost use Rattle.im_plain.specs.Listed.{IsListOf};

    ghost stands = { IsListOf };

    fn get(&self, alloc: Global, key: &[u8], n: u64) -> Result<Option<Version>, ViewError> {
        Ok(reads::last(alloc, reads::up_to(&self.versions, n), key)?)
    }

    fn scan(&self, alloc: Global, prefix: &[u8], n: u64) -> Result<Versions, ViewError> {
        Ok(reads::scan(alloc, reads::up_to(&self.versions, n), prefix)?)
    }

    fn versions(&self, alloc: Global, key: &[u8], n: u64) -> Result<Versions, ViewError> {
        Ok(reads::of_key(alloc, reads::up_to(&self.versions, n), key)?)
    }
}
