ghost use Rattle.std.specs.Prelude.{◌≡◌, ◌≤◌, List, length, take, IfOk};
ghost use Rattle.im_model.specs.declared.transactions.Transaction.{Transaction};
ghost use Rattle.im_versions.specs.Versions.{last_version, versions_of, IsScan};

use crate::errors::ViewError;
use crate::versions::{Version, Versions};
use std::alloc::Global;

/// A view of the keys of a history: it answers what stood after each number of its transactions. A key is any
/// octet string, and no answer changes the view. What a call looks at is told where the view is made.
pub trait KvView {
    /// The view stands for this history.
    ghost stands: { Self → List Transaction → Type 0 };

    /// The last version of a key after the first `n` transactions, a deletion too, or none. Its only error is
    /// want of memory.
    fn get(&self, alloc: Global, key: &[u8], n: u64) -> Result<Option<Version>, ViewError>
        requires { (history : List Transaction) × stands self.now history × (n ≤ length history) }
        ensures { (history : List Transaction) → stands self.now history → n ≤ length history
            → IfOk result (λ version. version ≡ last_version (take n history) key.now) };

    /// The live keys that begin with a prefix after the first `n` transactions, each as its last version, in
    /// rising order. Its only error is want of memory.
    fn scan(&self, alloc: Global, prefix: &[u8], n: u64) -> Result<Versions, ViewError>
        requires { (history : List Transaction) × stands self.now history × (n ≤ length history) }
        ensures { (history : List Transaction) → stands self.now history → n ≤ length history
            → IfOk result (λ shown. IsScan (take n history) prefix.now shown) };

    /// All versions of a key among the first `n` transactions, oldest first. Its only error is want of memory.
    fn versions(&self, alloc: Global, key: &[u8], n: u64) -> Result<Versions, ViewError>
        requires { (history : List Transaction) × stands self.now history × (n ≤ length history) }
        ensures { (history : List Transaction) → stands self.now history → n ≤ length history
            → IfOk result (λ versions. versions ≡ versions_of (take n history) key.now) };
}
