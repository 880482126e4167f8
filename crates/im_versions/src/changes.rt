ghost use Rattle.std.specs.Prelude.{◌≤◌, List, length, take, IfOk};
ghost use Rattle.im_model.specs.declared.transactions.Transaction.{Transaction};
ghost use Rattle.im_versions.specs.Changes.{AreChanges};

use crate::errors::ViewError;
use crate::versions::Versions;
use crate::view::KvView;
use std::alloc::Global;

/// A view that tells the versions of many keys by one call.
pub trait ChangesView: KvView {
    /// The versions, deletions too, of all keys that begin with a prefix, among the first `n` transactions: those of
    /// one key oldest first. How the versions of two keys stand to each other isn't told. Its only error is want of
    /// memory.
    fn changes(&self, alloc: Global, prefix: &[u8], n: u64) -> Result<Versions, ViewError>
        requires { (history : List Transaction) × Self.stands self.now history × (n ≤ length history) }
        ensures { (history : List Transaction) → Self.stands self.now history → n ≤ length history
            → IfOk result (AreChanges (take n history) prefix.now) };
}
