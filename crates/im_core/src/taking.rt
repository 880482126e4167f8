// The linker's step, the indexer's step, and the telling of a failure.
ghost use Rattle.std.specs.Prelude.{IfOk};
ghost use Rattle.im_core.specs.Parts.{Answers, IsUp};
ghost use Rattle.im_digest.specs.Digests.{Hash};
ghost use Rattle.im_machine.specs.Machines.{Machine};
ghost use Rattle.im_machine.specs.declared.events.Event.TheVariants as on;

use crate::store::OpenStore;
use im_digest::Hash32;
use im_machine::outputs::Output;
use std::alloc::{AllocError, Global};

impl OpenStore {
    /// Adds the next durable transaction to the tree.
    pub(crate) fn link<H: Hash32>(&mut self, hash: &H) -> Result<Output, AllocError>
        requires { (m : Machine) × IsUp (H.digest hash.now) self.old m }
        ensures { (m : Machine) → IsUp (H.digest hash.now) self.old m → IfOk result (λ output. Answers (H.digest hash.now) m on.Link output self.new) }
    {
        let linked = self.tree.size();
        let durable = self.journal.durable();
        if durable <= linked {
            return Ok(Output::NotAllowed);
        }
        let alh = *self.book.alh(linked + 1);
        self.tree.append(hash, &alh)?;
        Ok(Output::Done)
    }

    /// Takes the next durable transaction into the index. It copies the keys and values that the index shows.
    pub(crate) fn take_next(&mut self, alloc: Global) -> Result<Output, AllocError>
        requires { (hash : Hash) × (m : Machine) × IsUp hash self.old m }
        ensures { (hash : Hash) (m : Machine) → IsUp hash self.old m → IfOk result (λ output. Answers hash m on.Index output self.new) }
    {
        let indexed = self.index.taken();
        let durable = self.journal.durable();
        if durable <= indexed {
            return Ok(Output::NotAllowed);
        }
        let tx = self.book.tx(indexed + 1);
        self.index.take(alloc, tx)?;
        Ok(Output::Done)
    }

    /// Counts a failure, at most 2^64 - 1. The disk isn't called from then on.
    pub(crate) fn fault(&mut self) -> Output
        ensures { (hash : Hash) (m : Machine) → IsUp hash self.old m → Answers hash m on.Fault result self.new }
    {
        let failures = self.failures.saturating_add(1);
        self.failures = failures;
        self.stopped = true;
        Output::Done
    }
}
