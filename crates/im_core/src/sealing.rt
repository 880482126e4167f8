// The steps of a batch behind its pieces: each makes one call of the disk.
ghost use Rattle.std.specs.Prelude.{◌≡◌, false, IfOk};
ghost use Rattle.im_core.specs.Parts.{Answers, IsUp};
ghost use Rattle.im_digest.specs.Digests.{Hash};
ghost use Rattle.im_journal.specs.declared.batches.Step.TheVariants.{Staged, Sealed, Gated};
ghost use Rattle.im_machine.specs.Machines.{Machine};
ghost use Rattle.im_machine.specs.declared.events.Event.TheVariants as on;

use crate::foretold::{foretell, foretold};
use crate::store::OpenStore;
use im_journal::batches::Step;
use im_machine::outputs::Output;
use std::alloc::AllocError;

impl OpenStore {
    /// Makes the pieces of the batch durable.
    pub(crate) fn seal(&mut self, fails: bool) -> Result<Output, AllocError>
        requires { (hash : Hash) × (m : Machine) × IsUp hash self.old m }
        ensures { (hash : Hash) (m : Machine) → IsUp hash self.old m → IfOk result (λ output. Answers hash m (on.Seal fails) output self.new) }
    {
        let stopped = self.stopped;
        if stopped {
            return Ok(Output::NotAllowed);
        }
        let step = self.journal.step();
        match step {
            Step::Staged => self.seal_pieces(fails),
            _ => Ok(Output::NotAllowed),
        }
    }

    // The sync behind the pieces.
    fn seal_pieces(&mut self, fails: bool) -> Result<Output, AllocError>
        requires up { (hash : Hash) × (m : Machine) × IsUp hash self.old m }
        requires going { self.old.stopped ≡ false }
        requires step { self.old.journal.batch.step ≡ Staged }
        ensures { (hash : Hash) (m : Machine) → IsUp hash self.old m → IfOk result (λ output. Answers hash m (on.Seal fails) output self.new) }
    {
        foretell(&mut self.journal, fails)?;
        let answer = self.journal.seal();
        let output = foretold(fails, answer)?;
        self.stopped = fails;
        Ok(output)
    }

    /// Writes 01 at the gate of the batch.
    pub(crate) fn gate(&mut self, fails: bool) -> Result<Output, AllocError>
        requires { (hash : Hash) × (m : Machine) × IsUp hash self.old m }
        ensures { (hash : Hash) (m : Machine) → IsUp hash self.old m → IfOk result (λ output. Answers hash m (on.Gate fails) output self.new) }
    {
        let stopped = self.stopped;
        if stopped {
            return Ok(Output::NotAllowed);
        }
        let step = self.journal.step();
        match step {
            Step::Sealed => self.open_gate(fails),
            _ => Ok(Output::NotAllowed),
        }
    }

    // The write of the gate.
    fn open_gate(&mut self, fails: bool) -> Result<Output, AllocError>
        requires up { (hash : Hash) × (m : Machine) × IsUp hash self.old m }
        requires going { self.old.stopped ≡ false }
        requires step { self.old.journal.batch.step ≡ Sealed }
        ensures { (hash : Hash) (m : Machine) → IsUp hash self.old m → IfOk result (λ output. Answers hash m (on.Gate fails) output self.new) }
    {
        foretell(&mut self.journal, fails)?;
        let answer = self.journal.open_gate();
        let output = foretold(fails, answer)?;
        self.stopped = fails;
        Ok(output)
    }

    /// Makes the gate durable, and with it the batch.
    pub(crate) fn settle(&mut self, fails: bool) -> Result<Output, AllocError>
        requires { (hash : Hash) × (m : Machine) × IsUp hash self.old m }
        ensures { (hash : Hash) (m : Machine) → IsUp hash self.old m → IfOk result (λ output. Answers hash m (on.Settle fails) output self.new) }
    {
        let stopped = self.stopped;
        if stopped {
            return Ok(Output::NotAllowed);
        }
        let step = self.journal.step();
        match step {
            Step::Gated => self.settle_gate(fails),
            _ => Ok(Output::NotAllowed),
        }
    }

    // The sync behind the gate.
    fn settle_gate(&mut self, fails: bool) -> Result<Output, AllocError>
        requires up { (hash : Hash) × (m : Machine) × IsUp hash self.old m }
        requires going { self.old.stopped ≡ false }
        requires step { self.old.journal.batch.step ≡ Gated }
        ensures { (hash : Hash) (m : Machine) → IsUp hash self.old m → IfOk result (λ output. Answers hash m (on.Settle fails) output self.new) }
    {
        foretell(&mut self.journal, fails)?;
        let answer = self.journal.settle();
        let output = foretold(fails, answer)?;
        self.stopped = fails;
        Ok(output)
    }
}
