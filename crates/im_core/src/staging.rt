// Staging a batch: its beginning, and its pieces, each by one call of the disk.
ghost use Rattle.std.specs.Prelude.{◌≡◌, ◌<◌, ◌≤◌, List, length, false, Some, IfOk, IsOk, OnOk};
ghost use Rattle.im_core.specs.Parts.{Answers, IsUp};
ghost use Rattle.im_core.specs.Staged.{WritesNext};
ghost use Rattle.im_digest.specs.Digests.{Hash};
ghost use Rattle.im_format.specs.declared.records.Record.{Record};
ghost use Rattle.im_journal.specs.declared.batches.Step.TheVariants.{Idle, Staging};
ghost use Rattle.im_machine.specs.Machines.{fresh, Covers, Machine, Progress};
ghost use Rattle.im_machine.specs.declared.events.Event.TheVariants as on;

use crate::batches::records_behind;
use crate::foretold::{foretell, foretold};
use crate::store::OpenStore;
use im_digest::Hash32;
use im_journal::batches::Step;
use im_journal::errors::JournalError;
use im_machine::outputs::Output;
use std::alloc::{AllocError, Global};

impl OpenStore {
    /// Writes the next piece of the batch in progress; with none it begins one, of what is placed behind the durable transactions up
    /// to number `last`.
    pub(crate) fn stage<H: Hash32>(
        &mut self,
        alloc: Global,
        hash: &H,
        last: u64,
        fails: bool,
    ) -> Result<Output, AllocError>
        requires { (m : Machine) × IsUp (H.digest hash.now) self.old m }
        ensures { (m : Machine) → IsUp (H.digest hash.now) self.old m → IfOk result (λ output. Answers (H.digest hash.now) m (on.Stage last fails) output self.new) }
    {
        let stopped = self.stopped;
        if stopped {
            return Ok(Output::NotAllowed);
        }
        let step = self.journal.step();
        match step {
            Step::Idle => self.stage_first(alloc, hash, last, fails),
            Step::Staging => self.stage_next(last, fails),
            _ => Ok(Output::NotAllowed),
        }
    }

    // Begins a batch up to this number, where it is one behind the durable transactions, and writes its first piece.
    fn stage_first<H: Hash32>(
        &mut self,
        alloc: Global,
        hash: &H,
        last: u64,
        fails: bool,
    ) -> Result<Output, AllocError>
        requires up { (m : Machine) × IsUp (H.digest hash.now) self.old m }
        requires going { self.old.stopped ≡ false }
        requires step { self.old.journal.batch.step ≡ Idle }
        ensures { (m : Machine) → IsUp (H.digest hash.now) self.old m → IfOk result (λ output. Answers (H.digest hash.now) m (on.Stage last fails) output self.new) }
    {
        let durable = self.journal.durable();
        let placed = self.book.len();
        if last <= durable {
            return Ok(Output::NotAllowed);
        }
        if placed < last {
            return Ok(Output::NotAllowed);
        }
        self.begin(alloc, hash, last)?;
        self.write(fails)
    }

    // Writes the next piece of the batch in progress, whatever the number.
    fn stage_next(&mut self, last: u64, fails: bool) -> Result<Output, AllocError>
        requires up { (hash : Hash) × (m : Machine) × IsUp hash self.old m }
        requires going { self.old.stopped ≡ false }
        requires step { self.old.journal.batch.step ≡ Staging }
        ensures { (hash : Hash) (m : Machine) → IsUp hash self.old m → IfOk result (λ output. Answers hash m (on.Stage last fails) output self.new) }
    {
        self.write(fails)
    }

    // Begins a batch up to this number. The disk isn't called.
    fn begin<H: Hash32>(&mut self, alloc: Global, hash: &H, last: u64) -> Result<(), AllocError>
        requires up { (m : Machine) × IsUp (H.digest hash.now) self.old m }
        requires going { self.old.stopped ≡ false }
        requires step { self.old.journal.batch.step ≡ Idle }
        requires behind { self.old.journal.durable < last }
        requires within { last ≤ length self.old.book.transactions }
        ensures begun { (m : Machine) → IsUp (H.digest hash.now) self.old m
            → OnOk result ((rs : List Record) × Covers (H.digest hash.now) m last rs × IsUp (H.digest hash.now) self.new (record m { progress = Some (fresh rs) })) }
        ensures step { OnOk result (self.new.journal.batch.step ≡ Staging) }
        ensures going { self.new.stopped ≡ self.old.stopped }
    {
        let durable = self.journal.durable();
        let ends = self.journal.ends();
        let records = records_behind(alloc, hash, &self.book, ends, durable, last)?;
        let made = records.as_slice();
        let answer = self.journal.begin(alloc, made);
        drop(records);
        begun(answer)
    }

    // Writes the next piece of the batch in progress.
    fn write(&mut self, fails: bool) -> Result<Output, AllocError>
        requires up { (hash : Hash) × (m : Machine) × IsUp hash self.old m }
        requires going { self.old.stopped ≡ false }
        requires step { self.old.journal.batch.step ≡ Staging }
        ensures { (hash : Hash) (m : Machine) (p : Progress) → IsUp hash self.old m → m.progress ≡ Some p
            → IfOk result (λ output. WritesNext hash m fails p output self.new) }
    {
        foretell(&mut self.journal, fails)?;
        let answer = self.journal.stage_piece();
        let output = foretold(fails, answer)?;
        self.stopped = fails;
        Ok(output)
    }
}

// Whether a batch was begun: a journal none of whose calls has failed is refused it for want of memory alone.
fn begun(answer: Result<(), JournalError>) -> Result<(), AllocError>
    ensures { OnOk result (IsOk answer) }
{
    match answer {
        Ok(()) => Ok(()),
        Err(_) => Err(AllocError),
    }
}
