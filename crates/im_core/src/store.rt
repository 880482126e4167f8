ghost use Rattle.std.specs.Prelude.{IfOk};
ghost use Rattle.im_core.specs.Cores.{IsCrash};
ghost use Rattle.im_core.specs.Parts.{Answers, IsUp};
ghost use Rattle.im_machine.specs.Machines.{Machine};

use im_atree::trees::Tree;
use im_book::book::Book;
use im_digest::Hash32;
use im_disk::memory::MemDisk;
use im_index::index::Index;
use im_journal::journal::Journal;
use im_machine::events::Event;
use im_machine::outputs::Output;
use std::alloc::{AllocError, Global};

/// An open store, in its parts. A clause sees each.
///
/// # Invariants
///
/// `IsUp`, for one hash: the parts are those of the machine. Each event's call keeps it where it succeeds.
#[derive(Drop)]
pub(crate) struct OpenStore {
    /// What is placed.
    pub(crate) book: Book,
    /// The tree of what is linked.
    pub(crate) tree: Tree,
    /// The index of what is indexed.
    pub(crate) index: Index,
    /// The records, on a disk in memory.
    pub(crate) journal: Journal<MemDisk>,
    /// How many failures were told, at most 2^64 - 1.
    pub(crate) failures: u64,
    /// Whether a call of the disk has failed, or a failure was told.
    pub(crate) stopped: bool,
}

impl OpenStore {
    /// An event but a crash: a call an event, which has the contract of this one with its own event.
    pub(crate) fn answer<H: Hash32>(
        &mut self,
        alloc: Global,
        hash: &H,
        event: &Event,
    ) -> Result<Output, AllocError>
        requires up { (m : Machine) × IsUp (H.digest hash.now) self.old m }
        requires own { IsCrash event.now → ⊥ }
        ensures { (m : Machine) → IsUp (H.digest hash.now) self.old m → IfOk result (λ output. Answers (H.digest hash.now) m event.now output self.new) }
    {
        match event {
            Event::Place { ts, prepared, .. } => self.place(alloc, hash, *ts, prepared),
            Event::Stage { last, fails } => self.stage(alloc, hash, *last, *fails),
            Event::Seal { fails } => self.seal(*fails),
            Event::Gate { fails } => self.gate(*fails),
            Event::Settle { fails } => self.settle(*fails),
            Event::Ack { number, .. } => self.ack(alloc, *number),
            Event::Fault => Ok(self.fault()),
            Event::Link => self.link(hash),
            Event::Index => self.take_next(alloc),
            Event::Load { word, .. } => Ok(self.load(*word)),
            Event::Snap {
                number,
                question,
                ..
            } => self.snap(alloc, *number, question),
            Event::Prove { question, .. } => self.prove(alloc, hash, *question),
            Event::Crash { .. } => Ok(Output::NotAllowed),
            Event::Open => Ok(Output::NotAllowed),
        }
    }
}
