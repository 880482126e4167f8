// What is answered of what is durable, and of the words.
ghost use Rattle.std.specs.Prelude.{◌≡◌, ◌↔◌, ℕ, IfOk, IsTrue};
ghost use Rattle.im_core.specs.Answers.{Gives};
ghost use Rattle.im_core.specs.Parts.{Answers, IsUp};
ghost use Rattle.im_digest.specs.Digests.{Hash};
ghost use Rattle.im_machine.specs.Allowed.{IsBetween};
ghost use Rattle.im_machine.specs.Answers.{header_at_end, word_of};
ghost use Rattle.im_machine.specs.Machines.{Machine};
ghost use Rattle.im_machine.specs.declared.events.Event.TheVariants as on;

use crate::store::OpenStore;
use im_machine::outputs::Output;
use im_machine::words::Word;
use std::alloc::{AllocError, Global};

impl OpenStore {
    /// Tells the header of a durable transaction.
    pub(crate) fn ack(&self, alloc: Global, number: u64) -> Result<Output, AllocError>
        requires { (hash : Hash) × (m : Machine) × IsUp hash self.now m }
        ensures { (hash : Hash) (m : Machine) (session : ℕ) → IsUp hash self.now m
            → IfOk result (λ output. Answers hash m (on.Ack session number) output self.now) }
    {
        self.header(alloc, number)
    }

    /// The header of a durable transaction, which is copied.
    pub(crate) fn header(&self, alloc: Global, number: u64) -> Result<Output, AllocError>
        requires { (hash : Hash) × (m : Machine) × IsUp hash self.now m }
        ensures { (hash : Hash) (m : Machine) → IsUp hash self.now m
            → IfOk result (Gives (IsBetween number number m.durable) (header_at_end hash m.placed number)) }
    {
        if !self.are_durable(number, number) {
            return Ok(Output::NotAllowed);
        }
        let header = self.book.header(number).try_clone(alloc)?;
        Ok(Output::Header { header })
    }

    /// Whether these are numbers of durable transactions, in order, from 1.
    pub(crate) fn are_durable(&self, source: u64, target: u64) -> bool
        ensures { IsTrue result ↔ IsBetween source target self.now.journal.durable }
    {
        let durable = self.journal.durable();
        0 < source && source <= target && target <= durable
    }

    /// Tells what a word holds.
    pub(crate) fn load(&self, word: Word) -> Output
        ensures { (hash : Hash) (m : Machine) (session : ℕ) → IsUp hash self.now m → Answers hash m (on.Load session word) result self.now }
    {
        let number = self.word(word);
        Output::Word { number }
    }

    // What a word holds.
    fn word(&self, word: Word) -> u64
        ensures { (hash : Hash) (m : Machine) → IsUp hash self.now m → result ≡ word_of m word }
    {
        match word {
            Word::Placed => self.book.len(),
            Word::Durable => self.journal.durable(),
            Word::Linked => self.tree.size(),
            Word::Indexed => self.index.taken(),
            Word::Failed => self.failures,
        }
    }
}
