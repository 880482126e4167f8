// What is proved of what is durable.
ghost use Rattle.std.specs.Prelude.{◌≡◌, ◌<◌, ℕ, length, map, slice_index_or, take, IfOk};
ghost use Rattle.im_core.specs.Answers.{Gives};
ghost use Rattle.im_core.specs.Parts.{Answers, IsUp};
ghost use Rattle.im_machine.specs.Allowed.{IsBetween, MayProve};
ghost use Rattle.im_machine.specs.Answers.{proof_of};
ghost use Rattle.im_machine.specs.Machines.{Machine};
ghost use Rattle.im_machine.specs.declared.events.Event.TheVariants as on;
ghost use Rattle.im_machine.specs.declared.outputs.Output.TheVariants as says;
ghost use Rattle.im_machine.specs.declared.questions.ProofQuestion.TheVariants as asks;
ghost use Rattle.im_model.specs.Entries.{entry_digest};
ghost use Rattle.im_proof.specs.Between.{anchor_between, dual_between, no_entry};
ghost use Rattle.im_proof.specs.Built.{path_of};

use crate::store::OpenStore;
use im_digest::Hash32;
use im_dual::anchors::anchor_between;
use im_dual::build::build;
use im_dual::entries::entry_and_path;
use im_machine::outputs::Output;
use im_machine::questions::ProofQuestion;
use im_model::entries::Entry;
use im_proof::proofs::DualProof;
use std::alloc::{AllocError, Global};

impl OpenStore {
    /// Tells what is asked to be proved, where it is durable.
    pub(crate) fn prove<H: Hash32>(
        &self,
        alloc: Global,
        hash: &H,
        question: ProofQuestion,
    ) -> Result<Output, AllocError>
        requires { (m : Machine) × IsUp (H.digest hash.now) self.now m }
        ensures { (m : Machine) (session : ℕ) → IsUp (H.digest hash.now) self.now m
            → IfOk result (λ output. Answers (H.digest hash.now) m (on.Prove session question) output self.now) }
    {
        self.proof(alloc, hash, question)
    }

    // The proof that is asked for, one arm a question.
    fn proof<H: Hash32>(
        &self,
        alloc: Global,
        hash: &H,
        question: ProofQuestion,
    ) -> Result<Output, AllocError>
        requires { (m : Machine) × IsUp (H.digest hash.now) self.now m }
        ensures { (m : Machine) → IsUp (H.digest hash.now) self.now m
            → IfOk result (Gives (MayProve m question) (proof_of (H.digest hash.now) m.placed question)) }
    {
        match question {
            ProofQuestion::Header { number } => self.header(alloc, number),
            ProofQuestion::Dual { source, target } => {
                self.prove_dual(alloc, hash, source, target)
            }
            ProofQuestion::Advance { source, target } => {
                self.prove_advance(alloc, hash, source, target)
            }
            ProofQuestion::Item {
                number,
                index,
                state,
            } => self.prove_item(alloc, hash, number, index, state),
        }
    }

    // The dual proof between two transactions, where they are durable and in order.
    fn prove_dual<H: Hash32>(
        &self,
        alloc: Global,
        hash: &H,
        source: u64,
        target: u64,
    ) -> Result<Output, AllocError>
        requires { (m : Machine) × IsUp (H.digest hash.now) self.now m }
        ensures { (m : Machine) → IsUp (H.digest hash.now) self.now m
            → IfOk result (Gives (MayProve m (asks.Dual source target)) (proof_of (H.digest hash.now) m.placed (asks.Dual source target))) }
    {
        if !self.are_durable(source, target) {
            return Ok(Output::NotAllowed);
        }
        let dual = self.dual(alloc, hash, source, target)?;
        Ok(Output::Dual { dual })
    }

    // The same with its anchor, where one is due.
    fn prove_advance<H: Hash32>(
        &self,
        alloc: Global,
        hash: &H,
        source: u64,
        target: u64,
    ) -> Result<Output, AllocError>
        requires { (m : Machine) × IsUp (H.digest hash.now) self.now m }
        ensures { (m : Machine) → IsUp (H.digest hash.now) self.now m
            → IfOk result (Gives (MayProve m (asks.Advance source target)) (proof_of (H.digest hash.now) m.placed (asks.Advance source target))) }
    {
        if !self.are_durable(source, target) {
            return Ok(Output::NotAllowed);
        }
        let dual = self.dual(alloc, hash, source, target)?;
        self.advance(alloc, hash, dual, source, target)
    }

    // A dual proof, and its anchor, where one is due.
    fn advance<H: Hash32>(
        &self,
        alloc: Global,
        hash: &H,
        dual: DualProof,
        source: u64,
        target: u64,
    ) -> Result<Output, AllocError>
        requires up { (m : Machine) × IsUp (H.digest hash.now) self.now m }
        requires between { IsBetween source target self.now.journal.durable }
        ensures { (m : Machine) → IsUp (H.digest hash.now) self.now m
            → IfOk result (λ output. output ≡ says.Advance dual (anchor_between (H.digest hash.now) (take target m.placed) source target)) }
    {
        match self.anchor(alloc, hash, source, target) {
            Ok(anchor) => Ok(Output::Advance { dual, anchor }),
            Err(error) => {
                drop(dual);
                Err(error)
            }
        }
    }

    // An entry of a transaction, proved under a state, where both are durable and in order, and there is such an entry.
    fn prove_item<H: Hash32>(
        &self,
        alloc: Global,
        hash: &H,
        number: u64,
        index: u32,
        state: u64,
    ) -> Result<Output, AllocError>
        requires { (m : Machine) × IsUp (H.digest hash.now) self.now m }
        ensures { (m : Machine) → IsUp (H.digest hash.now) self.now m
            → IfOk result (Gives (MayProve m (asks.Item number index state)) (proof_of (H.digest hash.now) m.placed (asks.Item number index state))) }
    {
        if !self.are_durable(number, state) {
            return Ok(Output::NotAllowed);
        }
        let entries = self.book.tx(number).entries.as_slice();
        let width = entries.len();
        let place = index as usize;
        if width <= place {
            return Ok(Output::NotAllowed);
        }
        let dual = self.dual(alloc, hash, number, state)?;
        item(alloc, hash, dual, entries, index)
    }

    // The dual proof between two durable transactions: that of the history up to its target.
    fn dual<H: Hash32>(
        &self,
        alloc: Global,
        hash: &H,
        source: u64,
        target: u64,
    ) -> Result<DualProof, AllocError>
        requires up { (m : Machine) × IsUp (H.digest hash.now) self.now m }
        requires between { IsBetween source target self.now.journal.durable }
        ensures { (m : Machine) → IsUp (H.digest hash.now) self.now m
            → IfOk result (λ dual. dual ≡ dual_between (H.digest hash.now) (take target m.placed) source target) }
    {
        build(alloc, hash, self.book.headers(), &self.tree, source, target)
    }

    // Its anchor, where one is due.
    fn anchor<H: Hash32>(
        &self,
        alloc: Global,
        hash: &H,
        source: u64,
        target: u64,
    ) -> Result<Option<DualProof>, AllocError>
        requires up { (m : Machine) × IsUp (H.digest hash.now) self.now m }
        requires between { IsBetween source target self.now.journal.durable }
        ensures { (m : Machine) → IsUp (H.digest hash.now) self.now m
            → IfOk result (λ anchor. anchor ≡ anchor_between (H.digest hash.now) (take target m.placed) source target) }
    {
        anchor_between(alloc, hash, self.book.headers(), &self.tree, source, target)
    }
}

// An entry of these with its path among them, and the dual proof from their transaction.
fn item<H: Hash32>(
    alloc: Global,
    hash: &H,
    dual: DualProof,
    entries: &[Entry],
    index: u32,
) -> Result<Output, AllocError>
    requires { index < length entries.now }
    ensures { IfOk result (λ output. output ≡ says.Item dual (slice_index_or entries.now index no_entry)
        (path_of (H.digest hash.now) (map (entry_digest (H.digest hash.now)) entries.now) index)) }
{
    match entry_and_path(alloc, hash, entries, index) {
        Ok((entry, path)) => Ok(Output::Item { dual, entry, path }),
        Err(error) => {
            drop(dual);
            Err(error)
        }
    }
}
