//! What holds of the definitions. Each function does nothing, and its contract is the law.

ghost use Rattle.std.specs.Prelude.{◌≡◌, ◌<◌, ◌≤◌, ◌-◌, ◌^◌, ℕ, ℤ, List, length, false, None, Option, Some};
ghost use Rattle.im_digest.specs.Digests.{Hash, GivesDigests};
ghost use Rattle.im_disk.specs.Disk.{Told, after};
ghost use Rattle.im_format.specs.declared.records.Record.{Record};
ghost use Rattle.im_machine.specs.Machines.{Machine};
ghost use Rattle.im_machine.specs.Steps.{Steps};
ghost use Rattle.im_machine.specs.declared.events.Event.{Event};
ghost use Rattle.im_machine.specs.declared.outputs.Output.{Output};
ghost use Rattle.im_machine.specs.declared.outputs.Output.TheVariants as tells;
ghost use Rattle.im_machine.specs.declared.questions.KeyQuestion.{KeyQuestion};
ghost use Rattle.im_machine.specs.declared.questions.ProofQuestion.TheVariants as asks;
ghost use Rattle.im_machine.specs.declared.words.Word.TheVariants.{Failed, Indexed, Placed};
ghost use Rattle.im_machine_laws.specs.Reached.{IsReached};
ghost use Rattle.im_model.specs.History.{header_of, transaction_of, IsHistory};
ghost use Rattle.im_model.specs.declared.transactions.Transaction.{Transaction};
ghost use Rattle.im_proof.specs.Between.{anchor_between, dual_between};
ghost use Rattle.im_seated_journal.specs.Calls.{MakesBatches};
ghost use Rattle.im_seated_journal.specs.Seats.{told_failures};
ghost use Rattle.im_table.specs.Histories.{history_of};
ghost use Rattle.im_table.specs.Known.{KnownPass};
ghost use Rattle.im_table.specs.declared.view.View.{View};
ghost use Rattle.im_tx.specs.Asked.{Asked};
ghost use Rattle.im_versions.specs.declared.refusals.PlaceError.{PlaceError};
ghost use Rattle.im_versions.specs.declared.versions.Version.{Version};
ghost use Rattle.im_store.specs.Commits.{HasPlaced, IsRefusedAt};
ghost use Rattle.im_store_laws.specs.DiskEvents.{AreBatchSteps, AreFaultSteps, AreLastSteps, IsBeside, IsOpenStep, RestsOn};
ghost use Rattle.im_store_laws.specs.Events.{AreIndexSteps, AreLinkSteps, HoldsFirst, IsAckStep, IsLoadStep, IsLookStep, IsPlaceStep, IsProveStep, IsRefusalStep, IsSnapStep};
ghost use Rattle.im_store.specs.Loads.{IsLoaded, SawDurable, SawFailures, SawIndexed};
ghost use Rattle.im_store.specs.Names.{Naming};
ghost use Rattle.im_store_opening.specs.Opened.{OpensAs};
ghost use Rattle.im_store.specs.Proving.{ProvesEntry};
ghost use Rattle.im_store.specs.declared.answers.ProvedEntry.{ProvedEntry};

/// What a commit placed, it placed by the event Place, and what it refused, by the event Place.
pub fn a_commit_is_a_place()
    ensures placed { (hash : Hash) (time : Option ℤ) (asked : Asked) (old new : KnownPass) (n : ℕ)
        → HasPlaced time asked old new n → IsPlaceStep hash (history_of new.view.seen) asked n }
    ensures refused { (hash : Hash) (asked : Asked) (old new : KnownPass) (why : PlaceError) (at : ℕ)
        → IsRefusedAt asked old new why at → IsRefusalStep hash (history_of new.view.seen) asked why at }
{}

/// A receipt is the event Ack.
pub fn a_receipt_is_an_ack()
    ensures { (hash : Hash) (history : List Transaction) (n : ℕ) → 1 ≤ n → n ≤ length history → IsAckStep hash history n }
{}

/// Headers and proofs are the event Prove.
pub fn a_proof_is_a_prove()
    ensures header { (hash : Hash) (history : List Transaction) (k : ℕ) → 1 ≤ k → k ≤ length history
        → IsProveStep hash history k (asks.Header k) (tells.Header (header_of hash history k)) }
    ensures dual { (hash : Hash) (history : List Transaction) (s t : ℕ) → IsHistory history → 1 ≤ s → s ≤ t → t ≤ length history
        → IsProveStep hash history t (asks.Dual s t) (tells.Dual (dual_between hash history s t)) }
    ensures advance { (hash : Hash) (history : List Transaction) (s t : ℕ) → IsHistory history → 1 ≤ s → s ≤ t → t ≤ length history
        → IsProveStep hash history t (asks.Advance s t) (tells.Advance (dual_between hash history s t) (anchor_between hash history s t)) }
{}

/// An entry with its path and the dual proof to a state is the event Prove.
pub fn an_entry_is_a_prove()
    ensures { (hash : Hash) (history : List Transaction) (number index state : ℕ) (item : ProvedEntry) → IsHistory history → 1 ≤ number → number ≤ state → state ≤ length history
        → index < length (transaction_of history number).entries → ProvesEntry hash history number index state item
        → IsProveStep hash history state (asks.Item number index state) (tells.Item item.dual item.entry item.path) }
{}

/// What is told of keys at a number is the event Snap, in each machine that holds so much.
pub fn a_read_is_a_snap()
    ensures { (hash : Hash) (history : List Transaction) (n : ℕ) (question : KeyQuestion) (versions : List Version) → IsSnapStep hash history n question versions }
{}

/// What a call loads of a word is the event Load. A session that was told no more of what is durable than its pass knew is told no more
/// than the pass knows then; the other words change nothing.
pub fn a_look_is_a_load()
    ensures durable { (hash : Hash) (old new : KnownPass) (number : ℕ) → SawDurable old new number
        → IsLoadStep hash old.view.least.durable number new.view.least.durable }
    ensures placed { (hash : Hash) (old new : KnownPass) (number : ℕ) → IsLoaded old.view.looks.placed new.view.looks.placed number → IsLookStep hash Placed number }
    ensures indexed { (hash : Hash) (old new : KnownPass) (number : ℕ) → SawIndexed old new number → IsLookStep hash Indexed number }
    ensures failed { (hash : Hash) (old new : KnownPass) (number : ℕ) → SawFailures old new number → IsLookStep hash Failed number }
{}

/// From one size to another a machine's tree is raised by the event Link, once for each leaf, and its index by the event Index.
pub fn growth_is_one_by_one()
    ensures links { (hash : Hash) (before after : ℕ) → before ≤ after → AreLinkSteps hash before after }
    ensures indexes { (hash : Hash) (before after : ℕ) → before ≤ after → AreIndexSteps hash before after }
{}

/// What a store of one value log writes is the events Stage, Seal, Gate and Settle: the calls that its disk got since it was opened, as
/// closing it tells them, are those of the events of its batches. Each batch does them in each machine that has placed what it covers, and
/// rests on the batches before it, on a disk that tells what those left; it ends in one that rests on it too. The last batch does them as far
/// as the disk came: where a call failed its event fails, and none that calls the disk is allowed behind it. Between two batches a machine
/// goes on resting, whatever it places, links, indexes or answers. A machine to which a run leads rests on the batches that were found,
/// where it holds what was found, has as many durable on a disk that may be called and tells the same, and no batch is in progress.
pub fn a_batch_is_stage_seal_gate_settle()
    ensures steps { (hash : Hash) (n durable : ℕ) (history : List Transaction) (before now : Told) (made : MakesBatches hash 1 n durable history (Some before) (Some now))
        → AreBatchSteps hash history made.first made.more before }
    ensures last { (hash : Hash) (n durable : ℕ) (history : List Transaction) (before now : Told) (made : MakesBatches hash 1 n durable history (Some before) (Some now))
        → AreLastSteps hash history made.first made.more made.last before now }
    ensures between { (hash : Hash) (m next : Machine) (event : Event) (output : Output) (batches : List (List Record)) (t : Told)
        → IsBeside event → Steps hash m event output next → RestsOn m batches t → RestsOn next batches t }
    ensures rests { (hash : Hash) (n durable : ℕ) (history : List Transaction) (before now : Told) (made : MakesBatches hash 1 n durable history (Some before) (Some now)) (m : Machine)
        → GivesDigests hash → IsReached hash m → HoldsFirst m history n → m.stopped ≡ false → m.progress ≡ None → m.durable ≡ n → m.disk ≡ before
        → RestsOn m made.first before }
{}

/// Each failure that is told is the event Fault.
pub fn a_told_failure_is_a_fault()
    ensures { (hash : Hash) (v : View) (n : ℕ) → v.least.failed < n → n ≤ 2 ^ 64 - 1 → AreFaultSteps hash v.least.failed (told_failures v n).least.failed }
{}

/// Opening a disk is the event Open, in each machine that isn't open and whose disk tells the same.
pub fn an_opening_is_an_open()
    ensures { (t : Told) (faults : ℕ) (n : Naming) → OpensAs (Some t) faults n → IsOpenStep n.digest t (history_of n.found) n.synced }
{}
