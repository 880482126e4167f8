ghost use Rattle.std.specs.Prelude.{◌≡◌, ◌<◌, ◌≤◌, ◌⊎◌, ◌+◌, ◌-◌, ℕ, List, [], true, length, take, Err, IfErr, IfOk, IfSome, IsErrOf, IsSome, OnErr, OnOk};
ghost use mathlib.Core.List.{IsPrefix};
ghost use Rattle.im_disk.specs.Disk.{seen};
ghost use Rattle.im_disk.specs.Moments.{Leaves, LeavesNow};
ghost use Rattle.im_format.specs.Standing.{Stands, StandsFrom};
ghost use Rattle.im_model.specs.History.{IsHistory};
ghost use Rattle.im_vlog.specs.Showing.{IsCorrupt, shown};
ghost use Rattle.im_table.specs.Histories.{history_of, GoesOn};
ghost use Rattle.im_table.specs.Passes.{IsPassOf, IsKeeper, Later, AddsNothing, AddsFaults, journal_role};
ghost use Rattle.im_table.specs.Records.{AreRecordsOf};
ghost use Rattle.im_table.specs.References.{AreLaid};
ghost use Rattle.im_table.specs.Views.{left_of, looked_placed, right_of};
ghost use Rattle.im_table.specs.declared.items.LogItem.{LogItem};
ghost use Rattle.im_journal.specs.Faults.{IsCounted, IsReadCounted};
ghost use Rattle.im_journal.specs.Kept.{HasSealed, HasStaged};
ghost use Rattle.im_journal.specs.Made.{Makes, calls_to_seal, calls_to_settle, calls_to_stage};
ghost use Rattle.im_journal.specs.Pieces.{pieces_of};
ghost use Rattle.im_seated_journal.specs.Calls.{MakesBatches, StandsPut};
ghost use Rattle.im_seated_journal.specs.Seats.{HasItemValue, RoseBy, ServesItems, told_failures};
ghost use Rattle.im_journal.specs.declared.batches.Step.TheVariants.{Idle, Staging, Staged, Sealed};

use im_digest::Hash32;
use im_disk::disk::Disk;
use im_format::records::Record;
use im_format::references::ValueRef;
use im_journal::errors::JournalError;
use im_journal::journal::Journal;
use im_table::law::Law;
use im_table::pass::Pass;
use im_table::roles::journal_role;
use im_table::tip::Tip;
use im_table::tip_name::TipName;
use im_vlog::showing::ValueError;
use std::alloc::Global;
use std::marker::{Model, PhantomData};

/// The journal of a history that threads share, with the pass that has the journal's role: what lies under the
/// journal's lock. A clause sees the journal: its disk, what is durable, the batch in progress, and how many calls of
/// the disk have failed.
///
/// Each call that steps tells the words: durable where a batch is settled, and failed where a call of the disk failed.
/// A batch is begun under the book's lock too, and written without it.
///
/// # Thread safety
///
/// It lies under a lock, and each call has it alone (`&mut`). The journal's lock is taken before all others.
///
/// # Invariants
///
/// `durable` and `failures` are the words durable and failed, and `ServesItems`: what is durable is the front of the pass's
/// list, and held behind a failed call too; the batch in progress is of the transactions behind it; failures are no more
/// than the disk has counted since it was opened, and none only where it counted none; the calls that it got since then
/// are those of batches, one after the other, and of a last one as far as they came; and at each moment since then each
/// image stood for a front part of the pass's list that has what was found.
#[derive(Drop)]
pub struct SeatedJournal<D: Disk, N: TipName> {
    journal: Journal<D>,
    pass: Pass,
    of: PhantomData<N>,
}

impl<D: Disk, N: TipName> Model for SeatedJournal<D, N> {
    ghost use Rattle.std.specs.Prelude.{◌≡◌};
    ghost use Rattle.im_table.specs.Passes.{IsKeeper, journal_role};
    ghost use Rattle.im_journal.specs.Kept.{Kept};
    ghost use Rattle.im_seated_journal.specs.Seats.{ServesItems};

    ghost Value = { Kept D };

    ghost view = { λ s. s.journal };

    ghost invariant = { λ s. IsKeeper N.table journal_role s.pass × (s.pass.view.least.durable ≡ s.journal.durable) × (s.pass.view.least.failed ≡ s.journal.failures) × ServesItems D.told D.faults N.digest N.found N.synced N.faults s.pass.view.seen s.journal };
}

impl<D: Disk, N: TipName> SeatedJournal<D, N> {
    /// This journal, with the pass that has its role.
    pub fn new(journal: Journal<D>, pass: Pass) -> Self
        requires pass { IsKeeper N.table journal_role pass }
        requires words { (pass.view.least.durable ≡ journal.durable) × (pass.view.least.failed ≡ journal.failures) }
        requires serves { ServesItems D.told D.faults N.digest N.found N.synced N.faults pass.view.seen journal }
        ensures { result ≡ journal }
    {
        SeatedJournal {
            journal,
            pass,
            of: PhantomData,
        }
    }

    /// Hands the journal and the pass back, and with them what the lock has kept: images now and at each moment since
    /// opening, the calls that the disk got since then, which are those of batches of each list that begins with the
    /// pass's, over the number of value logs by which its values lie, what reads give where none failed and all of that list is
    /// durable, and the failures that were counted: none only where the disk counted none.
    pub fn into_parts(self) -> (Journal<D>, Pass)
        ensures journal { result.0 ≡ self }
        ensures pass { IsKeeper N.table journal_role result.1 }
        ensures words { (result.1.view.least.durable ≡ self.durable) × (result.1.view.least.failed ≡ self.failures) }
        ensures within { self.durable ≤ length result.1.view.seen }
        ensures old { length N.found ≤ self.durable }
        ensures images { LeavesNow (StandsFrom N.digest self.durable (history_of result.1.view.seen)) (D.told self.disk) }
        ensures settled { self.failures ≡ 0 → length result.1.view.seen ≤ self.durable
            → LeavesNow (λ image. Stands N.digest image (history_of result.1.view.seen)) (D.told self.disk) }
        ensures whole { self.failures ≡ 0 → self.batch.step ≡ Idle
            → LeavesNow (λ image. Stands N.digest image (take self.durable (history_of result.1.view.seen))) (D.told self.disk) }
        ensures moments { Leaves (StandsFrom N.digest (length N.found) (history_of result.1.view.seen)) N.synced (D.told self.disk) }
        ensures calls { (w : ℕ) (list : List LogItem) → IsPrefix result.1.view.seen list → GoesOn N.found list → AreLaid w 1 [] list
            → MakesBatches N.digest w (length N.found) self.durable (history_of list) N.synced (D.told self.disk) }
        ensures here { (w : ℕ) (list : List LogItem) → IsPrefix result.1.view.seen list → GoesOn N.found list → AreLaid w 1 [] list → self.failures ≡ 0 → length list ≤ self.durable
            → IfSome (D.told self.disk) (λ t. StandsPut N.digest w (length N.found) (history_of list) (seen t)) }
        ensures rose { RoseBy N.faults (D.faults self.disk) self.failures }
        ensures calm { self.failures ≡ 0 → D.faults self.disk ≡ N.faults }
    {
        let SeatedJournal {
            journal,
            pass,
            of: _,
        } = self;
        (journal, pass)
    }

    /// Lends the journal.
    pub fn journal(&self) -> &Journal<D>
        ensures { result.now ≡ self.now }
    {
        &self.journal
    }

    /// Shows a pass what is durable, and how many calls of the disk have failed.
    pub fn show<L: Law>(&mut self, tip: &Tip<L>, pass: &mut Pass)
        requires tip { tip.now.table ≡ N.table }
        requires pass { IsPassOf N.table pass.old }
        ensures same { self.new ≡ self.old }
        ensures later { Later pass.old pass.new }
        ensures adds { AddsNothing pass.old pass.new }
        ensures looks { pass.new.view.looks ≡ pass.old.view.looks }
        ensures words { (pass.new.view.least.durable ≡ self.new.durable) × (pass.new.view.least.failed ≡ self.new.failures) }
        ensures images { LeavesNow (StandsFrom N.digest self.new.durable (history_of pass.new.view.seen)) (D.told self.new.disk) }
    {
        tip.fetch(&mut self.pass, pass);
        self.pass = tip.split(pass, journal_role(), 0);
    }

    /// Begins a batch of these records: those of the pass's list behind what is durable, one at least. It makes the
    /// batch's pieces and writes none, so the book's lock, under which the records and the list were seen, needn't be
    /// held while the batch is written. What it costs is said at `Journal::begin`. It loads the word placed, by which the
    /// pass knows that the values of its list lie where the rule of the value logs puts them.
    ///
    /// # Errors
    ///
    /// `Stopped` and `Memory` alone. Behind an error the journal is as it was.
    pub fn begin<L: Law>(
        &mut self,
        alloc: Global,
        records: &[Record],
        tip: &Tip<L>,
        pass: &mut Pass,
    ) -> Result<(), JournalError>
        requires tip { tip.now.table ≡ N.table }
        requires pass { IsPassOf N.table pass.old }
        requires idle { self.old.failures ≡ 0 → self.old.batch.step ≡ Idle }
        requires history { IsHistory (history_of pass.old.view.seen) }
        requires found { GoesOn N.found pass.old.view.seen }
        requires some { 1 ≤ length records.now }
        requires next { AreRecordsOf N.digest pass.old.view.seen self.old.durable records.now }
        ensures later { Later pass.old pass.new }
        ensures adds { AddsNothing pass.old pass.new }
        ensures looks { (placed : ℕ) × (length pass.new.view.seen ≤ placed) × (pass.new.view.looks ≡ (looked_placed pass.old.view placed).looks) }
        ensures words { (pass.new.view.least.durable ≡ self.new.durable) × (pass.new.view.least.failed ≡ self.new.failures) }
        ensures step { OnOk result (self.new.batch.step ≡ Staging) }
        ensures count { OnOk result (self.new.batch.count ≡ length records.now) }
        ensures pieces { OnOk result ((self.new.batch.pieces ≡ pieces_of self.old.ends (self.old.durable + 1) records.now) × (self.new.batch.written ≡ 0)) }
        ensures disk { self.new.disk ≡ self.old.disk }
        ensures kept { (self.new.ends ≡ self.old.ends) × (self.new.durable ≡ self.old.durable) × (self.new.failures ≡ self.old.failures) }
        ensures err { OnErr result (self.new ≡ self.old) }
        ensures stopped { 0 < self.old.failures → result ≡ Err (JournalError.Stopped self.old.failures) }
        ensures going { (faults : ℕ) → IsErrOf result (JournalError.Stopped faults) → 0 < self.old.failures }
        ensures device { IsErrOf result JournalError.DiskFault → ⊥ }
    {
        tip.fetch(&mut self.pass, pass);
        tip.load_placed(pass);
        let answer = self.journal.begin(alloc, records);
        self.pass = tip.split(pass, journal_role(), 0);
        answer
    }

    /// Writes the pieces of the batch in progress that are left: one write for each, in order, and no other call. It begins
    /// no batch, whose records it would copy, so the memory that it may want is the disk's.
    ///
    /// # Errors
    ///
    /// Behind `Memory` the pieces before the one at which it came are written, and the same call goes on there. `DiskFault`
    /// is told as one failure more.
    pub fn stage<L: Law>(
        &mut self,
        alloc: Global,
        tip: &Tip<L>,
        pass: &mut Pass,
    ) -> Result<(), JournalError>
        requires tip { tip.now.table ≡ N.table }
        requires pass { IsPassOf N.table pass.old }
        requires begun { self.old.failures ≡ 0 → self.old.batch.step ≡ Idle → ⊥ }
        ensures later { Later pass.old pass.new }
        ensures adds { AddsFaults (self.new.failures - self.old.failures) pass.old pass.new }
        ensures looks { pass.new.view.looks ≡ pass.old.view.looks }
        ensures words { (pass.new.view.least.durable ≡ self.new.durable) × (pass.new.view.least.failed ≡ self.new.failures) }
        ensures staged { self.old.failures ≡ 0 → OnOk result (HasStaged self.new.batch.step) }
        ensures step { self.old.failures ≡ 0 → (HasStaged self.old.batch.step → ⊥) → OnOk result (self.new.batch.step ≡ Staged) }
        ensures batch { OnOk result ((self.new.batch.pieces ≡ self.old.batch.pieces) × (self.new.batch.ends ≡ self.old.batch.ends) × (self.new.batch.count ≡ self.old.batch.count)) }
        ensures kept { (self.new.ends ≡ self.old.ends) × (self.new.durable ≡ self.old.durable) }
        ensures any_moment { Leaves (StandsFrom N.digest self.old.durable (history_of pass.new.view.seen)) (D.told self.old.disk) (D.told self.new.disk) }
        ensures calls { Makes JournalError.DiskFault JournalError.Memory (calls_to_stage self.old []) (calls_to_stage self.new []) (D.told self.old.disk) (D.told self.new.disk) result }
        ensures counted { IsCounted (D.faults self.old.disk) (D.faults self.new.disk) self.old.failures self.new.failures result }
        ensures stopped { 0 < self.old.failures → (result ≡ Err (JournalError.Stopped self.old.failures)) × (self.new ≡ self.old) }
        ensures going { (faults : ℕ) → IsErrOf result (JournalError.Stopped faults) → 0 < self.old.failures }
    {
        let before = self.journal.failures();
        tip.fetch(&mut self.pass, pass);
        let answer = self.journal.stage(alloc, &[]);
        put_back(tip, &mut self.pass, pass, before, self.journal.failures());
        answer
    }

    /// Makes the pieces of the staged batch durable: one sync, if it isn't done. It takes no memory of its own.
    ///
    /// # Errors
    ///
    /// After `Memory` the same call tries again. `DiskFault` is told as one failure more. Behind an error the batch is as
    /// it was.
    pub fn seal<L: Law>(&mut self, tip: &Tip<L>, pass: &mut Pass) -> Result<(), JournalError>
        requires tip { tip.now.table ≡ N.table }
        requires pass { IsPassOf N.table pass.old }
        requires staged { self.old.failures ≡ 0 → HasStaged self.old.batch.step }
        ensures later { Later pass.old pass.new }
        ensures adds { AddsFaults (self.new.failures - self.old.failures) pass.old pass.new }
        ensures looks { pass.new.view.looks ≡ pass.old.view.looks }
        ensures words { (pass.new.view.least.durable ≡ self.new.durable) × (pass.new.view.least.failed ≡ self.new.failures) }
        ensures sealed { self.old.failures ≡ 0 → OnOk result (HasSealed self.new.batch.step) }
        ensures step { self.old.batch.step ≡ Staged → OnOk result (self.new.batch.step ≡ Sealed) }
        ensures batch { OnErr result (self.new.batch ≡ self.old.batch) }
        ensures pieces { (self.new.batch.pieces ≡ self.old.batch.pieces) × (self.new.batch.ends ≡ self.old.batch.ends) × (self.new.batch.count ≡ self.old.batch.count) }
        ensures kept { (self.new.ends ≡ self.old.ends) × (self.new.durable ≡ self.old.durable) }
        ensures any_moment { Leaves (StandsFrom N.digest self.old.durable (history_of pass.new.view.seen)) (D.told self.old.disk) (D.told self.new.disk) }
        ensures calls { Makes JournalError.DiskFault JournalError.Memory (calls_to_seal self.old.batch.step) (calls_to_seal self.new.batch.step) (D.told self.old.disk) (D.told self.new.disk) result }
        ensures counted { IsCounted (D.faults self.old.disk) (D.faults self.new.disk) self.old.failures self.new.failures result }
        ensures stopped { 0 < self.old.failures → (result ≡ Err (JournalError.Stopped self.old.failures)) × (self.new ≡ self.old) }
        ensures going { (faults : ℕ) → IsErrOf result (JournalError.Stopped faults) → 0 < self.old.failures }
    {
        let before = self.journal.failures();
        tip.fetch(&mut self.pass, pass);
        let answer = self.journal.seal();
        put_back(tip, &mut self.pass, pass, before, self.journal.failures());
        answer
    }

    /// Opens the gate of the sealed batch, if it isn't open, makes that durable, and tells the word durable: one write and
    /// one sync. It takes no memory of its own.
    ///
    /// # Errors
    ///
    /// After `Memory` the same call goes on where this one stopped. `DiskFault` is told as one failure more, and the batch
    /// is still in progress.
    pub fn settle<L: Law>(&mut self, tip: &Tip<L>, pass: &mut Pass) -> Result<(), JournalError>
        requires tip { tip.now.table ≡ N.table }
        requires pass { IsPassOf N.table pass.old }
        requires sealed { self.old.failures ≡ 0 → HasSealed self.old.batch.step }
        ensures later { Later pass.old pass.new }
        ensures adds { AddsFaults (self.new.failures - self.old.failures) pass.old pass.new }
        ensures looks { pass.new.view.looks ≡ pass.old.view.looks }
        ensures words { (pass.new.view.least.durable ≡ self.new.durable) × (pass.new.view.least.failed ≡ self.new.failures) }
        ensures moved { OnOk result ((self.new.durable ≡ self.old.durable + self.old.batch.count) × (self.new.ends ≡ self.old.batch.ends)) }
        ensures step { OnOk result (self.new.batch.step ≡ Idle) }
        ensures durable { OnOk result (LeavesNow (λ image. Stands N.digest image (take self.new.durable (history_of pass.new.view.seen))) (D.told self.new.disk)) }
        ensures kept { OnErr result ((self.new.ends ≡ self.old.ends) × (self.new.durable ≡ self.old.durable)) }
        ensures any_moment { Leaves (StandsFrom N.digest self.old.durable (history_of pass.new.view.seen)) (D.told self.old.disk) (D.told self.new.disk) }
        ensures calls { Makes JournalError.DiskFault JournalError.Memory (calls_to_settle self.old.batch.step self.old.ends.commits) (calls_to_settle self.new.batch.step self.new.ends.commits) (D.told self.old.disk) (D.told self.new.disk) result }
        ensures counted { IsCounted (D.faults self.old.disk) (D.faults self.new.disk) self.old.failures self.new.failures result }
        ensures stopped { 0 < self.old.failures → (result ≡ Err (JournalError.Stopped self.old.failures)) × (self.new ≡ self.old) }
        ensures going { (faults : ℕ) → IsErrOf result (JournalError.Stopped faults) → 0 < self.old.failures }
    {
        let before = self.journal.failures();
        tip.fetch(&mut self.pass, pass);
        let answer = self.journal.settle();
        tip.store_durable(pass, self.journal.durable());
        put_back(tip, &mut self.pass, pass, before, self.journal.failures());
        answer
    }

    /// The value that a reference shows, as `Journal::read_value` gives it. Of a transaction of the pass's list that the
    /// pass knows to be durable it is the value that was placed, behind a failed call too.
    ///
    /// # Errors
    ///
    /// `DiskFault` is told as one failure more: the journal writes nothing from then on.
    pub fn read_value<H: Hash32, L: Law>(
        &mut self,
        alloc: Global,
        hash: &H,
        value: &ValueRef,
        tip: &Tip<L>,
        pass: &mut Pass,
    ) -> Result<Vec<u8>, ValueError>
        requires tip { tip.now.table ≡ N.table }
        requires pass { IsPassOf N.table pass.old }
        requires hash { H.digest hash.now ≡ N.digest }
        ensures later { Later pass.old pass.new }
        ensures adds { AddsFaults (self.new.failures - self.old.failures) pass.old pass.new }
        ensures looks { pass.new.view.looks ≡ pass.old.view.looks }
        ensures words { (pass.new.view.least.durable ≡ self.new.durable) × (pass.new.view.least.failed ≡ self.new.failures) }
        ensures octets { IfOk result (λ octets. IfSome (D.told self.old.disk) (λ t. octets.items ≡ shown (seen t) value.now)) }
        ensures digest { IfOk result (λ octets. N.digest octets.items ≡ value.now.hval) }
        ensures most { IfOk result (λ octets. length octets.items ≤ value.now.len) }
        ensures corrupt { IfErr result (λ error. IsCorrupt N.digest (D.told self.old.disk) value.now error) }
        ensures placed { (octets : List ℕ) → HasItemValue (take pass.old.view.least.durable pass.old.view.seen) octets value.now → IsSome (D.told self.old.disk)
            → IfOk result (λ read. read.items ≡ octets) }
        ensures sound { (octets want got : List ℕ) → HasItemValue (take pass.old.view.least.durable pass.old.view.seen) octets value.now → IsSome (D.told self.old.disk)
            → IsErrOf result (ValueError.Corrupt want got) → ⊥ }
        ensures told { D.told self.new.disk ≡ D.told self.old.disk }
        ensures kept { (self.new.ends ≡ self.old.ends) × (self.new.durable ≡ self.old.durable) × (self.new.batch ≡ self.old.batch) }
        ensures counted { IsReadCounted (D.faults self.old.disk) (D.faults self.new.disk) self.old.failures self.new.failures result }
    {
        let before = self.journal.failures();
        tip.fetch(&mut self.pass, pass);
        let answer = self.journal.read_value(alloc, hash, value);
        put_back(tip, &mut self.pass, pass, before, self.journal.failures());
        answer
    }
}

// Tells what failed, and hands the journal's role back to the pass that lies under the lock: there were `before` failures,
// and there are `now`.
fn put_back<L: Law>(tip: &Tip<L>, keeper: &mut Pass, pass: &mut Pass, before: u64, now: u64)
    requires table { pass.old.table ≡ tip.now.table }
    requires role { pass.old.view.roles.journal ≡ true }
    requires weight { 0 < pass.old.view.weight }
    requires known { before ≡ pass.old.view.least.failed }
    requires one { (now ≡ before) ⊎ (now ≡ before + 1) }
    ensures pass { (pass.new.table ≡ pass.old.table) × (pass.new.view ≡ left_of journal_role 0 (told_failures pass.old.view now)) }
    ensures keeper { (keeper.new.table ≡ pass.old.table) × (keeper.new.view ≡ right_of journal_role 0 (told_failures pass.old.view now)) }
{
    tell_failures(tip, pass, before, now);
    *keeper = tip.split(pass, journal_role(), 0);
}

// Tells that one call more of the disk has failed, where one has: there were `before`, and there are `now`.
fn tell_failures<L: Law>(tip: &Tip<L>, pass: &mut Pass, before: u64, now: u64)
    requires table { pass.old.table ≡ tip.now.table }
    requires role { pass.old.view.roles.journal ≡ true }
    requires weight { 0 < pass.old.view.weight }
    requires known { before ≡ pass.old.view.least.failed }
    requires one { (now ≡ before) ⊎ (now ≡ before + 1) }
    ensures table { pass.new.table ≡ pass.old.table }
    ensures view { pass.new.view ≡ told_failures pass.old.view now }
{
    if now == before {
        return;
    }
    tip.store_failed(pass, now);
}
