// What is durable is read: keys by a snapshot, headers, values.
ghost use Rattle.std.specs.Prelude.{◌≡◌, ◌≤◌, [], ℕ, List, length, take, IfErr, IfOk, IsErrOf, IsSome, None};
ghost use Rattle.im_model.specs.History.{header_of};
ghost use Rattle.im_seated_journal.specs.Seats.{HasItemValue};
ghost use Rattle.im_table.specs.Histories.{history_of};
ghost use Rattle.im_table.specs.Passes.{IsPassOf, Later};
ghost use Rattle.im_table.specs.References.{IsLawful};
ghost use Rattle.im_vlog.specs.Showing.{IsCorrupt};
ghost use Rattle.im_store.specs.Gains.{HasStepped, Gains};
ghost use Rattle.im_store.specs.Lists.{IsListOf};
ghost use Rattle.im_store.specs.Reading.{ExplainsHeader, ExplainsSnapshot, IsReadFault, AnswersHeader, AnswersKeys};

use crate::errors::{ProveError, SnapshotError};
use crate::store::Store;
use im_digest::Hash32;
use im_disk::disk::Disk;
use im_edge::clock::Clock;
use im_format::references::ValueRef;
use im_index::snapshot::Snapshot;
use im_model::headers::Header;
use im_table::law::Law;
use im_table::pass::Pass;
use im_table::tip_name::TipName;
use im_vlog::showing::ValueError;
use std::alloc::{AllocError, Global};
use std::sync::Wait;

impl<'h, H: Hash32, D: Disk, C: Clock, L: Law, N: TipName> Store<'h, H, D, C, L, N> {
    /// What stands of the keys behind the first `n` transactions, as a value of the caller's own, whose reads wait for nobody: they
    /// are the event Snap. It shares the index's runs, and copies none of their versions. The pass's list meets the law, as a load of the
    /// word placed tells. Where the answer is `NotYet`, `index` takes more.
    ///
    /// # Errors
    ///
    /// `Beyond` exactly where fewer transactions are durable, and else `NotYet` exactly where fewer are indexed, as loaded in the call;
    /// and `Memory`.
    pub fn snapshot<R: Wait>(
        &self,
        rt: &R,
        alloc: Global,
        pass: &mut Pass,
        n: u64,
    ) -> Result<Snapshot, SnapshotError>
        requires pass { IsPassOf N.table pass.old }
        ensures later { Later pass.old pass.new }
        ensures gains { Gains [] 0 0 pass.old pass.new }
        ensures ok { IfOk result (λ snapshot. AnswersKeys pass.old pass.new n snapshot) }
        ensures meets { IfOk result (λ _. IsLawful L.allows N.logs pass.new.view.seen) }
        ensures err { IfErr result (λ error. ExplainsSnapshot pass.old pass.new n error) }
    {
        let durable = self.tip.load_durable(pass);
        if durable < n {
            return Err(SnapshotError::Beyond { durable });
        }
        let indexed = self.tip.load_indexed(pass);
        if indexed < n {
            return Err(SnapshotError::NotYet { indexed });
        }
        let mut index = self.index.lock(rt);
        index.show(&self.tip, pass);
        self.tip.load_placed(pass);
        Ok(index.snapshot(alloc, n)?)
    }

    /// Shows all that is placed to the pass: its list is then a history that begins with what was found, and meets the law. It copies
    /// nothing and takes no memory.
    pub fn show<R: Wait>(&self, rt: &R, pass: &mut Pass)
        requires pass { IsPassOf N.table pass.old }
        ensures later { Later pass.old pass.new }
        ensures gains { Gains [] 0 0 pass.old pass.new }
        ensures list { IsListOf L.allows N.digest N.logs N.found pass.new.view.seen }
    {
        let mut book = self.book.lock(rt);
        book.show(&self.tip, pass);
    }

    /// A copy of the header of transaction `k`, from 1: the event Prove, for a header. Nothing is hashed.
    ///
    /// # Errors
    ///
    /// `Order`, of zeros, exactly where `k` is 0; else `Beyond` exactly where fewer transactions are durable, as loaded in the call; and
    /// `Memory`.
    pub fn header<R: Wait>(
        &self,
        rt: &R,
        alloc: Global,
        pass: &mut Pass,
        k: u64,
    ) -> Result<Header, ProveError>
        requires pass { IsPassOf N.table pass.old }
        ensures later { Later pass.old pass.new }
        ensures gains { Gains [] 0 0 pass.old pass.new }
        ensures ok { IfOk result (λ header. AnswersHeader N.digest pass.old pass.new k header) }
        ensures list { IfOk result (λ _. IsListOf L.allows N.digest N.logs N.found pass.new.view.seen) }
        ensures err { IfErr result (λ error. ExplainsHeader pass.old pass.new k error) }
    {
        if k == 0 {
            return Err(ProveError::Order { s: 0, t: 0 });
        }
        let durable = self.tip.load_durable(pass);
        if durable < k {
            return Err(ProveError::Beyond { durable });
        }
        Ok(self.copy_header(rt, alloc, pass, k)?)
    }

    // A copy of the header of a durable transaction.
    pub(super) fn copy_header<R: Wait>(
        &self,
        rt: &R,
        alloc: Global,
        pass: &mut Pass,
        k: u64,
    ) -> Result<Header, AllocError>
        requires pass { IsPassOf N.table pass.old }
        requires some { 1 ≤ k }
        requires durable { k ≤ pass.old.view.least.durable }
        ensures follows { HasStepped 0 pass.old pass.new }
        ensures loads { (pass.new.view.looks.durable ≡ pass.old.view.looks.durable) × (pass.new.view.looks.failed ≡ pass.old.view.looks.failed) }
        ensures seen { k ≤ length pass.new.view.seen }
        ensures list { IsListOf L.allows N.digest N.logs N.found pass.new.view.seen }
        ensures header { IfOk result (λ header. header ≡ header_of N.digest (history_of pass.new.view.seen) k) }
    {
        let mut book = self.book.lock(rt);
        book.show(&self.tip, pass);
        let headers = book.headers();
        let at = k as usize - 1;
        headers[at].try_clone(alloc)
    }

    /// The value that a reference shows, read from its log under the journal's lock: one read of the disk, and one hash. Of a
    /// transaction of the pass's list that the pass knows to be durable it is the entry's value, where disks of this kind tell what they
    /// hold; of any other reference octets of the reference's digest.
    ///
    /// # Errors
    ///
    /// `Corrupt` with the digest of octets that aren't the value's, which never comes for a durable transaction of the pass's list. That they
    /// are those at the reference's place is the journal's to say: no clause here names the disk. `DiskFault` where the disk failed in this
    /// call, of which the pass then knows: the journal writes nothing from then on. `Memory`.
    pub fn resolve<R: Wait>(
        &self,
        rt: &R,
        alloc: Global,
        pass: &mut Pass,
        value: &ValueRef,
    ) -> Result<Vec<u8>, ValueError>
        requires pass { IsPassOf N.table pass.old }
        ensures later { Later pass.old pass.new }
        ensures own { (pass.new.view.own ≡ pass.old.view.own) × (pass.new.view.leaves ≡ pass.old.view.leaves) }
        ensures fault { IsErrOf result ValueError.DiskFault → IsReadFault pass.old pass.new }
        ensures others { (IsErrOf result ValueError.DiskFault → ⊥) → pass.new.view.faults ≡ pass.old.view.faults }
        ensures digest { IfOk result (λ octets. N.digest octets.items ≡ value.now.hval) }
        ensures placed { (octets : List ℕ) → HasItemValue (take pass.old.view.least.durable pass.old.view.seen) octets value.now
            → ((disk : D) → IsSome (D.told disk)) → IfOk result (λ read. read.items ≡ octets) }
        ensures sound { (octets want got : List ℕ) → HasItemValue (take pass.old.view.least.durable pass.old.view.seen) octets value.now
            → ((disk : D) → IsSome (D.told disk)) → IsErrOf result (ValueError.Corrupt want got) → ⊥ }
        // Whatever the disk is: the octets have this other digest.
        ensures corrupt { IfErr result (λ error. IsCorrupt N.digest None value.now error) }
    {
        let mut journal = self.journal.lock(rt);
        let read = journal.read_value(alloc, self.hash, value, &self.tip, pass);
        self.tip.load_failed(pass);
        read
    }
}
