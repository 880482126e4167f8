ghost use Rattle.std.specs.Prelude.{◌≡◌, ◌<◌, ◌≤◌, ◌⊎◌, ◌+◌, ◌∷◌, ◌++◌, [], false, Some, length, FitsSigned, IfErr, IfOk, IfSome, None, OnErr, OnOk};
ghost use Rattle.std.specs.Int.{w64};
ghost use Rattle.im_edge.specs.Clocks.{AddsTimes};
ghost use mathlib.Core.List.{IsPrefix};
ghost use Rattle.im_model.specs.History.{alhs_of, IsHistory};
ghost use Rattle.im_table.specs.declared.items.LogItem.{LogItem};
ghost use Rattle.im_proof.specs.Built.{headers_of};
ghost use Rattle.im_versions.specs.Admits.{place_refusal};
ghost use Rattle.im_table.specs.Histories.{history_of, GoesOn};
ghost use Rattle.im_table.specs.Passes.{IsPassOf, IsKeeper, Later, AddsNothing, book_role};
ghost use Rattle.im_table.specs.Records.{AreRecordsOf};
ghost use Rattle.im_table.specs.References.{IsLawful};
ghost use Rattle.im_table.specs.Views.{looked_placed};
ghost use Rattle.im_tx.specs.Asked.{Asked, IsAsked};
ghost use Rattle.im_book.specs.Booked.{last_bl};
ghost use Rattle.im_seated_book.specs.Seats.{HasTimed, HaveReferences, HoldsItems, IsPlaced, IsPut, MayBePlaced};

use crate::copies::{part, records_of};
use crate::judging::judge_over;
use crate::roots::entry_root_over;
use im_book::book::Book;
use im_digest::{D32, Hash32};
use im_draft::preconditions::Pres;
use im_edge::clock::Clock;
use im_format::records::Record;
use im_format::references::Refs;
use im_header::alh;
use im_linker::linked::Linked;
use im_model::entries::Entries;
use im_model::headers::Header;
use im_model::transactions::Transaction;
use im_table::items::LogItem;
use im_table::law::Law;
use im_table::pass::Pass;
use im_table::roles::book_role;
use im_table::tip::Tip;
use im_table::tip_name::TipName;
use im_tx::prepared::Prepared;
use im_versions::refusals::PlaceError;
use im_vlog::placing::append_values;
use std::alloc::{AllocError, Global};
use std::marker::{Model, PhantomData};

/// The book of a history that threads share, with the references of its values, the clock, and the pass that has the
/// book's role: what lies under the book's lock. A clause sees the whole list of what is placed.
///
/// # Thread safety
///
/// It lies under a lock, and each call has it alone (`&mut`). The book's lock is taken behind the journal's and the
/// index's, and before the tree's, which is held too where a transaction is placed.
///
/// # Invariants
///
/// The pass has seen the whole list. The book is that of its transactions, which begin with what was found, and the value
/// logs end behind its references (`HoldsItems`). The last transaction's tree is no larger than the tree that the pass
/// knows to be linked. The clock was asked for a time once for each transaction that was placed, in their order, and
/// for nothing else (`HasTimed`).
#[derive(Drop)]
pub struct SeatedBook<C: Clock, N: TipName> {
    book: Book,
    refs: Vec<Refs>,
    ends: [u64; 4],
    logs: u8,
    clock: C,
    pass: Pass,
    of: PhantomData<N>,
}

impl<C: Clock, N: TipName> Model for SeatedBook<C, N> {
    ghost use Rattle.std.specs.Prelude.{◌≡◌, ◌≤◌, List};
    ghost use Rattle.im_table.specs.Histories.{history_of};
    ghost use Rattle.im_table.specs.Passes.{IsKeeper, book_role};
    ghost use Rattle.im_table.specs.declared.items.LogItem.{LogItem};
    ghost use Rattle.im_book.specs.Booked.{last_bl};
    ghost use Rattle.im_seated_book.specs.Seats.{HasTimed, HoldsItems};

    ghost Value = { List LogItem };

    ghost view = { λ s. s.pass.view.seen };

    ghost invariant = { λ s. IsKeeper N.table book_role s.pass × HoldsItems N.digest N.found s.pass.view.seen s.book s.refs.items s.ends
        × (last_bl s.book.transactions ≤ s.pass.view.least.linked) × HasTimed N.time (C.constant s.clock) N.given (C.given s.clock) N.found s.pass.view.seen
        × (s.logs ≡ N.logs) × (1 ≤ s.logs) × (s.logs ≤ 4) };
}

impl<C: Clock, N: TipName> SeatedBook<C, N> {
    /// This book, with the references of its values, where the value logs end behind them, the number of value logs, the
    /// clock, and the pass that has the book's role.
    pub fn new(book: Book, refs: Vec<Refs>, ends: [u64; 4], logs: u8, clock: C, pass: Pass) -> Self
        requires pass { IsKeeper N.table book_role pass }
        requires items { HoldsItems N.digest N.found pass.view.seen book refs.items ends }
        requires over { last_bl book.transactions ≤ pass.view.least.linked }
        requires timed { HasTimed N.time (C.constant clock) N.given (C.given clock) N.found pass.view.seen }
        requires logs { (logs ≡ N.logs) × (1 ≤ logs) × (logs ≤ 4) }
        ensures { result ≡ pass.view.seen }
    {
        SeatedBook {
            book,
            refs,
            ends,
            logs,
            clock,
            pass,
            of: PhantomData,
        }
    }

    /// Hands the book, the clock and the pass back.
    pub fn into_parts(self) -> (Book, C, Pass)
        ensures book { result.0.transactions ≡ history_of self }
        ensures timed { HasTimed N.time (C.constant result.1) N.given (C.given result.1) N.found self }
        ensures pass { IsKeeper N.table book_role result.2 }
        ensures seen { result.2.view.seen ≡ self }
        ensures found { GoesOn N.found self }
        ensures history { IsHistory (history_of self) }
        ensures referred { HaveReferences N.digest 1 self }
    {
        let SeatedBook {
            book,
            refs: _,
            ends: _,
            logs: _,
            clock,
            pass,
            of: _,
        } = self;
        (book, clock, pass)
    }

    /// The number of transactions that are placed.
    pub fn len(&self) -> u64
        ensures { result ≡ length self.now }
    {
        self.book.len()
    }

    /// Lends the transactions, transaction k at place k - 1.
    pub fn transactions(&self) -> &[Transaction]
        ensures { result.now ≡ history_of self.now }
    {
        self.book.transactions()
    }

    /// Lends the headers, that of transaction k at place k - 1.
    pub fn headers(&self) -> &[Header]
        ensures { result.now ≡ headers_of N.digest (history_of self.now) }
    {
        self.book.headers()
    }

    /// Lends the Alh, that of transaction k at place k - 1.
    pub fn alhs(&self) -> &[D32]
        ensures { result.now ≡ alhs_of N.digest (history_of self.now) }
    {
        self.book.alhs()
    }

    /// The records of so many transactions behind so many others, with copies of their entries and references. Its only
    /// error is want of memory.
    pub fn records(&self, alloc: Global, behind: u64, count: u64) -> Result<Vec<Record>, AllocError>
        requires within { behind + count ≤ length self.now }
        ensures count { IfOk result (λ records. length records.items ≡ count) }
        ensures records { IfOk result (λ records. AreRecordsOf N.digest self.now behind records.items) }
    {
        let transactions = part(self.book.transactions(), behind, count);
        let refs = part(self.refs.as_slice(), behind, count);
        let alhs = part(self.book.alhs(), behind, count);
        records_of(alloc, transactions, refs, alhs)
    }

    /// Shows the whole list to a pass, and answers how long it is, which is the word placed as loaded here. It is a history
    /// that begins with what was found, the law holds of it, its values lie where the rule of the value logs puts them, and
    /// its references have their digests and lengths.
    pub fn show<L: Law>(&mut self, tip: &Tip<L>, pass: &mut Pass) -> u64
        requires tip { tip.now.table ≡ N.table }
        requires pass { IsPassOf N.table pass.old }
        ensures same { self.new ≡ self.old }
        ensures later { Later pass.old pass.new }
        ensures adds { AddsNothing pass.old pass.new }
        ensures looks { pass.new.view.looks ≡ (looked_placed pass.old.view result).looks }
        ensures seen { (pass.new.view.seen ≡ self.new) × (result ≡ length self.new) }
        ensures durable { pass.new.view.least.durable ≤ result }
        ensures over { last_bl (history_of self.new) ≤ pass.new.view.least.linked }
        ensures found { GoesOn N.found self.new }
        ensures history { IsHistory (history_of self.new) }
        ensures meets { IsLawful L.allows tip.now.logs self.new }
        ensures referred { HaveReferences N.digest 1 self.new }
    {
        tip.fetch(&mut self.pass, pass);
        let placed = tip.load_placed(pass);
        self.pass = tip.split(pass, book_role(), 0);
        placed
    }

    /// Places what was prepared behind all that is placed, where the limit isn't reached and the preconditions hold, and
    /// answers its number. It stands over the tree of this moment, whose lock is held too, and its time is the clock's,
    /// which is asked only where it is placed. Whatever the answer is, the pass has then seen the whole list, behind which
    /// the preconditions were judged; it loads the word placed once. It hashes each value, each entry and the header
    /// once, and the nodes of the tree's root where something was linked since it was made. Where there are preconditions,
    /// the index of keys is brought up first: each key that was placed since the last such call is copied, once in all;
    /// with b the number of binary digits of the number of versions, each precondition then costs at most b * (b + 1)
    /// comparisons of keys.
    ///
    /// # Errors
    ///
    /// What `Book::judge` answers, and `Memory`. After an error nothing is placed.
    pub fn place<H: Hash32, L: Law>(
        &mut self,
        alloc: Global,
        hash: &H,
        prepared: Prepared,
        tree: &mut Linked<N>,
        tip: &Tip<L>,
        pass: &mut Pass,
    ) -> Result<u64, PlaceError>
        requires tip { (tip.now.table ≡ N.table) × (tip.now.logs ≡ N.logs) }
        requires pass { IsPassOf N.table pass.old }
        requires hash { H.digest hash.now ≡ N.digest }
        requires law { MayBePlaced L.allows pass.old.view.seen prepared }
        ensures later { Later pass.old pass.new }
        ensures tree { tree.new ≡ tree.old }
        ensures above { IsPrefix pass.old.view.seen self.old × (pass.old.view.least.durable ≤ length self.old) }
        ensures seen { pass.new.view.seen ≡ self.new }
        ensures history { IsHistory (history_of self.old) }
        ensures placed { IfOk result (λ number. IsPlaced self.old prepared tree.new.size N.time pass.old pass.new number) }
        ensures refused { IfErr result (λ why. (why ≡ PlaceError.Memory) ⊎ (place_refusal (history_of self.old) prepared.pres ≡ Some why)) }
        ensures err { OnErr result ((self.new ≡ self.old) × AddsNothing pass.old pass.new) }
        ensures looks { pass.new.view.looks ≡ (looked_placed pass.old.view (length self.old)).looks }
    {
        self.show(tip, pass);
        let (entries, pres) = prepared.into_parts();
        self.judge(alloc, pres)?;
        let number = self.put(alloc, hash, entries, tree, tip, pass)?;
        Ok(number)
    }

    // Judges preconditions behind all that is placed, with the index of keys brought up to it where there are some.
    fn judge(&mut self, alloc: Global, pres: Pres) -> Result<(), PlaceError>
        ensures same { self.new ≡ self.old }
        ensures admitted { OnOk result (place_refusal (history_of self.old) pres ≡ None) }
        ensures refused { IfErr result (λ why. (why ≡ PlaceError.Memory) ⊎ (place_refusal (history_of self.old) pres ≡ Some why)) }
        ensures room { OnOk result (length self.old < 1048576) }
    {
        judge_over(alloc, &mut self.book, pres)?;
        Ok(())
    }

    // Places a transaction of these entries, for a pass that has seen the whole list.
    fn put<H: Hash32, L: Law>(
        &mut self,
        alloc: Global,
        hash: &H,
        entries: Entries,
        tree: &mut Linked<N>,
        tip: &Tip<L>,
        pass: &mut Pass,
    ) -> Result<u64, AllocError>
        requires tip { (tip.now.table ≡ N.table) × (tip.now.logs ≡ N.logs) }
        requires pass { IsPassOf N.table pass.old }
        requires seen { pass.old.view.seen ≡ self.old }
        requires hash { H.digest hash.now ≡ N.digest }
        requires room { length self.old < 1048576 }
        requires asked { (asked : Asked) × IsAsked asked × (entries ≡ asked.entries) }
        requires meets { IsLawful L.allows tip.now.logs self.old }
        requires law { (item : LogItem) → item.found ≡ false → item.tx.entries ≡ entries → L.allows (self.old ++ item ∷ []) }
        ensures later { Later pass.old pass.new }
        ensures tree { tree.new ≡ tree.old }
        ensures seen { pass.new.view.seen ≡ self.new }
        ensures placed { IfOk result (λ number. IsPut self.old entries tree.new.size N.time pass.old pass.new number) }
        ensures err { OnErr result ((self.new ≡ self.old) × (pass.new ≡ pass.old)) }
        ensures looks { pass.new.view.looks ≡ pass.old.view.looks }
    {
        let number = self.len() + 1;
        let mut ends = self.ends;
        let refs = append_values(
            alloc,
            hash,
            self.logs,
            number,
            &mut ends,
            entries.as_slice(),
        )?;
        let eh = entry_root_over(hash, entries.as_slice(), refs.as_slice());
        self.book.reserve()?;
        self.refs.reserve(1)?;
        tip.fetch(&mut self.pass, pass);
        let (bl, root) = tree.under(hash, tip, pass);
        let tx = transaction_now(&mut self.clock, entries, bl);
        let header = self.book.header_for(alloc, hash, &tx, root, eh);
        let digest = alh(hash, &header);
        let item = LogItem {
            found: false,
            tx,
            refs,
        };
        tip.store_placed(pass, &item, number);
        self.pass = tip.split(pass, book_role(), 0);
        let LogItem { found: _, tx, refs } = item;
        self.book.push(tx, header, digest);
        self.refs.push_reserved(refs);
        self.ends = ends;
        Ok(number)
    }
}

// A transaction of these entries at the clock's time, over a tree of this size.
fn transaction_now<C: Clock>(clock: &mut C, entries: Entries, bl: u64) -> Transaction
    ensures writes { result.entries ≡ entries }
    ensures over { result.bl ≡ bl }
    ensures told { IfSome (C.constant clock.old) (λ time. result.ts ≡ time) }
    ensures given { AddsTimes (C.given clock.old) (C.given clock.new) (result.ts ∷ []) }
    ensures fits { FitsSigned w64 result.ts }
    ensures same { C.constant clock.new ≡ C.constant clock.old }
{
    let ts = clock.now();
    Transaction { ts, entries, bl }
}
