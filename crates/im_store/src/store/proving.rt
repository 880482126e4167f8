// What is durable is proved, from the headers and the tree.
ghost use Rattle.std.specs.Prelude.{◌≡◌, ◌<◌, ◌≤◌, ◌^◌, [], ℕ, length, IfErr, IfOk};
ghost use Rattle.im_model.specs.History.{transaction_of};
ghost use Rattle.im_table.specs.Histories.{history_of};
ghost use Rattle.im_table.specs.Passes.{IsPassOf, Later};
ghost use Rattle.im_store.specs.Gains.{HasStepped, Gains};
ghost use Rattle.im_store.specs.Lists.{IsListOf};
ghost use Rattle.im_store.specs.Proving.{ProvesEntry, IsProvedOver};
ghost use Rattle.im_store.specs.Reading.{AreLoaded, ExplainsEntry, ExplainsProve, AnswersAdvance, AnswersDual, AnswersEntry};
ghost use Rattle.im_proof.specs.Between.{anchor_between, dual_between};

use crate::answers::{Advance, ProvedEntry};
use crate::errors::{ItemError, ProveError};
use crate::store::Store;
use im_digest::Hash32;
use im_disk::disk::Disk;
use im_dual::anchors::anchor_between;
use im_dual::build::build;
use im_dual::entries::entry_and_path;
use im_edge::clock::Clock;
use im_linker::linked::Linked;
use im_model::transactions::Transaction;
use im_proof::proofs::DualProof;
use im_seated_book::seated::SeatedBook;
use im_table::law::Law;
use im_table::pass::Pass;
use im_table::tip_name::TipName;
use std::alloc::{AllocError, Global};
use std::sync::Wait;

impl<'h, H: Hash32, D: Disk, C: Clock, L: Law, N: TipName> Store<'h, H, D, C, L, N> {
    /// The dual proof between transactions `s` and `t`: the event Prove. It is built under the book's and the tree's lock; a path or a
    /// list costs at most four digests read or hashed for each binary digit of the tree's size, and a header on the way two hashes.
    ///
    /// # Errors
    ///
    /// `Order` exactly where `s` is 0 or above `t`; else `Beyond` exactly where fewer transactions than `t` are durable, as loaded in the
    /// call; and `Memory`.
    pub fn prove<R: Wait>(
        &self,
        rt: &R,
        alloc: Global,
        pass: &mut Pass,
        s: u64,
        t: u64,
    ) -> Result<DualProof, ProveError>
        requires pass { IsPassOf N.table pass.old }
        ensures later { Later pass.old pass.new }
        ensures gains { Gains [] 0 0 pass.old pass.new }
        ensures ok { IfOk result (λ dual. AnswersDual N.digest pass.old pass.new s t dual) }
        ensures list { IfOk result (λ _. IsListOf L.allows N.digest N.logs N.found pass.new.view.seen) }
        ensures err { IfErr result (λ error. ExplainsProve pass.old pass.new s t error) }
    {
        self.check_between(pass, s, t)?;
        Ok(self.dual_of(rt, alloc, pass, s, t)?)
    }

    /// The dual proof from transaction `s`, a client's state, to `t`, and its anchor where one is due: the event Prove. It costs what
    /// `prove` does, twice where there is an anchor.
    ///
    /// # Errors
    ///
    /// As `prove`.
    pub fn advance<R: Wait>(
        &self,
        rt: &R,
        alloc: Global,
        pass: &mut Pass,
        s: u64,
        t: u64,
    ) -> Result<Advance, ProveError>
        requires pass { IsPassOf N.table pass.old }
        ensures later { Later pass.old pass.new }
        ensures gains { Gains [] 0 0 pass.old pass.new }
        ensures ok { IfOk result (λ advance. AnswersAdvance N.digest pass.old pass.new s t advance) }
        ensures list { IfOk result (λ _. IsListOf L.allows N.digest N.logs N.found pass.new.view.seen) }
        ensures err { IfErr result (λ error. ExplainsProve pass.old pass.new s t error) }
    {
        self.check_between(pass, s, t)?;
        Ok(self.advance_of(rt, alloc, pass, s, t)?)
    }

    /// Entry `i`, from 0, of transaction `t` with its path, and the dual proof from `t` to `s`, whose header is the state: the event
    /// Prove. It costs what `prove` does, and hashes the transaction's entries and their tree.
    ///
    /// # Errors
    ///
    /// `Order` exactly where `t` is 0 or above `s`; else `Beyond` exactly where fewer transactions than `s` are durable, as loaded in the
    /// call; else `NoEntry` exactly where the transaction has no entry `i`; and `Memory`.
    pub fn item<R: Wait>(
        &self,
        rt: &R,
        alloc: Global,
        pass: &mut Pass,
        t: u64,
        i: u32,
        s: u64,
    ) -> Result<ProvedEntry, ItemError>
        requires pass { IsPassOf N.table pass.old }
        ensures later { Later pass.old pass.new }
        ensures gains { Gains [] 0 0 pass.old pass.new }
        ensures ok { IfOk result (λ item. AnswersEntry N.digest pass.old pass.new t i s item) }
        ensures list { IfOk result (λ _. IsListOf L.allows N.digest N.logs N.found pass.new.view.seen) }
        ensures err { IfErr result (λ error. ExplainsEntry pass.old pass.new t i s error) }
    {
        self.check_between(pass, t, s)?;
        let width = self.width_of(rt, pass, t);
        if i >= width {
            return Err(ItemError::NoEntry { width });
        }
        Ok(self.entry_of(rt, alloc, pass, t, i, s)?)
    }

    // The dual proof between two durable transactions.
    fn dual_of<R: Wait>(
        &self,
        rt: &R,
        alloc: Global,
        pass: &mut Pass,
        s: u64,
        t: u64,
    ) -> Result<DualProof, AllocError>
        requires pass { IsPassOf N.table pass.old }
        requires some { 1 ≤ s }
        requires order { s ≤ t }
        requires durable { t ≤ pass.old.view.least.durable }
        ensures follows { HasStepped 0 pass.old pass.new }
        ensures loads { pass.new.view.looks.durable ≡ pass.old.view.looks.durable }
        ensures seen { t ≤ length pass.new.view.seen }
        ensures list { IsListOf L.allows N.digest N.logs N.found pass.new.view.seen }
        ensures dual { IfOk result (λ dual. dual ≡ dual_between N.digest (history_of pass.new.view.seen) s t) }
    {
        let mut book = self.book.lock(rt);
        let mut tree = self.tree.lock(rt);
        self.show_both(pass, &mut book, &mut tree);
        build(alloc, self.hash, book.headers(), tree.tree(), s, t)
    }

    // The dual proof between two durable transactions, and the anchor where one is due.
    fn advance_of<R: Wait>(
        &self,
        rt: &R,
        alloc: Global,
        pass: &mut Pass,
        s: u64,
        t: u64,
    ) -> Result<Advance, AllocError>
        requires pass { IsPassOf N.table pass.old }
        requires some { 1 ≤ s }
        requires order { s ≤ t }
        requires durable { t ≤ pass.old.view.least.durable }
        ensures follows { HasStepped 0 pass.old pass.new }
        ensures loads { pass.new.view.looks.durable ≡ pass.old.view.looks.durable }
        ensures seen { t ≤ length pass.new.view.seen }
        ensures list { IsListOf L.allows N.digest N.logs N.found pass.new.view.seen }
        ensures dual { IfOk result (λ advance. advance.dual ≡ dual_between N.digest (history_of pass.new.view.seen) s t) }
        ensures anchor { IfOk result (λ advance. advance.anchor ≡ anchor_between N.digest (history_of pass.new.view.seen) s t) }
    {
        let mut book = self.book.lock(rt);
        let mut tree = self.tree.lock(rt);
        self.show_both(pass, &mut book, &mut tree);
        let dual = build(alloc, self.hash, book.headers(), tree.tree(), s, t)?;
        match anchor_between(alloc, self.hash, book.headers(), tree.tree(), s, t) {
            Ok(anchor) => Ok(Advance { dual, anchor }),
            Err(error) => {
                drop(dual);
                Err(error)
            }
        }
    }

    // How many entries a durable transaction has.
    fn width_of<R: Wait>(&self, rt: &R, pass: &mut Pass, t: u64) -> u32
        requires pass { IsPassOf N.table pass.old }
        requires some { 1 ≤ t }
        requires durable { t ≤ pass.old.view.least.durable }
        ensures follows { HasStepped 0 pass.old pass.new }
        ensures loads { pass.new.view.looks.durable ≡ pass.old.view.looks.durable }
        ensures seen { pass.old.view.least.durable ≤ length pass.new.view.seen }
        ensures width { result ≡ length (transaction_of (history_of pass.new.view.seen) t).entries }
    {
        let mut book = self.book.lock(rt);
        book.show(&self.tip, pass);
        let transactions = book.transactions();
        let at = t as usize - 1;
        entry_count(&transactions[at])
    }

    // Entry `i` of a durable transaction with its path, and the dual proof from it to another one.
    fn entry_of<R: Wait>(
        &self,
        rt: &R,
        alloc: Global,
        pass: &mut Pass,
        t: u64,
        i: u32,
        s: u64,
    ) -> Result<ProvedEntry, AllocError>
        requires pass { IsPassOf N.table pass.old }
        requires some { 1 ≤ t }
        requires order { t ≤ s }
        requires durable { (s ≤ pass.old.view.least.durable) × (t ≤ length pass.old.view.seen) }
        requires index { i < length (transaction_of (history_of pass.old.view.seen) t).entries }
        ensures follows { HasStepped 0 pass.old pass.new }
        ensures loads { pass.new.view.looks.durable ≡ pass.old.view.looks.durable }
        ensures seen { s ≤ length pass.new.view.seen }
        ensures list { IsListOf L.allows N.digest N.logs N.found pass.new.view.seen }
        ensures index { i < length (transaction_of (history_of pass.new.view.seen) t).entries }
        ensures entry { IfOk result (λ item. ProvesEntry N.digest (history_of pass.new.view.seen) t i s item) }
    {
        let mut book = self.book.lock(rt);
        let mut tree = self.tree.lock(rt);
        self.show_both(pass, &mut book, &mut tree);
        self.shown(alloc, &book, &tree, t, i, s)
    }

    // Entry `i` of transaction `t` of a book, with its path, and the dual proof from `t` to `s`.
    fn shown(
        &self,
        alloc: Global,
        book: &SeatedBook<C, N>,
        tree: &Linked<N>,
        t: u64,
        i: u32,
        s: u64,
    ) -> Result<ProvedEntry, AllocError>
        requires over { IsProvedOver N.digest book.now tree.now s }
        requires some { 1 ≤ t }
        requires order { t ≤ s }
        requires index { i < length (transaction_of (history_of book.now) t).entries }
        ensures { IfOk result (λ item. ProvesEntry N.digest (history_of book.now) t i s item) }
    {
        let dual = build(alloc, self.hash, book.headers(), tree.tree(), t, s)?;
        let transactions = book.transactions();
        let at = t as usize - 1;
        let entries = transactions[at].entries.as_slice();
        match entry_and_path(alloc, self.hash, entries, i) {
            Ok((entry, path)) => Ok(ProvedEntry {
                dual,
                entry,
                index: i,
                path,
            }),
            Err(error) => {
                drop(dual);
                Err(error)
            }
        }
    }

    // Refuses two numbers that aren't in order, or of which the greater isn't durable.
    fn check_between(&self, pass: &mut Pass, s: u64, t: u64) -> Result<(), ProveError>
        requires pass { IsPassOf N.table pass.old }
        ensures follows { HasStepped 0 pass.old pass.new }
        ensures ok { IfOk result (λ _. AreLoaded pass.old pass.new s t) }
        ensures err { IfErr result (λ error. ExplainsProve pass.old pass.new s t error) }
    {
        if s == 0 || s > t {
            return Err(ProveError::Order { s, t });
        }
        let durable = self.tip.load_durable(pass);
        if durable < t {
            return Err(ProveError::Beyond { durable });
        }
        Ok(())
    }

    // Shows the book and the tree to a pass, both of whose locks are held, so that what it knows to be durable can be proved: the tree
    // behind the book, so that it has the tree of each transaction, and the book again, so that the tree has no other ones.
    fn show_both(&self, pass: &mut Pass, book: &mut SeatedBook<C, N>, tree: &mut Linked<N>)
        requires pass { IsPassOf N.table pass.old }
        ensures same { (book.new ≡ book.old) × (tree.new ≡ tree.old) }
        ensures follows { HasStepped 0 pass.old pass.new }
        ensures loads { pass.new.view.looks.durable ≡ pass.old.view.looks.durable }
        ensures seen { pass.new.view.seen ≡ book.new }
        ensures list { IsListOf L.allows N.digest N.logs N.found pass.new.view.seen }
        ensures durable { (pass.old.view.least.durable ≤ length book.new) × (pass.old.view.least.durable ≤ length pass.new.view.seen) }
        ensures over { (n : ℕ) → 1 ≤ n → n ≤ length book.new → IsProvedOver N.digest book.new tree.new n }
    {
        book.show(&self.tip, pass);
        tree.show(&self.tip, pass);
        book.show(&self.tip, pass);
    }
}

// How many entries a transaction has.
fn entry_count(tx: &Transaction) -> u32
    requires { length tx.now.entries < 2 ^ 32 }
    ensures { result ≡ length tx.now.entries }
{
    tx.entries.as_slice().len() as u32
}
