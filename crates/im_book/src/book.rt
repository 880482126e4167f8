use crate::judging::judge_each;
use crate::keyed::KeyedList;
use crate::roots::{extend_to, root_of};
use im_digest::{D32, Hash32};
use im_draft::preconditions::Pres;
use im_entry::digests::entry_root;
use im_header::alh;
use im_header::next::next_header;
use im_index::steps::Steps;
use im_model::headers::Header;
use im_model::limits::MOST_TRANSACTIONS;
use im_model::transactions::Transaction;
use im_mtree::frontiers::Frontier;
use im_tx::prepared::Prepared;
use im_versions::refusals::PlaceError;
use std::alloc::{AllocError, Global};
use std::marker::{Brand, Model};
use std::sync::ledger::{Blank, Ledger};

/// Placed transactions, with the header and the Alh of each, and an index of their keys. A clause sees the three lists,
/// how many transactions the index has, and how many transactions more they have room for.
///
/// The index lags: it has the first transactions, as many as there were at the last `catch_up`, and takes memory for a
/// copy of each of their keys. Where preconditions are judged, call `catch_up` before; else it needn't be built.
///
/// # Thread safety
///
/// None of its own: one owner places. Calls that take `&self` change nothing.
///
/// # Invariants
///
/// `IsBook`, for one hash: the three lists are those of one history. `empty` and `new` begin with it, `place` keeps
/// it, where its error leaves the book as it was, and so does `push` of the next header and its Alh. `of` takes the
/// lists as they are.
#[derive(Drop)]
pub struct Book {
    placed: KeyedList,
    headers: Vec<Header>,
    alhs: Vec<D32>,
}

impl Model for Book {
    ghost use Rattle.std.specs.Prelude.{◌-◌, min, vec_capacity, vec_len};
    ghost use Rattle.im_book.specs.Booked.{Booked};

    ghost Value = { Booked };

    ghost view = { λ s. record {
      transactions = s.placed.transactions;
      headers = s.headers.items;
      alhs = s.alhs.items;
      keyed = s.placed.keyed;
      room = min s.placed.room
          (min (vec_capacity s.headers - vec_len s.headers) (vec_capacity s.alhs - vec_len s.alhs));
    } };
}

impl Book {
    ghost use Rattle.std.specs.Prelude.{◌≡◌, ◌+◌, ◌*◌, ◌<◌, ◌≤◌, ◌⊎◌, ℕ, [], ◌∷◌, ◌++◌, length, take, IfErr, IfOk, None, OnErr, OnOk, Some};
    ghost use Rattle.im_digest.specs.Digests.{Hash};
    ghost use Rattle.im_mtree.specs.Kept.{IsFrontier};
    ghost use Rattle.im_model.specs.Headers.{alh};
    ghost use Rattle.im_model.specs.History.{bl_root_of, entries_root, header_of, next_header, transaction_of, IsHistory, IsTransaction};
    ghost use Rattle.im_versions.specs.Admits.{place_refusal};
    ghost use Rattle.im_versions.specs.Versions.{all_versions};
    ghost use Rattle.im_index.specs.Runs.{HasDigits};
    ghost use Rattle.im_book.specs.Booked.{last_bl, IsBook};

    /// The book of the empty history. It takes no memory.
    pub fn empty(alloc: Global) -> Self
        ensures book { (hash : Hash) → IsBook hash result }
        ensures transactions { result.transactions ≡ [] }
    {
        Book {
            placed: KeyedList::new(alloc, Vec::new(alloc)),
            headers: Vec::new(alloc),
            alhs: Vec::new(alloc),
        }
    }

    /// The book of a history, whose headers it computes, each over the root of the tree that its transaction
    /// was placed over. It hashes each entry, value, header and leaf once. Its only error is want of memory.
    pub fn new<H: Hash32>(
        alloc: Global,
        hash: &H,
        transactions: Vec<Transaction>,
    ) -> Result<Self, AllocError>
        requires { IsHistory transactions.items }
        ensures transactions { IfOk result (λ book. book.transactions ≡ transactions.items) }
        ensures book { IfOk result (IsBook (H.digest hash.now)) }
    {
        let mut book = Book::empty(alloc);
        let mut frontier = Frontier::new();
        for tx in transactions {
            book.push_over(alloc, hash, &mut frontier, tx)?;
        }
        Ok(book)
    }

    /// The book of these transactions, the header of each, and the Alh of each, 32 octets. They aren't copied,
    /// nothing is hashed, and the index of keys has none of them. It takes no memory.
    pub fn of(
        alloc: Global,
        transactions: Vec<Transaction>,
        headers: Vec<Header>,
        alhs: Vec<D32>,
    ) -> Self
        ensures { (result.transactions ≡ transactions.items) × (result.headers ≡ headers.items) × (result.alhs ≡ alhs.items) }
    {
        Book {
            placed: KeyedList::new(alloc, transactions),
            headers,
            alhs,
        }
    }

    /// The number of transactions.
    pub fn len(&self) -> u64
        ensures { result ≡ length self.now.transactions }
    {
        self.placed.len() as u64
    }

    /// Lends the transactions, transaction k at place k - 1.
    pub fn transactions(&self) -> &[Transaction]
        ensures { result.now ≡ self.now.transactions }
    {
        self.placed.as_slice()
    }

    /// Lends transaction k, from 1.
    pub fn tx(&self, k: u64) -> &Transaction
        requires first { 1 ≤ k }
        requires last { k ≤ length self.now.transactions }
        ensures { result.now ≡ transaction_of self.now.transactions k }
    {
        &self.placed.as_slice()[k as usize - 1]
    }

    /// Lends the header of transaction k, from 1.
    pub fn header(&self, k: u64) -> &Header
        requires book { (hash : Hash) × IsBook hash self.now }
        requires first { 1 ≤ k }
        requires last { k ≤ length self.now.transactions }
        ensures { (hash : Hash) → IsBook hash self.now → result.now ≡ header_of hash self.now.transactions k }
    {
        &self.headers[k as usize - 1]
    }

    /// Lends the headers, that of transaction k at place k - 1.
    pub fn headers(&self) -> &[Header]
        ensures { result.now ≡ self.now.headers }
    {
        self.headers.as_slice()
    }

    /// Lends the Alh, that of transaction k at place k - 1.
    pub fn alhs(&self) -> &[D32]
        ensures { result.now ≡ self.now.alhs }
    {
        self.alhs.as_slice()
    }

    /// Lends the Alh of transaction k, from 1.
    pub fn alh(&self, k: u64) -> &D32
        requires book { (hash : Hash) × IsBook hash self.now }
        requires first { 1 ≤ k }
        requires last { k ≤ length self.now.transactions }
        ensures { (hash : Hash) → IsBook hash self.now → result.now ≡ alh hash (header_of hash self.now.transactions k) }
    {
        &self.alhs[k as usize - 1]
    }

    /// Brings the index of keys to the last transaction: the keys that it lacks are copied and sorted once, and merged
    /// with the others. Its only error is want of memory, and the book is then as it was.
    pub fn catch_up(&mut self, alloc: Global) -> Result<(), AllocError>
        requires few { length self.old.transactions ≤ 1048576 }
        ensures same { (self.new.transactions ≡ self.old.transactions) × (self.new.headers ≡ self.old.headers) × (self.new.alhs ≡ self.old.alhs) × (self.new.room ≡ self.old.room) }
        ensures keyed { OnOk result (self.new.keyed ≡ length self.new.transactions) }
        ensures left { OnErr result (self.new ≡ self.old) }
    {
        self.placed.catch_up(alloc)
    }

    // Judges preconditions, and counts the comparisons of keys in the index, where it has all transactions.
    fn judge_counted<L: Ledger>(&self, pres: Pres, steps: &mut Steps<L>) -> Result<(), PlaceError>
        ensures admitted { OnOk result (place_refusal self.now.transactions pres ≡ None) }
        ensures refused { IfErr result (λ why. place_refusal self.now.transactions pres ≡ Some why) }
        ensures room { OnOk result (length self.now.transactions < 1048576) }
        ensures cost { self.now.keyed ≡ length self.now.transactions → (b : ℕ) → HasDigits b (length (all_versions self.now.transactions))
            → steps.new ≤ steps.old + length pres * (b * (b + 1)) }
    {
        if self.placed.len() >= MOST_TRANSACTIONS as usize {
            return Err(PlaceError::Full);
        }
        judge_each(&self.placed, pres, steps)
    }

    /// Answers as `judge`, where the index of keys has all transactions, and counts the comparisons of keys: with b the
    /// number of binary digits of the number of versions, at most b * (b + 1) for each precondition.
    pub fn judge_steps<L: Ledger>(&self, pres: Pres, steps: &mut Steps<L>) -> Result<(), PlaceError>
        requires keyed { self.now.keyed ≡ length self.now.transactions }
        ensures admitted { OnOk result (place_refusal self.now.transactions pres ≡ None) }
        ensures refused { IfErr result (λ why. place_refusal self.now.transactions pres ≡ Some why) }
        ensures room { OnOk result (length self.now.transactions < 1048576) }
        ensures cost { (b : ℕ) → HasDigits b (length (all_versions self.now.transactions)) → steps.new ≤ steps.old + length pres * (b * (b + 1)) }
    {
        self.judge_counted(pres, steps)
    }

    // Judges preconditions, with a count that nobody reads.
    fn judge_for<L: Ledger>(&self, pres: Pres, blank: Blank) -> Result<(), PlaceError>
        requires name { blank.name ≡ L.name }
        requires parts { blank.parts ≡ L.parts }
        requires some { 0 < blank.parts }
        ensures admitted { OnOk result (place_refusal self.now.transactions pres ≡ None) }
        ensures refused { IfErr result (λ why. place_refusal self.now.transactions pres ≡ Some why) }
        ensures room { OnOk result (length self.now.transactions < 1048576) }
    {
        self.judge_counted(pres, &mut Steps::<L>::new(blank))
    }

    /// Judges preconditions against all placed transactions. It takes no memory. Where the index of keys has all
    /// transactions it costs, for each precondition, what `judge_steps` says; else a look at the entries from the last
    /// one back to its key's last version.
    ///
    /// # Errors
    ///
    /// `Full` first; else the refusal of the first precondition that doesn't hold, in the order given.
    pub fn judge(&self, pres: Pres) -> Result<(), PlaceError>
        ensures admitted { OnOk result (place_refusal self.now.transactions pres ≡ None) }
        ensures refused { IfErr result (λ why. place_refusal self.now.transactions pres ≡ Some why) }
        ensures room { OnOk result (length self.now.transactions < 1048576) }
    {
        self.judge_for::<Brand>(pres, Blank::new(1))
    }

    /// The header that a transaction has behind the others, over a tree of this root, where its entries have the
    /// root `eh`. It hashes the empty string where there are no others, else nothing, and takes no memory.
    pub fn header_for<H: Hash32>(
        &self,
        alloc: Global,
        hash: &H,
        tx: &Transaction,
        root: D32,
        eh: D32,
    ) -> Header
        requires book { IsBook (H.digest hash.now) self.now }
        requires room { length self.now.transactions < 1048576 }
        requires limits { IsTransaction (length self.now.transactions) tx.now }
        requires root { root ≡ bl_root_of (H.digest hash.now) self.now.alhs tx.now.bl }
        requires eh { eh ≡ entries_root (H.digest hash.now) tx.now.entries }
        ensures { result ≡ next_header (H.digest hash.now) self.now.alhs tx.now }
    {
        let alhs = self.alhs.as_slice();
        next_header(alloc, hash, alhs, root, tx, eh)
    }

    /// Takes memory for one transaction more, where there is no room for it. Its only error is want of memory, and
    /// the book is then as it was.
    pub fn reserve(&mut self) -> Result<(), AllocError>
        ensures room { OnOk result (1 ≤ self.new.room) }
        ensures same { (self.new.transactions ≡ self.old.transactions) × (self.new.headers ≡ self.old.headers) × (self.new.alhs ≡ self.old.alhs) }
        ensures left { OnErr result (self.new ≡ self.old) }
    {
        self.placed.reserve()?;
        self.headers.reserve(1)?;
        self.alhs.reserve(1)
    }

    /// Takes a transaction behind the others, with its header and its Alh, into the room that there is for it.
    /// It hashes nothing and takes no memory.
    pub fn push(&mut self, tx: Transaction, header: Header, digest: D32)
        requires room { 1 ≤ self.old.room }
        ensures grown { self.new.transactions ≡ self.old.transactions ++ tx ∷ [] }
        ensures headers { self.new.headers ≡ self.old.headers ++ header ∷ [] }
        ensures alhs { self.new.alhs ≡ self.old.alhs ++ digest ∷ [] }
        ensures book { (hash : Hash) → IsBook hash self.old → length self.old.transactions < 1048576 → IsTransaction (length self.old.transactions) tx
            → last_bl self.old.transactions ≤ tx.bl → header ≡ next_header hash self.old.alhs tx → digest ≡ alh hash header → IsBook hash self.new }
    {
        self.placed.push(tx);
        self.headers.push_reserved(header);
        self.alhs.push_reserved(digest);
    }

    // Takes a transaction behind the others, with the header and the Alh that it has over its tree. What is kept
    // of the last tree is brought up to that one.
    fn push_over<H: Hash32>(
        &mut self,
        alloc: Global,
        hash: &H,
        frontier: &mut Frontier,
        tx: Transaction,
    ) -> Result<(), AllocError>
        requires book { IsBook (H.digest hash.now) self.old }
        requires room { length self.old.transactions < 1048576 }
        requires limits { IsTransaction (length self.old.transactions) tx }
        requires over { last_bl self.old.transactions ≤ tx.bl }
        requires kept { IsFrontier (H.digest hash.now) (take frontier.old.size self.old.alhs) frontier.old }
        requires last { frontier.old.size ≡ last_bl self.old.transactions }
        ensures grown { OnOk result (self.new.transactions ≡ self.old.transactions ++ tx ∷ []) }
        ensures book { OnOk result (IsBook (H.digest hash.now) self.new) }
        ensures kept { OnOk result (IsFrontier (H.digest hash.now) (take frontier.new.size self.new.alhs) frontier.new) }
        ensures last { OnOk result (frontier.new.size ≡ last_bl self.new.transactions) }
    {
        extend_to(hash, frontier, self.alhs(), tx.bl as usize);
        let top = root_of(hash, frontier);
        let eh = entry_root(alloc, hash, tx.entries.as_slice())?;
        let next = self.header_for(alloc, hash, &tx, top, eh);
        let digest = alh(hash, &next);
        self.reserve()?;
        self.push(tx, next, digest);
        Ok(())
    }

    /// Places a transaction of the prepared entries behind the others, where the limit isn't reached and the
    /// preconditions hold. It gives its header. `ts` is in Unix seconds, `bl` the size of the tree that the
    /// transaction stands over, and `root` the root of that tree, 32 zeros where it is empty. It hashes the
    /// entries and the header, once.
    ///
    /// # Errors
    ///
    /// What `judge` answers, and `Memory`. After an error the book is as it was.
    pub fn place<H: Hash32>(
        &mut self,
        alloc: Global,
        hash: &H,
        prepared: Prepared,
        ts: i64,
        bl: u64,
        root: D32,
    ) -> Result<Header, PlaceError>
        requires book { IsBook (H.digest hash.now) self.old }
        requires over { (last_bl self.old.transactions ≤ bl) × (bl ≤ length self.old.transactions) }
        requires root { root ≡ bl_root_of (H.digest hash.now) self.old.alhs bl }
        ensures admitted { OnOk result (place_refusal self.old.transactions prepared.pres ≡ None) }
        ensures placed { OnOk result (self.new.transactions ≡ self.old.transactions ++ record { ts = ts; entries = prepared.entries; bl = bl } ∷ []) }
        ensures header { IfOk result (λ header. header ≡ header_of (H.digest hash.now) self.new.transactions (length self.new.transactions)) }
        ensures book { OnOk result (IsBook (H.digest hash.now) self.new) }
        ensures refused { IfErr result (λ why. (why ≡ PlaceError.Memory) ⊎ (place_refusal self.old.transactions prepared.pres ≡ Some why)) }
        ensures left { OnErr result (self.new ≡ self.old) }
    {
        let (entries, pres) = prepared.into_parts();
        self.judge(pres)?;
        let tx = Transaction { ts, entries, bl };
        let eh = entry_root(alloc, hash, tx.entries.as_slice())?;
        let header = self.header_for(alloc, hash, &tx, root, eh);
        let shown = header.try_clone(alloc)?;
        let digest = alh(hash, &header);
        self.reserve()?;
        self.push(tx, header, digest);
        Ok(shown)
    }
}
