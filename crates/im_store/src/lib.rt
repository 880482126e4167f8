//! A store that threads share: one history of transactions, committed by any number of threads and made durable in groups, with snapshots
//! and proofs meanwhile. It has no thread of its own: whoever embeds it calls `link`, which adds what is durable to the hash tree, and
//! `index`, without which no snapshot shows a key that was placed since.
//!
//! # The outline of a program
//!
//! It opens a disk (im_store_opening), two threads commit what was prepared (`Prepared`, of im_tx: entries and preconditions that were checked), then the
//! store shows a key, proves the second transaction from the first, and is closed. Left out are most imports, what is done about errors of
//! `index`, `link` and `prove`, and the file `Invariants.antt` that names the store (`Opened` says how). Whole programs, proved and run,
//! are in `im_tests_store`.
//!
//! ```text
//! use im_store::opened::Opened;
//! use im_store::store::Store;
//! use im_store_opening::opening::open;
//! use im_table::law::Free;
//! use std::marker::Brand;
//! use std::thread::join;
//!
//! pub fn run<H: Hash32 + Sync, D: Disk + Send, C: Clock + Drop + Send, R: Threads + Wait + Sync>(
//!     rt: &R, alloc: Global, hash: &H, disk: D, clock: C, one: Prepared, two: Prepared,
//! ) -> Option<D> {
//!     let Ok(opened) = open::<R, H, D, C, Free>(rt, alloc, hash, disk, clock, 1) else {
//!         return None;
//!     };
//!     serve::<H, D, C, Brand, R>(rt, alloc, opened, one, two)
//! }
//!
//! fn serve<H: Hash32 + Sync, D: Disk + Send, C: Clock + Drop + Send, N: TipName + Send + Sync, R: Threads + Wait + Sync>(
//!     rt: &R, alloc: Global, opened: Opened<'_, H, D, C, Free>, one: Prepared, two: Prepared,
//! ) -> Option<D>
//!     requires tip { (opened.table ≡ N.table) × (opened.found ≡ N.found) × (opened.logs ≡ N.logs) }
//!     requires hash { H.digest opened.hash ≡ N.digest }
//!     requires disk { (D.told opened.disk ≡ N.synced) × (D.faults opened.disk ≡ N.faults) }
//!     requires clock { (C.constant opened.clock ≡ N.time) × (C.given opened.clock ≡ N.given) }
//! {
//!     let (store, mut main) = opened.named::<N>();
//!     let first = store.pass(&mut main);
//!     let second = store.pass(&mut main);
//!     let shared = &store;
//!     let ((first, a), (second, b)) = both(
//!         rt,
//!         &|asked: (Pass, Prepared)| -> (Pass, Option<u64>)
//!             requires { IsPassOf N.table asked.0 }
//!             ensures { IsPassOf N.table result.0 }
//!         { commit_one(rt, alloc, shared, asked) },
//!         (first, one),
//!         (second, two),
//!     );
//!     store.end(&mut main, first);
//!     store.end(&mut main, second);
//!     let last = store.tip(&mut main);
//!     let _ = store.index(rt, alloc, &mut main, u64::MAX);
//!     let _ = store.link(rt, alloc, &mut main, u64::MAX);
//!     if let Ok(snapshot) = store.snapshot(rt, alloc, &mut main, last) {
//!         let _ = snapshot.get(alloc, b"k", last);
//!         drop(snapshot);
//!     }
//!     if a.is_some() && b.is_some() && last > 1 {
//!         drop(store.prove(rt, alloc, &mut main, last - 1, last));
//!     }
//!     let mut passes = Vec::new(alloc);
//!     passes.push(main).ok()?;
//!     let (disk, clock) = store.close(passes);
//!     drop(clock);
//!     Some(disk)
//! }
//!
//! // `join` tells nothing of closures that hold a value whose type has a lifetime, as a store's: these hold a lent function alone.
//! fn both<R: Threads, A: Send + Drop, X: Send, F: Fn(A) -> X + Sync>(rt: &R, f: &F, a: A, b: A) -> (X, X)
//!     requires first { F.pre f.now a }
//!     requires second { F.pre f.now b }
//!     ensures first { F.post f.now a result.0 }
//!     ensures second { F.post f.now b result.1 }
//! {
//!     join(
//!         rt,
//!         move || -> X
//!             requires { F.pre f.now a }
//!             ensures { F.post f.entry.now a result }
//!         { f(a) },
//!         move || -> X
//!             requires { F.pre f.now b }
//!             ensures { F.post f.entry.now b result }
//!         { f(b) },
//!     )
//! }
//!
//! fn commit_one<H: Hash32, D: Disk, C: Clock, N: TipName, R: Wait>(
//!     rt: &R, alloc: Global, store: &Store<'_, H, D, C, Free, N>, asked: (Pass, Prepared),
//! ) -> (Pass, Option<u64>)
//!     requires { IsPassOf N.table asked.0 }
//!     ensures { IsPassOf N.table result.0 }
//! {
//!     let (mut pass, what) = asked;
//!     let id = store.commit(rt, alloc, &mut pass, what).ok().map(|receipt| receipt.id);
//!     (pass, id)
//! }
//! ```
//!
//! `Brand` names the store in contracts alone, and `Free` is the law that allows each history. Under another law `commit` asks that the
//! transaction may stand behind any list that begins with the pass's, meets the law, and admits it; and what `commit`, `header`, `prove`,
//! `advance`, `item`, `show` and `close` answer tells that the list they speak of meets the law (`IsListOf`), is a history, and has a
//! reference for each value; `snapshot` tells the law. No call hands out a reference, which `resolve` takes: the rule of the value logs
//! says where the values of what was placed lie.
//!
//! # Passes
//!
//! A thread sees the history by a `Pass` of its own, which has no octets: it exists for contracts. It says which front part of the one list the
//! thread has seen, the least numbers that it knows (durable, linked, indexed, failed), the numbers of the transactions that it placed, and
//! what it linked and told. A pass never forgets, and any two of them have seen front parts of one list. So what each call answers
//! holds of that list, whatever other threads do meanwhile. A new thread gets a pass by `pass`, and gives it back by `end`. Passes share a
//! weight of 1,048,576; where passes with all of it are handed to `close`, what they placed is all that was placed. A pass that is dropped
//! takes its weight along, and then `close` can't tell that of any.
//!
//! # Locks
//!
//! There are four, taken in this order and held for:
//!
//! | lock | held for |
//! |---|---|
//! | the journal's | a batch: its writes, a sync, the write of its gate, a sync; or one read of a value |
//! | the index's | what is taken into the index, or a snapshot |
//! | the book's | a place; copies of headers, Alh and records; a proof |
//! | the tree's | its root for a place; the hashing of leaves that are linked; a proof |
//!
//! The book's lock is held for no call of the disk. So while a batch is written others place, and the next batch has all that they
//! placed, up to what memory allows: whoever gets the journal's lock writes for all. Who waits for that lock looks at the word durable some
//! thousand times before it sleeps, and goes on where its transaction is by then. No condition variable is used.
//!
//! # What calls cost
//!
//! | call | waits for | costs |
//! |---|---|---|
//! | `open` (im_store_opening) | nobody | what `im_opening::open` costs: all files read and checked, and one sync, or two and a write; and the index of all that was found |
//! | `Opened::keys` | nobody | the index's runs are shared, none is copied |
//! | `named`, `hash`, `pass`, `end`, `tip` | nobody | a few steps on words; no memory |
//! | `commit` | book and tree; then the journal, unless another thread makes it durable | each value and the root of its entries hashed once, its header by two hashes, a few nodes of the tree where it has grown; two copies of keys and values; where it has preconditions, a copy of each key that was placed since the last commit with some (once in all, merged into sorted runs), and b * (b + 1) comparisons of keys for each, with b binary digits in the number of versions; its share of a batch: 2 syncs, 3 writes and one for each value log |
//! | `settle` | book; then as `commit` | nothing where it is durable, else its share of a batch |
//! | `link` | book, tree | a copy of 32 octets, one leaf and about one node hashed for each transaction |
//! | `index` | index; book, for 64 transactions at a time | what `Index::take` costs: keys and values copied, runs merged |
//! | `snapshot` | index | the runs are shared, none is copied; its reads wait for nobody |
//! | `show` | book | a few steps on words |
//! | `header` | book | a copy of a header |
//! | `prove`, `advance`, `item` | book, tree | for each path or list four digests for each binary digit of the tree's size; two hashes for each header on the way; `item` also hashes the transaction's entries |
//! | `resolve` | journal | a length and a read asked of the disk, and one hash |
//! | `close`, `Opened::close` | nobody | no memory, and no call of the disk |
//!
//! All transactions, their headers, Alh and references stay in memory, and so does an index of their keys and values; from
//! the first commit with preconditions on an index of the keys alone, too.
//!
//! # Errors
//!
//! Each type of error says when it comes. Where a call of the disk has failed the store reads and proves what is durable, and writes
//! nothing until its disk is opened again: calls that write answer `Stopped`. That nothing is written is kept by the journal under its
//! lock (im_seated_journal); the clauses here tell which failures a call loaded, and that no writing call of a pass that knew of one fails
//! anew. Where memory runs out a call answers `Memory`, and the store goes on.
#![tactic(auto)]

pub mod answers;
pub mod errors;
pub mod laws;
pub mod opened;
pub mod store;
