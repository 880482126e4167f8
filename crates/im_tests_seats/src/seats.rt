//! Two threads over the four values under their locks.

ghost use Rattle.std.specs.Prelude.{◌≡◌, ◌<◌, [], IfOk, None, Some, pos};
ghost use Rattle.im_digest.specs.Digests.{sum_digest};
ghost use Rattle.im_table.specs.Passes.{IsPassOf};
ghost use Rattle.im_table.specs.Views.{opener};
ghost use Rattle.im_seated_journal.specs.Seats.{ServesItems};

use im_atree::trees::Tree;
use im_book::book::Book;
use im_digest::Sum;
use im_disk::disk::Disk;
use im_disk::memory::MemDisk;
use im_draft::drafts::{Attrs, Draft};
use im_draft::preconditions::Pres;
use im_edge::clock::FixedClock;
use im_index::index::Index;
use im_journal::batches::Step;
use im_journal::errors::JournalError;
use im_journal::journal::Journal;
use im_linker::linked::Linked;
use im_octet::octets::Octets;
use im_opening::opening::{Recovered, open};
use im_seated_book::seated::SeatedBook;
use im_seated_index::seated::SeatedIndex;
use im_seated_journal::seated::SeatedJournal;
use im_table::items::Opening;
use im_table::law::Free;
use im_table::pass::Pass;
use im_table::roles::{book_role, index_role, journal_role, no_roles, tree_role};
use im_table::tip::Tip;
use im_table::tip_name::TipName;
use im_tx::prepare::prepare;
use im_tx::prepared::Prepared;
use std::alloc::{AllocError, Global};
use std::marker::Brand;
use std::sync::{Mutex, Wait};
use std::test::Fail;
use std::thread::{Threads, join};

// What threads share: the words, and each value under its lock.
#[derive(Drop)]
struct Shared<D: Disk, N: TipName> {
    tip: Tip<Free>,
    journal: Mutex<SeatedJournal<D, N>>,
    index: Mutex<SeatedIndex<N>>,
    book: Mutex<SeatedBook<FixedClock, N>>,
    tree: Mutex<Linked<N>>,
    ghost named: { (tip.table ≡ N.table) × (tip.logs ≡ N.logs) },
    ghost hashed: { N.digest ≡ sum_digest },
}

// A store over this journal, in which nothing is placed, with a pass of the whole weight.
fn shared_over<D: Disk, N: TipName>(
    alloc: Global,
    tip: Tip<Free>,
    mut pass: Pass,
    journal: Journal<D>,
) -> (Shared<D, N>, Pass)
    requires tip { (tip.table ≡ N.table) × (tip.logs ≡ N.logs) × (N.logs ≡ 1) }
    requires pass { (pass.table ≡ N.table) × (pass.view ≡ opener []) }
    requires names { (N.digest ≡ sum_digest) × (N.found ≡ []) × (N.time ≡ Some (pos 0)) × (N.given ≡ None) }
    requires journal { (journal.durable ≡ 0) × (journal.failures ≡ 0) }
    requires serves { ServesItems D.told D.faults N.digest N.found N.synced N.faults [] journal }
    ensures pass { IsPassOf N.table result.1 }
    ensures weight { 2 < result.1.view.weight }
{
    let keeper = tip.split(&mut pass, journal_role(), 0);
    let journal = SeatedJournal::new(journal, keeper);
    let keeper = tip.split(&mut pass, index_role(), 0);
    let index = SeatedIndex::new(Index::new(alloc), keeper);
    let keeper = tip.split(&mut pass, tree_role(), 0);
    let tree = Linked::new(Tree::new(alloc), keeper);
    let keeper = tip.split(&mut pass, book_role(), 0);
    let clock = FixedClock { time: 0 };
    let book = SeatedBook::new(
        Book::empty(alloc),
        Vec::new(alloc),
        [0; 4],
        1,
        clock,
        keeper,
    );
    let shared = Shared {
        tip,
        journal: Mutex::new(journal),
        index: Mutex::new(index),
        book: Mutex::new(book),
        tree: Mutex::new(tree),
    };
    (shared, pass)
}

// What `set` of this key to `abc` asks for.
fn asked(alloc: Global, key: &[u8]) -> Result<Prepared, Fail> {
    let attrs = Attrs {
        deleted: false,
        non_indexable: false,
    };
    let key = Octets::from_slice(alloc, key)?;
    let value = Octets::from_slice(alloc, b"abc")?;
    let drafts = vec![in alloc; Draft { attrs, key, value }]?;
    Ok(prepare(alloc, drafts, Pres::from_vec(Vec::new(alloc)))?)
}

// Places what is asked for, and tells whether it is placed.
fn place<D: Disk, N: TipName, R: Wait>(
    rt: &R,
    alloc: Global,
    shared: &Shared<D, N>,
    pass: &mut Pass,
    asked: Prepared,
) -> bool
    requires { IsPassOf N.table pass.old }
    ensures { IsPassOf N.table pass.new }
{
    let mut book = shared.book.lock(rt);
    let mut tree = shared.tree.lock(rt);
    match book.place(alloc, &Sum, asked, &mut *tree, &shared.tip, pass) {
        Ok(_) => true,
        Err(error) => {
            drop(error);
            false
        }
    }
}

// Makes durable what is placed: a batch is begun under the journal's and the book's lock, and written without the
// book's.
fn settle<D: Disk, N: TipName, R: Wait>(
    rt: &R,
    alloc: Global,
    shared: &Shared<D, N>,
    pass: &mut Pass,
) -> Result<(), JournalError>
    requires { IsPassOf N.table pass.old }
    ensures { IsPassOf N.table pass.new }
{
    let mut journal = shared.journal.lock(rt);
    if journal.journal().step() != Step::Idle {
        return Err(JournalError::Memory);
    }
    let durable = journal.journal().durable();
    let mut book = shared.book.lock(rt);
    let placed = book.show(&shared.tip, pass);
    if placed <= durable {
        return Ok(());
    }
    let records = book.records(alloc, durable, placed - durable)?;
    let begun = journal.begin(alloc, records.as_slice(), &shared.tip, pass);
    drop(book);
    drop(records);
    begun?;
    journal.stage(alloc, &shared.tip, pass)?;
    journal.seal(&shared.tip, pass)?;
    journal.settle(&shared.tip, pass)
}

// Links what is durable and isn't linked yet.
fn link<D: Disk, N: TipName, R: Wait>(
    rt: &R,
    shared: &Shared<D, N>,
    pass: &mut Pass,
) -> Result<(), AllocError>
    requires { IsPassOf N.table pass.old }
    ensures { IsPassOf N.table pass.new }
{
    let mut book = shared.book.lock(rt);
    let mut tree = shared.tree.lock(rt);
    let size = tree.show(&shared.tip, pass);
    let durable = shared.tip.load_durable(pass);
    book.show(&shared.tip, pass);
    let alhs = book.alhs();
    if size < durable && durable as usize <= alhs.len() {
        tree.link(
            &Sum,
            &alhs[size as usize..durable as usize],
            &shared.tip,
            pass,
        )?;
    }
    Ok(())
}

// Takes the next transaction that is durable and isn't indexed yet, where there is one.
fn index<D: Disk, N: TipName, R: Wait>(
    rt: &R,
    alloc: Global,
    shared: &Shared<D, N>,
    pass: &mut Pass,
) -> Result<(), AllocError>
    requires { IsPassOf N.table pass.old }
    ensures { IsPassOf N.table pass.new }
{
    let mut index = shared.index.lock(rt);
    let mut book = shared.book.lock(rt);
    let taken = index.show(&shared.tip, pass);
    let durable = shared.tip.load_durable(pass);
    book.show(&shared.tip, pass);
    if taken < durable && taken < 1_048_576 {
        index.take(
            alloc,
            &book.transactions()[taken as usize],
            &shared.tip,
            pass,
        )?;
    }
    Ok(())
}

// Places, and makes durable what is placed by then.
fn write<D: Disk, N: TipName, R: Wait>(
    rt: &R,
    alloc: Global,
    shared: &Shared<D, N>,
    mut pass: Pass,
    asked: Prepared,
) -> (Pass, bool)
    requires { IsPassOf N.table pass }
    ensures { IsPassOf N.table result.0 }
{
    let placed = place(rt, alloc, shared, &mut pass, asked);
    let settled = settle(rt, alloc, shared, &mut pass).is_ok();
    (pass, placed && settled)
}

// Places, and links and indexes what is durable by then.
fn follow<D: Disk, N: TipName, R: Wait>(
    rt: &R,
    alloc: Global,
    shared: &Shared<D, N>,
    mut pass: Pass,
    asked: Prepared,
) -> (Pass, bool)
    requires { IsPassOf N.table pass }
    ensures { IsPassOf N.table result.0 }
{
    let placed = place(rt, alloc, shared, &mut pass, asked);
    let linked = link(rt, shared, &mut pass).is_ok();
    let indexed = index(rt, alloc, shared, &mut pass).is_ok();
    (pass, placed && linked && indexed)
}

// What is left to do behind two threads that placed one transaction each, and then the five words.
fn finish<D: Disk, N: TipName, R: Wait>(
    rt: &R,
    alloc: Global,
    shared: &Shared<D, N>,
    pass: &mut Pass,
) -> Result<[u64; 5], Fail>
    requires { IsPassOf N.table pass.old }
{
    settle(rt, alloc, shared, pass)?;
    link(rt, shared, pass)?;
    index(rt, alloc, shared, pass)?;
    index(rt, alloc, shared, pass)?;
    let placed = shared.tip.load_placed(pass);
    let durable = shared.tip.load_durable(pass);
    let linked = shared.tip.load_linked(pass);
    let indexed = shared.tip.load_indexed(pass);
    let failed = shared.tip.load_failed(pass);
    Ok([placed, durable, linked, indexed, failed])
}

// Both threads place. One makes durable, and the other links and indexes.
fn run_over<D: Disk + Send, N: TipName + Send + Sync, R: Threads + Wait + Sync>(
    rt: &R,
    alloc: Global,
    shared: &Shared<D, N>,
    mut pass: Pass,
) -> Result<[u64; 5], Fail>
    requires { IsPassOf N.table pass × (2 < pass.view.weight) }
{
    let first = asked(alloc, b"a")?;
    let second = asked(alloc, b"b")?;
    let one = shared.tip.split(&mut pass, no_roles(), 1);
    let two = shared.tip.split(&mut pass, no_roles(), 1);
    let ((one, wrote), (two, followed)) = join(
        rt,
        move || -> (Pass, bool)
            requires { IsPassOf N.table one }
            ensures { IsPassOf N.table result.0 }
        { write(rt, alloc, shared, one, first) },
        move || -> (Pass, bool)
            requires { IsPassOf N.table two }
            ensures { IsPassOf N.table result.0 }
        { follow(rt, alloc, shared, two, second) },
    );
    shared.tip.join(&mut pass, one);
    shared.tip.join(&mut pass, two);
    if !wrote || !followed {
        return Err(Fail::from("a thread had no success"));
    }
    finish(rt, alloc, shared, &mut pass)
}

// The same over a journal at rest, of no transaction.
fn run_named<D: Disk + Send, N: TipName + Send + Sync, R: Threads + Wait + Sync>(
    rt: &R,
    alloc: Global,
    tip: Tip<Free>,
    pass: Pass,
    journal: Journal<D>,
) -> Result<[u64; 5], Fail>
    requires tip { (tip.table ≡ N.table) × (tip.logs ≡ N.logs) × (N.logs ≡ 1) }
    requires pass { (pass.table ≡ N.table) × (pass.view ≡ opener []) }
    requires names { (N.digest ≡ sum_digest) × (N.found ≡ []) × (N.time ≡ Some (pos 0)) × (N.given ≡ None) }
    requires journal { (journal.durable ≡ 0) × (journal.failures ≡ 0) }
    requires serves { ServesItems D.told D.faults N.digest N.found N.synced N.faults [] journal }
{
    let (shared, pass) = shared_over::<D, N>(alloc, tip, pass, journal);
    let words = run_over(rt, alloc, &shared, pass);
    drop(shared);
    words
}

// The journal of a disk of empty files.
fn journal_of<D: Disk>(alloc: Global, disk: D) -> Result<Journal<D>, Fail>
    ensures fresh { IfOk result (λ journal. (journal.durable ≡ 0) × (journal.failures ≡ 0)) }
    ensures serves { IfOk result (λ journal. ServesItems D.told D.faults sum_digest [] (D.told journal.disk) (D.faults journal.disk) [] journal) }
{
    match open(alloc, &Sum, disk) {
        Ok(opened) => {
            let Recovered { journal, found } = opened;
            if !found.records.is_empty() {
                drop(found);
                drop(journal);
                return Err(Fail::from("the disk wasn't empty"));
            }
            drop(found);
            Ok(journal)
        }
        Err(failed) => {
            drop(failed);
            Err(Fail::from("the disk wasn't opened"))
        }
    }
}

// The same over a disk of empty files.
fn run<D: Disk + Send, R: Threads + Wait + Sync>(
    rt: &R,
    alloc: Global,
    disk: D,
) -> Result<[u64; 5], Fail> {
    let opening = Opening {
        found: Vec::new(alloc),
        logs: 1,
    };
    let (tip, pass) = Tip::<Free>::open(alloc, &opening)?;
    match journal_of(alloc, disk) {
        Ok(journal) => run_named::<D, Brand, R>(rt, alloc, tip, pass, journal),
        Err(error) => {
            drop(tip);
            drop(pass);
            Err(error)
        }
    }
}

#[test]
fn two_threads_step_over_four_locks(rt: HostRuntime) -> Result<(), Fail> {
    let disk = MemDisk::new(rt.alloc(), Vec::new(rt.alloc()))?;
    assert!(rt; run(&rt, rt.alloc(), disk)? == [2, 2, 2, 2, 0]);
    Ok(())
}
