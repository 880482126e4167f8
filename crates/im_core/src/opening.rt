// An opening.
ghost use Rattle.std.specs.Prelude.{◌≡◌, ◌≤◌, [], length, take, false, IfOk, OnOk, None};
ghost use Rattle.im_core.specs.Cores.{Follows, IsCore};
ghost use Rattle.im_core.specs.Opened.{HasFound, IsOver, MayOpen, OpensTo};
ghost use Rattle.im_disk.specs.Recorded.{told_by, unchanged};
ghost use Rattle.im_disk.specs.Records.{told_of};
ghost use Rattle.im_format.specs.declared.damages.Damage.{Damage};
ghost use Rattle.im_index.specs.Indexed.{IsIndexOf};
ghost use Rattle.im_levels.specs.Leveled.{IsLeveled};
ghost use Rattle.im_machine.specs.Machines.{Machine};
ghost use Rattle.im_machine.specs.declared.events.Event.TheVariants as on;
ghost use Rattle.im_opening.specs.Opening.{IsOneHistory};
ghost use Rattle.im_opening.specs.Reach.{txs_of};
ghost use Rattle.im_opening.specs.declared.errors.OpenError.TheVariants as fails;

use crate::cores::Core;
use crate::store::OpenStore;
use im_atree::trees::Tree;
use im_book::book::Book;
use im_digest::{D32, Hash32};
use im_disk::memory::MemDisk;
use im_format::records::Record;
use im_index::index::Index;
use im_journal::journal::Journal;
use im_machine::images::Image;
use im_machine::outputs::Output;
use im_model::transactions::Transaction;
use im_opening::errors::OpenError;
use im_opening::found::FoundHistory;
use im_opening::opening::{OpenFailed, Recovered, open};
use std::alloc::{AllocError, Global};
use std::mem;

/// What a store keeps in memory.
#[derive(Drop)]
pub(crate) struct Lists {
    /// What is placed.
    pub(crate) book: Book,
    /// The tree of what is linked.
    pub(crate) tree: Tree,
    /// The index of what is indexed.
    pub(crate) index: Index,
}

/// The store is opened, where it isn't open and its files stand for some history. The files are copied.
pub(crate) fn reopen<H: Hash32>(
    core: &mut Core,
    alloc: Global,
    hash: &H,
) -> Result<Output, AllocError>
    requires { (m : Machine) × IsCore (H.digest hash.now) core.old m }
    ensures { (m : Machine) → IsCore (H.digest hash.now) core.old m → IfOk result (λ output. Follows (H.digest hash.now) m on.Open output core.new) }
{
    let found = opened(core, alloc, hash)?;
    match found {
        Some(store) => Ok(replace(core, store)),
        None => Ok(Output::NotAllowed),
    }
}

// The store of the files, where there are files, and they stand for some history.
fn opened<H: Hash32>(core: &Core, alloc: Global, hash: &H) -> Result<Option<OpenStore>, AllocError>
    requires { (m : Machine) × IsCore (H.digest hash.now) core.now m }
    ensures { (m : Machine) → IsCore (H.digest hash.now) core.now m → IfOk result (MayOpen (H.digest hash.now) m) }
{
    match core {
        Core::Up { .. } => Ok(None),
        Core::Down { image } => open_files(alloc, hash, image),
    }
}

// The store of these files; none where they stand for no history.
fn open_files<H: Hash32>(
    alloc: Global,
    hash: &H,
    image: &Image,
) -> Result<Option<OpenStore>, AllocError>
    requires { length image.now ≤ 16 }
    ensures { IfOk result (OpensTo (H.digest hash.now) (told_of image.now [])) }
{
    let disk = disk_of(alloc, image)?;
    open_on(alloc, hash, disk)
}

// An open store takes the place of its files.
fn replace(core: &mut Core, store: OpenStore) -> Output
    ensures core { core.new ≡ Core.Up store }
    ensures told { result ≡ Output.Opened (length store.book.transactions) }
{
    let length = store.book.len();
    let before = mem::replace(core, Core::Up { store });
    drop(before);
    Output::Opened { length }
}

// A disk in memory with these files, none of whose calls is to fail.
fn disk_of(alloc: Global, image: &Image) -> Result<MemDisk, AllocError>
    requires { length image.now ≤ 16 }
    ensures { IfOk result (λ disk. disk ≡ unchanged image.now []) }
{
    let files = image.try_clone(alloc)?;
    MemDisk::from_files(alloc, files.into_vec(), Vec::new(alloc))
}

// A store opened on a disk; or none where its files stand for no history. That an opening of a disk none of whose calls is to fail
// doesn't fail isn't known of any disk: it would end the run as want of memory does.
fn open_on<H: Hash32>(
    alloc: Global,
    hash: &H,
    disk: MemDisk,
) -> Result<Option<OpenStore>, AllocError>
    ensures { IfOk result (OpensTo (H.digest hash.now) (told_by disk)) }
{
    match open(alloc, hash, disk) {
        Ok(recovered) => store_of(alloc, hash, recovered),
        Err(failed) => not_opened(failed),
    }
}

// The store of a disk that was opened: all that was found is linked and indexed.
fn store_of<H: Hash32>(
    alloc: Global,
    hash: &H,
    recovered: Recovered<MemDisk>,
) -> Result<Option<OpenStore>, AllocError>
    requires { IsOneHistory (H.digest hash.now) recovered.found }
    ensures { IfOk result (IsOver (H.digest hash.now) recovered.journal (txs_of recovered.found.records.items)) }
{
    let Recovered { journal, found } = recovered;
    match lists_of(alloc, hash, found) {
        Ok(lists) => Ok(Some(store_over(journal, lists))),
        Err(error) => {
            drop(journal);
            Err(error)
        }
    }
}

// An open store of these parts, to which no failure was told.
fn store_over(journal: Journal<MemDisk>, lists: Lists) -> OpenStore
    ensures { result ≡ record { book = lists.book; tree = lists.tree; index = lists.index; journal = journal; failures = 0; stopped = false } }
{
    let Lists { book, tree, index } = lists;
    OpenStore {
        book,
        tree,
        index,
        journal,
        failures: 0,
        stopped: false,
    }
}

// No store is opened on damaged files.
fn not_opened(failed: OpenFailed<MemDisk>) -> Result<Option<OpenStore>, AllocError>
    ensures { IfOk result (λ store. (store ≡ None) × ((damage : Damage) × (failed.error ≡ fails.Damaged damage))) }
{
    let OpenFailed { disk, error } = failed;
    drop(disk);
    match error {
        OpenError::Damaged(_) => Ok(None),
        _ => Err(AllocError),
    }
}

// What a store has in memory whose history was found: all of it is linked and indexed. Of the tree the leaves are hashed that the
// tree of the last transaction lacks. Its only error is want of memory.
fn lists_of<H: Hash32>(
    alloc: Global,
    hash: &H,
    mut found: FoundHistory,
) -> Result<Lists, AllocError>
    requires { IsOneHistory (H.digest hash.now) found }
    ensures { IfOk result (HasFound (H.digest hash.now) (txs_of found.records.items)) }
{
    match raise(hash, &mut found.tree, found.alhs.as_slice()) {
        Ok(()) => lists_over(alloc, found),
        Err(error) => {
            drop(found);
            Err(error)
        }
    }
}

// The same where the tree has all leaves.
fn lists_over(alloc: Global, found: FoundHistory) -> Result<Lists, AllocError>
    requires few { length found.records.items ≤ 1048576 }
    ensures { IfOk result (λ lists. (lists.book.transactions ≡ txs_of found.records.items) × (lists.book.headers ≡ found.headers.items) × (lists.book.alhs ≡ found.alhs.items)
        × (lists.tree ≡ found.tree) × IsIndexOf lists.index (txs_of found.records.items)) }
{
    let FoundHistory {
        records,
        headers,
        alhs,
        tree,
    } = found;
    match indexed(alloc, records) {
        Ok((transactions, index)) => Ok(Lists {
            book: Book::of(alloc, transactions, headers, alhs),
            tree,
            index,
        }),
        Err(error) => {
            drop(headers);
            drop(alhs);
            drop(tree);
            Err(error)
        }
    }
}

// The transactions of records, and their index.
fn indexed(alloc: Global, records: Vec<Record>) -> Result<(Vec<Transaction>, Index), AllocError>
    requires { length records.items ≤ 1048576 }
    ensures transactions { IfOk result (λ both. both.0.items ≡ txs_of records.items) }
    ensures index { IfOk result (λ both. IsIndexOf both.1 (txs_of records.items)) }
{
    let transactions = transactions_of(alloc, records)?;
    match Index::of(alloc, transactions.as_slice()) {
        Ok(index) => Ok((transactions, index)),
        Err(error) => {
            drop(transactions);
            Err(error)
        }
    }
}

// Raises a tree of the first of these Alh to all of them.
fn raise<H: Hash32>(hash: &H, tree: &mut Tree, alhs: &[D32]) -> Result<(), AllocError>
    requires tree { IsLeveled (H.digest hash.now) (take tree.old.size alhs.now) tree.old }
    requires within { tree.old.size ≤ length alhs.now }
    ensures { OnOk result (IsLeveled (H.digest hash.now) alhs.now tree.new) }
{
    let start = tree.size() as usize;
    tree.extend(hash, &alhs[start..])?;
    Ok(())
}

// The transactions of records.
fn transactions_of(alloc: Global, records: Vec<Record>) -> Result<Vec<Transaction>, AllocError>
    ensures { IfOk result (λ transactions. transactions.items ≡ txs_of records.items) }
{
    let mut transactions = Vec::with_capacity(alloc, records.len())?;
    for record in records {
        let Record {
            tx,
            refs: _,
            alh: _,
        } = record;
        transactions.push(tx)?;
    }
    Ok(transactions)
}
