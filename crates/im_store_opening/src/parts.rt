// What a store is made of, from what was found.
ghost use Rattle.std.specs.Prelude.{◌≡◌, ◌≤◌, length, map, take, IfOk, OnOk};
ghost use Rattle.im_index.specs.Indexed.{IsIndexOf};
ghost use Rattle.im_levels.specs.Leveled.{IsLeveled};
ghost use Rattle.im_opening.specs.Opening.{IsOneHistory};
ghost use Rattle.im_table.specs.Histories.{history_of};
ghost use Rattle.im_table.specs.Views.{opener};
ghost use Rattle.im_store.specs.Found.{items_of, ArePartsOf};
ghost use Rattle.im_store_opening.specs.Made.{AreMadeOf};

use im_atree::trees::Tree;
use im_book::book::Book;
use im_digest::{D32, Hash32};
use im_format::records::Record;
use im_format::references::Refs;
use im_index::index::Index;
use im_model::transactions::Transaction;
use im_opening::found::FoundHistory;
use im_store::opened::parts::Parts;
use im_table::items::{LogItem, Opening};
use im_table::law::Law;
use im_table::pass::Pass;
use im_table::tip::Tip;
use std::alloc::{AllocError, Global};

/// The words and the parts of a store in which this was found, and whose values go to so many value logs. The leaves are hashed that the
/// found tree lacks, and the nodes above them. Its only error is want of memory.
pub(crate) fn parts_of<H: Hash32, L: Law>(
    alloc: Global,
    hash: &H,
    mut found: FoundHistory,
    logs: u8,
) -> Result<(Tip<L>, Parts), AllocError>
    requires found { IsOneHistory (H.digest hash.now) found }
    requires logs { (1 ≤ logs) × (logs ≤ 4) }
    ensures { IfOk result (λ r. ArePartsOf (H.digest hash.now) found.records.items logs r.0 r.1) }
{
    let count = found.alhs.len();
    match raise(hash, &mut found.tree, found.alhs.as_slice(), count) {
        Ok(()) => parts_over(alloc, found, logs),
        Err(error) => {
            drop(found);
            Err(error)
        }
    }
}

// The words and the parts of what was found, with its tree.
fn parts_over<L: Law>(
    alloc: Global,
    found: FoundHistory,
    logs: u8,
) -> Result<(Tip<L>, Parts), AllocError>
    requires logs { (1 ≤ logs) × (logs ≤ 4) }
    requires few { length found.records.items ≤ 1048576 }
    ensures { IfOk result (λ r. AreMadeOf found logs r.0 r.1) }
{
    let FoundHistory {
        records,
        headers,
        alhs,
        tree,
    } = found;
    match words_of(alloc, records, logs) {
        Ok((tip, made)) => {
            let RecordParts {
                pass,
                index,
                transactions,
                refs,
            } = made;
            let parts = Parts {
                pass,
                index,
                book: Book::of(alloc, transactions, headers, alhs),
                refs,
                tree,
            };
            Ok((tip, parts))
        }
        Err(error) => {
            drop(headers);
            drop(alhs);
            drop(tree);
            Err(error)
        }
    }
}

// What is made of records alone.
#[derive(Drop)]
struct RecordParts {
    // The pass that has each role and the whole weight.
    pass: Pass,
    // The index of their transactions.
    index: Index,
    // These, in order.
    transactions: Vec<Transaction>,
    // The references of their values.
    refs: Vec<Refs>,
}

// The words of a store in which these records were found, and what is made of them. Its only error is want of memory.
fn words_of<L: Law>(
    alloc: Global,
    records: Vec<Record>,
    logs: u8,
) -> Result<(Tip<L>, RecordParts), AllocError>
    requires logs { (1 ≤ logs) × (logs ≤ 4) }
    requires few { length records.items ≤ 1048576 }
    ensures tip { IfOk result (λ r. (r.0.found ≡ items_of records.items) × (r.0.logs ≡ logs)) }
    ensures pass { IfOk result (λ r. (r.1.pass.table ≡ r.0.table) × (r.1.pass.view ≡ opener (items_of records.items))) }
    ensures index { IfOk result (λ r. IsIndexOf r.1.index (history_of (items_of records.items))) }
    ensures transactions { IfOk result (λ r. r.1.transactions.items ≡ history_of (items_of records.items)) }
    ensures refs { IfOk result (λ r. r.1.refs.items ≡ map (λ item. item.refs) (items_of records.items)) }
{
    let (tip, pass, items) = opened_with(alloc, records, logs)?;
    match columns_of(alloc, items) {
        Ok((transactions, refs, index)) => {
            let made = RecordParts {
                pass,
                index,
                transactions,
                refs,
            };
            Ok((tip, made))
        }
        Err(error) => {
            drop(tip);
            drop(pass);
            Err(error)
        }
    }
}

// Adds leaves to a tree, so that it has these Alh up to an end, which is behind its own. Its only error is want of memory.
fn raise<H: Hash32>(hash: &H, tree: &mut Tree, alhs: &[D32], end: usize) -> Result<(), AllocError>
    requires tree { IsLeveled (H.digest hash.now) (take tree.old.size alhs.now) tree.old }
    requires up { tree.old.size ≤ end }
    requires within { end ≤ length alhs.now }
    ensures size { OnOk result (tree.new.size ≡ end) }
    ensures leaves { OnOk result (IsLeveled (H.digest hash.now) (take end alhs.now) tree.new) }
{
    let start = tree.size() as usize;
    tree.extend(hash, &alhs[start..end])?;
    Ok(())
}

// The words of a store in which these records were found, with the pass that has each role, and the items.
fn opened_with<L: Law>(
    alloc: Global,
    records: Vec<Record>,
    logs: u8,
) -> Result<(Tip<L>, Pass, Vec<LogItem>), AllocError>
    requires logs { (1 ≤ logs) × (logs ≤ 4) }
    ensures items { IfOk result (λ r. r.2.items ≡ items_of records.items) }
    ensures tip { IfOk result (λ r. (r.0.found ≡ items_of records.items) × (r.0.logs ≡ logs)) }
    ensures pass { IfOk result (λ r. (r.1.table ≡ r.0.table) × (r.1.view ≡ opener (items_of records.items))) }
{
    let opening = Opening {
        found: found_items(alloc, records)?,
        logs,
    };
    match Tip::open(alloc, &opening) {
        Ok((tip, pass)) => {
            let Opening { found, logs: _ } = opening;
            Ok((tip, pass, found))
        }
        Err(error) => {
            drop(opening);
            Err(error)
        }
    }
}

// The items of records that were found.
fn found_items(alloc: Global, records: Vec<Record>) -> Result<Vec<LogItem>, AllocError>
    ensures { IfOk result (λ items. items.items ≡ items_of records.items) }
{
    let mut items = Vec::with_capacity(alloc, records.len())?;
    for record in records {
        let Record { tx, refs, alh: _ } = record;
        items.push(LogItem {
            found: true,
            tx,
            refs,
        })?;
    }
    Ok(items)
}

// The transactions of items, their references, and the index of the transactions.
fn columns_of(
    alloc: Global,
    items: Vec<LogItem>,
) -> Result<(Vec<Transaction>, Vec<Refs>, Index), AllocError>
    requires { length items.items ≤ 1048576 }
    ensures transactions { IfOk result (λ r. r.0.items ≡ history_of items.items) }
    ensures refs { IfOk result (λ r. r.1.items ≡ map (λ item. item.refs) items.items) }
    ensures index { IfOk result (λ r. IsIndexOf r.2 (history_of items.items)) }
{
    let (transactions, refs) = parted(alloc, items)?;
    match Index::of(alloc, transactions.as_slice()) {
        Ok(index) => Ok((transactions, refs, index)),
        Err(error) => {
            drop(transactions);
            drop(refs);
            Err(error)
        }
    }
}

// The transactions of items, and their references.
fn parted(alloc: Global, items: Vec<LogItem>) -> Result<(Vec<Transaction>, Vec<Refs>), AllocError>
    ensures transactions { IfOk result (λ r. r.0.items ≡ history_of items.items) }
    ensures refs { IfOk result (λ r. r.1.items ≡ map (λ item. item.refs) items.items) }
{
    let mut transactions = Vec::with_capacity(alloc, items.len())?;
    let mut references = Vec::with_capacity(alloc, items.len())?;
    for item in items {
        let LogItem { found: _, tx, refs } = item;
        transactions.push(tx)?;
        references.push(refs)?;
    }
    Ok((transactions, references))
}
