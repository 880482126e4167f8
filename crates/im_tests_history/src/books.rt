//! The headers of a book, computed from its transactions, as they are worked by hand.

ghost use Rattle.std.specs.Prelude.{◌≡◌, ◌+◌, ◌<◌, ◌≤◌, length, IfOk, OnOk};
ghost use Rattle.im_book.specs.Booked.{last_bl, IsBook};
ghost use Rattle.im_digest.specs.Digests.{sum_digest};
ghost use Rattle.im_model.specs.History.{IsHistory};

use crate::values::{are, digest, setting};
use im_book::book::Book;
use im_digest::{D32, Sum};
use im_entry::digests::entry_root;
use im_model::headers::Header;
use im_model::transactions::Transaction;
use std::alloc::{AllocError, Global};
use std::test::Fail;

// The root of the entries that set these keys to these values.
fn root_of(alloc: Global, pairs: &[(&[u8], &[u8])]) -> Result<D32, Fail> {
    let prepared = setting(alloc, pairs, Vec::new(alloc))?;
    let root = entry_root(alloc, &Sum, prepared.entries());
    drop(prepared);
    Ok(root?)
}

// The digests of a=1, b=2 and c=3 are 93, 95 and 97. A leaf hashes 00 and its digest, so one leaf's root is
// 93. The first two give 1 + 93 + 95, which is 29 modulo 256, and with the third 1 + 29 + 97, which is c1,
// in hex.
fn roots_of_entries(alloc: Global) -> Result<bool, Fail> {
    let pairs: &[(&[u8], &[u8])] = &[(b"a", b"1"), (b"b", b"2"), (b"c", b"3")];
    Ok(root_of(alloc, &pairs[..1])? == digest(0x93) && root_of(alloc, pairs)? == digest(0xc1))
}

// Sets `k` to this value in a transaction behind these, at the time 0, over the first `bl` of them.
fn set_behind(
    alloc: Global,
    history: &mut Vec<Transaction>,
    value: &[u8],
    bl: u64,
) -> Result<(), Fail>
    requires history { IsHistory history.old.items }
    requires room { length history.old.items < 1048576 }
    requires over { (last_bl history.old.items ≤ bl) × (bl ≤ length history.old.items) }
    ensures history { OnOk result (IsHistory history.new.items) }
    ensures more { OnOk result (length history.new.items ≡ length history.old.items + 1) }
    ensures last { OnOk result (last_bl history.new.items ≡ bl) }
{
    let (entries, _) = setting(alloc, &[(b"k", value)], Vec::new(alloc))?.into_parts();
    history.push(Transaction { ts: 0, entries, bl })?;
    Ok(())
}

// Three transactions, each over the tree of all before it: `k` is set to `abc`, and twice to `2`.
fn three_over_growing_trees(alloc: Global) -> Result<Vec<Transaction>, Fail>
    ensures history { IfOk result (λ history. IsHistory history.items) }
    ensures three { IfOk result (λ history. length history.items ≡ 3) }
{
    let mut history = Vec::new(alloc);
    set_behind(alloc, &mut history, b"abc", 0)?;
    set_behind(alloc, &mut history, b"2", 1)?;
    set_behind(alloc, &mut history, b"2", 2)?;
    Ok(history)
}

// Whether these are a header's digests.
fn has_digests(header: &Header, root: u8, before: u8, eh: u8) -> bool {
    header.bl_root == digest(root) && header.prev_alh == digest(before) && header.eh == digest(eh)
}

// Whether a header has the number k, and stands over the tree of all before it.
fn has_numbers(header: &Header, k: u64) -> bool
    requires { 1 ≤ k }
{
    header.id == k
        && header.ts == 0
        && header.bl_tx_id == k - 1
        && header.version == 1
        && header.nentries == 1
        && header.md.as_slice().is_empty()
}

// Whether header k of a book, over the tree of all before it, has this root of its tree, this Alh before it, and
// this root of its entries.
fn has(book: &Book, k: u64, root: u8, before: u8, eh: u8) -> bool
    requires book { IsBook sum_digest book.now }
    requires first { 1 ≤ k }
    requires last { k ≤ length book.now.transactions }
{
    let header = book.header(k);
    has_numbers(header, k) && has_digests(header, root, before, eh)
}

// The first entry adds up to 92 in hex: 1, its key 6b and its value's digest 26; the others to 9e: 1, 6b and 32.
// With the version and the number of entries the first inner string gives 94, and with its number the Alh 95. The
// second stands over the tree of one leaf, 95: its inner string has also the tree's size and root, 136; with its
// number and the Alh before it that is 1cd, of which cd is left. The third stands over 95 and cd, whose root is 1
// and their sum: 63. Its inner string adds up to 105, and with its number and the Alh before it d5 is left.
fn are_as_worked(book: &Book) -> bool
    requires book { IsBook sum_digest book.now }
    requires three { length book.now.transactions ≡ 3 }
{
    book.len() == 3
        && are(book.alhs(), &[0x95, 0xcd, 0xd5])
        && has(book, 1, 0, 0, 0x92)
        && has(book, 2, 0x95, 0x95, 0x9e)
        && has(book, 3, 0x63, 0xcd, 0x9e)
}

fn headers_of_three(alloc: Global) -> Result<bool, Fail> {
    let book = Book::new(alloc, &Sum, three_over_growing_trees(alloc)?)?;
    let worked = are_as_worked(&book);
    drop(book);
    Ok(worked)
}

fn no_headers_of_none(alloc: Global) -> Result<bool, AllocError> {
    let book = Book::new(alloc, &Sum, Vec::new(alloc))?;
    let none = book.len() == 0 && book.headers().is_empty() && book.alhs().is_empty();
    drop(book);
    Ok(none)
}

#[test]
fn a_book_computes_the_headers_as_worked(rt: HostRuntime) -> Result<(), Fail> {
    let alloc = rt.alloc();
    let headers = headers_of_three(alloc)? && no_headers_of_none(alloc)?;
    assert!(rt; headers && roots_of_entries(alloc)?);
    Ok(())
}
