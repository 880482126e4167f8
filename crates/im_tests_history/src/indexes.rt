//! What an index and its snapshots tell of keys, as runs and as one list: what the plain program does.

ghost use Rattle.std.specs.Prelude.{◌≡◌, ◌≤◌, ◌<◌, List, length, IfOk};
ghost use Rattle.im_model.specs.declared.transactions.Transaction.{Transaction};
ghost use Rattle.im_index.specs.Indexed.{IsIndexOf, IsSnapshotOf};
ghost use Rattle.im_plain.specs.Listed.{IsListOf};

use crate::reads::{FRONTS, HIDDEN, told_plainly, write_all, write_last};
use crate::values::{FOUR, Write, history_of};
use im_index::index::Index;
use im_index::snapshot::Snapshot;
use im_index::steps::Steps;
use im_model::transactions::Transaction;
use im_plain::index::PlainIndex;
use im_versions::view::KvView;
use std::alloc::{AllocError, Global};
use std::marker::Brand;
use std::sync::ledger::{Blank, Ledger};
use std::test::Fail;

// Transactions with overwrites, deletions and hidden entries.
static TWELVE: &[&[Write]] = &[
    &[(b"", b"k", b"1")],
    &[(b"", b"j", b"2")],
    &[(b"", b"k", b"3"), (b"", b"ka", b"3")],
    &[(b"\x00", b"k", b"")],
    &[(b"\x02", b"k", b"5")],
    &[(b"", b"kab", b"6")],
    &[(b"\x00", b"j", b""), (b"", b"k", b"7")],
    &[(b"\x00\x02", b"k", b"")],
    &[(b"", b"ka", b"9")],
    &[(b"\x00", b"ka", b"")],
    &[(b"", b"j", b"11")],
    &[(b"\x02", b"z", b"12"), (b"", b"k", b"12")],
];

static KEYS: &[&[u8]] = &[
    b"", b"a", b"ab", b"abc", b"abcd", b"b", b"j", b"k", b"ka", b"kab", b"kk", b"z",
];

// What a view tells of a key after the first n transactions.
fn told_by<V: KvView>(alloc: Global, view: &V, key: &[u8], n: u64) -> Result<Vec<u8>, Fail>
    requires { (history : List Transaction) × V.stands view.now history × (n ≤ length history) }
{
    let mut text = Vec::new(alloc);
    write_last(alloc, &mut text, view.get(alloc, key, n)?)?;
    write_all(alloc, &mut text, view.versions(alloc, key, n)?)?;
    write_all(alloc, &mut text, view.scan(alloc, key, n)?)?;
    Ok(text)
}

// Whether it is what the plain program tells.
fn agrees_on<V: KvView>(
    alloc: Global,
    view: &V,
    history: &[Transaction],
    n: usize,
    key: &[u8],
) -> Result<bool, Fail>
    requires stands { V.stands view.now history.now }
    requires within { n ≤ length history.now }
{
    let told = told_by(alloc, view, key, n as u64)?;
    Ok(told.as_slice() == told_plainly(alloc, &history[..n], key)?.as_slice())
}

// Whether a view tells of each key, after each number of transactions, what the plain program does.
fn agrees<V: KvView>(alloc: Global, view: &V, history: &[Transaction]) -> Result<bool, Fail>
    requires { V.stands view.now history.now }
{
    for n in 0..history.len() + 1 {
        for key in KEYS {
            if !agrees_on(alloc, view, history, n, key)? {
                return Ok(false);
            }
        }
    }
    Ok(true)
}

// The index of a history.
fn index_of(alloc: Global, history: &[Transaction]) -> Result<Index, AllocError>
    requires { length history.now ≤ 1048576 }
    ensures { IfOk result (λ index. IsIndexOf index history.now) }
{
    let mut index = Index::new(alloc);
    for tx in history {
        index.take(alloc, tx)?;
    }
    Ok(index)
}

// The index of a history as one list.
fn list_of(alloc: Global, history: &[Transaction]) -> Result<PlainIndex, AllocError>
    requires { length history.now ≤ 1048576 }
    ensures { IfOk result (λ index. IsListOf index history.now) }
{
    let mut index = PlainIndex::new(alloc);
    for tx in history {
        index.take(alloc, tx)?;
    }
    Ok(index)
}

// What a snapshot tells of a key by the calls that count their steps.
fn told_counted<L: Ledger>(
    alloc: Global,
    snapshot: &Snapshot,
    key: &[u8],
    n: u64,
    blank: Blank,
) -> Result<Vec<u8>, Fail>
    requires name { blank.name ≡ L.name }
    requires parts { blank.parts ≡ L.parts }
    requires some { 0 < blank.parts }
    requires stands { (history : List Transaction) × IsSnapshotOf snapshot.now history × (n ≤ length history) }
{
    let mut steps = Steps::<L>::new(blank);
    let mut text = Vec::new(alloc);
    let last = snapshot.get_steps(alloc, key, n, &mut steps)?;
    write_last(alloc, &mut text, last)?;
    let versions = snapshot.versions_steps(alloc, key, n, &mut steps)?;
    write_all(alloc, &mut text, versions)?;
    let shown = snapshot.scan_steps(alloc, key, n, &mut steps)?;
    write_all(alloc, &mut text, shown)?;
    Ok(text)
}

// Whether they tell what the plain program does.
fn counted_agrees_on(
    alloc: Global,
    snapshot: &Snapshot,
    history: &[Transaction],
    n: usize,
    key: &[u8],
) -> Result<bool, Fail>
    requires stands { IsSnapshotOf snapshot.now history.now }
    requires within { n ≤ length history.now }
{
    let told = told_counted::<Brand>(alloc, snapshot, key, n as u64, Blank::new(1))?;
    Ok(told.as_slice() == told_plainly(alloc, &history[..n], key)?.as_slice())
}

// Whether they do so of each key.
fn counted_agrees(alloc: Global, snapshot: &Snapshot, history: &[Transaction]) -> Result<bool, Fail>
    requires { IsSnapshotOf snapshot.now history.now }
{
    for key in KEYS {
        if !counted_agrees_on(alloc, snapshot, history, history.len(), key)? {
            return Ok(false);
        }
    }
    Ok(true)
}

// Whether a snapshot tells what the plain program does, by both kinds of calls.
fn snapshot_agrees(
    alloc: Global,
    snapshot: &Snapshot,
    history: &[Transaction],
) -> Result<bool, Fail>
    requires { IsSnapshotOf snapshot.now history.now }
{
    Ok(agrees(alloc, snapshot, history)? && counted_agrees(alloc, snapshot, history)?)
}

// Whether the snapshot after so many transactions does.
fn snapshot_at_agrees(
    alloc: Global,
    index: &Index,
    history: &[Transaction],
    n: usize,
) -> Result<bool, Fail>
    requires index { IsIndexOf index.now history.now }
    requires within { n ≤ length history.now }
{
    let snapshot = index.snapshot(alloc, n as u64)?;
    let same = snapshot_agrees(alloc, &snapshot, &history[..n]);
    drop(snapshot);
    same
}

// Whether the snapshot after each number of transactions does.
fn snapshots_agree(alloc: Global, index: &Index, history: &[Transaction]) -> Result<bool, Fail>
    requires { IsIndexOf index.now history.now }
{
    for n in 0..history.len() + 1 {
        if !snapshot_at_agrees(alloc, index, history, n)? {
            return Ok(false);
        }
    }
    Ok(true)
}

// Whether an index and its snapshots tell what the plain program does.
fn both_agree(alloc: Global, index: &Index, history: &[Transaction]) -> Result<bool, Fail>
    requires { IsIndexOf index.now history.now }
{
    Ok(agrees(alloc, index, history)? && snapshots_agree(alloc, index, history)?)
}

// Whether what the index as one list was after so many transactions does.
fn list_at_agrees(
    alloc: Global,
    list: &PlainIndex,
    history: &[Transaction],
    n: usize,
) -> Result<bool, Fail>
    requires list { IsListOf list.now history.now }
    requires within { n ≤ length history.now }
{
    let before = list.snapshot(alloc, n as u64)?;
    let same = agrees(alloc, &before, &history[..n]);
    drop(before);
    same
}

// Whether the index as one list and what it was after all but one of the transactions do.
fn list_agrees(alloc: Global, list: &PlainIndex, history: &[Transaction]) -> Result<bool, Fail>
    requires { IsListOf list.now history.now }
{
    if history.is_empty() {
        return agrees(alloc, list, history);
    }
    Ok(agrees(alloc, list, history)? && list_at_agrees(alloc, list, history, history.len() - 1)?)
}

fn index_of_agrees(alloc: Global, history: &[Transaction]) -> Result<bool, Fail>
    requires { length history.now ≤ 1048576 }
{
    let index = index_of(alloc, history)?;
    let same = both_agree(alloc, &index, history);
    drop(index);
    same
}

fn index_at_once_agrees(alloc: Global, history: &[Transaction]) -> Result<bool, Fail>
    requires { length history.now ≤ 1048576 }
{
    let index = Index::of(alloc, history)?;
    let same = both_agree(alloc, &index, history);
    drop(index);
    same
}

fn list_of_agrees(alloc: Global, history: &[Transaction]) -> Result<bool, Fail>
    requires { length history.now ≤ 1048576 }
{
    let list = list_of(alloc, history)?;
    let same = list_agrees(alloc, &list, history);
    drop(list);
    same
}

// Whether each form of the index of a history does.
fn each_form_agrees(alloc: Global, history: &[Transaction]) -> Result<bool, Fail> {
    if history.len() > 1_048_576 {
        return Ok(false);
    }
    Ok(
        index_of_agrees(alloc, history)?
            && index_at_once_agrees(alloc, history)?
            && list_of_agrees(alloc, history)?,
    )
}

// Whether those of these writes do.
fn all_agree(alloc: Global, writes: &[&[Write]]) -> Result<bool, Fail> {
    let history = history_of(alloc, writes)?;
    let same = each_form_agrees(alloc, &history);
    drop(history);
    same
}

fn each_agrees(alloc: Global) -> Result<bool, Fail> {
    Ok(
        all_agree(alloc, FOUR)?
            && all_agree(alloc, FRONTS)?
            && all_agree(alloc, HIDDEN)?
            && all_agree(alloc, TWELVE)?,
    )
}

#[test]
fn an_index_and_its_snapshots_tell_what_the_plain_program_does(
    rt: HostRuntime,
) -> Result<(), Fail> {
    assert!(rt; each_agrees(rt.alloc())?);
    Ok(())
}

// Whether a snapshot of an index tells the same when the next transaction was taken.
fn stays(
    alloc: Global,
    index: &mut Index,
    three: &[Transaction],
    next: &Transaction,
) -> Result<bool, Fail>
    requires index { IsIndexOf index.old three.now }
    requires three { length three.now ≡ 3 }
{
    let snapshot = index.snapshot(alloc, 3)?;
    let same = stays_the_same(alloc, &snapshot, index, three, next);
    drop(snapshot);
    same
}

// The same of this snapshot.
fn stays_the_same(
    alloc: Global,
    snapshot: &Snapshot,
    index: &mut Index,
    three: &[Transaction],
    next: &Transaction,
) -> Result<bool, Fail>
    requires snapshot { IsSnapshotOf snapshot.now three.now }
    requires room { index.old.taken < 1048576 }
{
    let before = index.taken() == 3 && agrees(alloc, snapshot, three)?;
    index.take(alloc, next)?;
    let after = index.taken() == 4 && snapshot.taken() == 3;
    Ok(before && after && agrees(alloc, snapshot, three)?)
}

// Whether the snapshot after three of these four transactions stays.
fn a_snapshot_of_three_stays(alloc: Global, history: &[Transaction]) -> Result<bool, Fail> {
    if history.len() != 4 {
        return Ok(false);
    }
    let mut index = index_of(alloc, &history[..3])?;
    let same = stays(alloc, &mut index, &history[..3], &history[3]);
    drop(index);
    same
}

fn a_snapshot_stays(alloc: Global) -> Result<bool, Fail> {
    let history = history_of(alloc, FOUR)?;
    let same = a_snapshot_of_three_stays(alloc, &history);
    drop(history);
    same
}

#[test]
fn a_snapshot_is_not_changed_by_what_is_taken_later(rt: HostRuntime) -> Result<(), Fail> {
    assert!(rt; a_snapshot_stays(rt.alloc())?);
    Ok(())
}
