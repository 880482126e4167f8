//! A store by one thread: what its calls answer, and what its disk holds then.

ghost use Rattle.std.specs.Prelude.{◌≡◌, None, Some};
ghost use Rattle.im_digest.specs.Digests.{sum_digest};
ghost use Rattle.im_disk.specs.Recorded.{told_by};
ghost use Rattle.im_table.specs.Passes.{IsPassOf};

use im_digest::Sum;
use im_disk::memory::MemDisk;
use im_draft::drafts::{Attrs, Draft};
use im_draft::preconditions::{Pre, Pres};
use im_edge::clock::FixedClock;
use im_format::references::ValueRef;
use im_octet::octets::Octets;
use im_store::answers::Receipt;
use im_store::errors::{CommitError, ItemError, ProveError, SettleError, SnapshotError};
use im_store::opened::Opened;
use im_store::store::Store;
use im_store_opening::opening::open;
use im_table::law::Free;
use im_table::pass::Pass;
use im_table::tip_name::TipName;
use im_tx::prepare::prepare;
use im_tx::prepared::Prepared;
use std::alloc::{AllocError, Global};
use std::marker::Brand;
use std::sync::Wait;
use std::test::Fail;
use std::thread::Threads;

pub(crate) type Open<'h> = Opened<'h, Sum, MemDisk, FixedClock, Free>;

pub(crate) type Shared<'h, N> = Store<'h, Sum, MemDisk, FixedClock, Free, N>;

// What sets a key to a value, under these preconditions.
pub(crate) fn setting(
    alloc: Global,
    key: &[u8],
    value: &[u8],
    pres: Vec<Pre>,
) -> Result<Prepared, Fail> {
    let draft = Draft {
        attrs: Attrs {
            deleted: false,
            non_indexable: false,
        },
        key: Octets::from_slice(alloc, key)?,
        value: Octets::from_slice(alloc, value)?,
    };
    let mut drafts = Vec::new(alloc);
    drafts.push(draft)?;
    Ok(prepare(alloc, drafts, Pres::from_vec(pres))?)
}

// The number of a receipt, or 0.
pub(crate) fn number_of(committed: Result<Receipt, CommitError>) -> u64 {
    match committed {
        Ok(receipt) => {
            let id = receipt.id;
            drop(receipt);
            id
        }
        Err(error) => {
            drop(error);
            0
        }
    }
}

// What a commit tells that halted: how many calls had failed before, 0 where one failed in it, and the number that was placed.
fn halt_of(committed: Result<Receipt, CommitError>) -> Option<(u64, Option<u64>)> {
    let halt = match &committed {
        Err(CommitError::DiskFault { placed }) => Some((0, *placed)),
        Err(CommitError::Stopped { faults, placed }) => Some((*faults, *placed)),
        _ => None,
    };
    drop(committed);
    halt
}

// An empty disk whose changing calls of these numbers fail, opened.
pub(crate) fn opened<'h, R: Threads + Sync>(
    rt: &R,
    alloc: Global,
    hash: &'h Sum,
    failing: &[u64],
) -> Result<Open<'h>, Fail> {
    let disk = MemDisk::new(alloc, Vec::from_slice(alloc, failing)?)?;
    match open(rt, alloc, hash, disk, FixedClock { time: 0 }, 1) {
        Ok(opened) => Ok(opened),
        Err(failed) => {
            drop(failed);
            Err(Fail::new("not opened"))
        }
    }
}

// The disk of a store that is closed by its one pass.
pub(crate) fn closed<N: TipName>(
    alloc: Global,
    store: Shared<'_, N>,
    pass: Pass,
) -> Result<MemDisk, AllocError>
    requires { IsPassOf N.table pass }
{
    match vec![in alloc; pass] {
        Ok(passes) => {
            let (disk, _) = store.close(passes);
            Ok(disk)
        }
        Err(failed) => {
            drop(failed);
            drop(store);
            Err(AllocError)
        }
    }
}

// The rows of a store with one commit: what is told before it is indexed and linked, and after.
fn grows<N: TipName, R: Wait>(
    rt: &R,
    alloc: Global,
    store: &Shared<'_, N>,
    pass: &mut Pass,
) -> Result<bool, AllocError>
    requires { IsPassOf N.table pass.old }
    ensures { IsPassOf N.table pass.new }
{
    let early = store.snapshot(rt, alloc, pass, 1).err()
        == Some(SnapshotError::NotYet { indexed: 0 });
    let beyond = store.snapshot(rt, alloc, pass, 2).err()
        == Some(SnapshotError::Beyond { durable: 1 });
    let indexed = store.index(rt, alloc, pass, 5)? == 1;
    let shown = store.snapshot(rt, alloc, pass, 1).err().is_none();
    let still = store.link(rt, alloc, pass, 0)? == 0;
    let linked = store.link(rt, alloc, pass, 9)? == 1;
    Ok(early && beyond && indexed && shown && still && linked)
}

// What is proved and refused of one commit.
fn proves<N: TipName, R: Wait>(
    rt: &R,
    alloc: Global,
    store: &Shared<'_, N>,
    pass: &mut Pass,
) -> bool
    requires { IsPassOf N.table pass.old }
    ensures { IsPassOf N.table pass.new }
{
    let header = store.header(rt, alloc, pass, 1).err().is_none();
    let none = store.header(rt, alloc, pass, 0).err() == Some(ProveError::Order { s: 0, t: 0 });
    let dual = store.prove(rt, alloc, pass, 1, 1).err().is_none();
    let advance = store.advance(rt, alloc, pass, 1, 1).err().is_none();
    let item = store.item(rt, alloc, pass, 1, 0, 1).err().is_none();
    let width = store.item(rt, alloc, pass, 1, 1, 1).err() == Some(ItemError::NoEntry { width: 1 });
    header && none && dual && advance && item && width
}

// Whether a value of one octet is read by its reference.
fn reads<N: TipName, R: Wait>(rt: &R, alloc: Global, store: &Shared<'_, N>, pass: &mut Pass) -> bool
    requires { IsPassOf N.table pass.old }
    ensures { IsPassOf N.table pass.new }
{
    let mut hval = [0; 32];
    hval[31] = 118;
    let value = ValueRef {
        hval,
        len: 1,
        log: 0,
        at: 0,
    };
    match store.resolve(rt, alloc, pass, &value) {
        Ok(octets) => octets.as_slice() == b"v".as_slice(),
        Err(_) => false,
    }
}

// One thread commits, grows, proves and reads; another pass, split off before, sees the commit.
fn one_thread<N: TipName, R: Wait>(
    rt: &R,
    alloc: Global,
    opened: Open<'_>,
    set: Prepared,
) -> Result<bool, Fail>
    requires tip { (opened.table ≡ N.table) × (opened.found ≡ N.found) × (opened.logs ≡ N.logs) }
    requires hash { sum_digest ≡ N.digest }
    requires disk { (Some (told_by opened.disk) ≡ N.synced) × (opened.disk.faults ≡ N.faults) }
    requires clock { (Some opened.clock.time ≡ N.time) × (None ≡ N.given) }
{
    let (store, mut pass) = opened.named::<N>();
    let mut other = store.pass(&mut pass);
    let first = number_of(store.commit(rt, alloc, &mut pass, set)) == 1;
    let tip = store.tip(&mut other) == 1;
    let settled = store.settle(rt, alloc, &mut other, 1).is_ok();
    let grown = grows(rt, alloc, &store, &mut pass);
    let proved = proves(rt, alloc, &store, &mut other);
    let read = reads(rt, alloc, &store, &mut pass);
    store.end(&mut pass, other);
    let disk = closed(alloc, store, pass)?;
    let calls = disk.time() == 9;
    drop(disk);
    Ok(first && tip && settled && grown? && proved && read && calls)
}

fn run_one<R: Threads + Wait + Sync>(rt: &R, alloc: Global) -> Result<bool, Fail> {
    let set = setting(alloc, b"k", b"v", Vec::new(alloc))?;
    match opened(rt, alloc, &Sum, &[]) {
        Ok(opened) => one_thread::<Brand, R>(rt, alloc, opened, set),
        Err(failed) => {
            drop(set);
            Err(failed)
        }
    }
}

#[test]
fn one_commit_is_indexed_linked_proved_and_read(rt: HostRuntime) -> Result<(), Fail> {
    assert!(rt; run_one(&rt, rt.alloc())?);
    Ok(())
}

// What a commit and those behind it are told where the write of its gate fails.
fn halts<N: TipName, R: Wait>(
    rt: &R,
    alloc: Global,
    opened: Open<'_>,
    one: Prepared,
    two: Prepared,
) -> Result<bool, Fail>
    requires tip { (opened.table ≡ N.table) × (opened.found ≡ N.found) × (opened.logs ≡ N.logs) }
    requires hash { sum_digest ≡ N.digest }
    requires disk { (Some (told_by opened.disk) ≡ N.synced) × (opened.disk.faults ≡ N.faults) }
    requires clock { (Some opened.clock.time ≡ N.time) × (None ≡ N.given) }
{
    let (store, mut pass) = opened.named::<N>();
    let fault = halt_of(store.commit(rt, alloc, &mut pass, one)) == Some((0, Some(1)));
    let stopped = halt_of(store.commit(rt, alloc, &mut pass, two)) == Some((1, Some(2)));
    let settle = store.settle(rt, alloc, &mut pass, 1) == Err(SettleError::Stopped { faults: 1 });
    let beyond = store.settle(rt, alloc, &mut pass, 3) == Err(SettleError::Beyond { placed: 2 });
    let disk = closed(alloc, store, pass)?;
    let failed = disk.faults() == 1;
    drop(disk);
    Ok(fault && stopped && settle && beyond && failed)
}

fn run_halts<R: Threads + Wait + Sync>(rt: &R, alloc: Global) -> Result<bool, Fail> {
    let one = setting(alloc, b"k", b"v", Vec::new(alloc))?;
    let two = setting(alloc, b"l", b"w", Vec::new(alloc))?;
    match opened(rt, alloc, &Sum, &[8]) {
        Ok(opened) => halts::<Brand, R>(rt, alloc, opened, one, two),
        Err(failed) => {
            drop(one);
            drop(two);
            Err(failed)
        }
    }
}

#[test]
fn behind_a_call_of_the_disk_that_failed_nothing_is_written(rt: HostRuntime) -> Result<(), Fail> {
    assert!(rt; run_halts(&rt, rt.alloc())?);
    Ok(())
}

// The files of `set k=abc` at second 0: the record's length and its Alh, the batch and its gate, and the value.
fn holds_its_octets(disk: &MemDisk, gate: u8) -> bool {
    disk.file(0).len() == 110
        && disk.file(0).last() == Some(&0x95)
        && disk.file(1).len() == 26
        && disk.file(1).first() == Some(&gate)
        && disk.file(2) == b"abc".as_slice()
}

// Whether a commit tells what it should: number 1, by a receipt, or by a fault where a call fails.
fn is_told(committed: Result<Receipt, CommitError>, fails: bool) -> bool {
    if fails {
        halt_of(committed) == Some((0, Some(1)))
    } else {
        number_of(committed) == 1
    }
}

// A commit of `set k=abc` over an empty disk, by how it was answered: whether the disk holds it, by so many calls, of which three are its opening's.
fn leaves<N: TipName, R: Wait>(
    rt: &R,
    alloc: Global,
    opened: Open<'_>,
    set: Prepared,
    fails: bool,
    calls: u64,
    gate: u8,
) -> Result<bool, Fail>
    requires tip { (opened.table ≡ N.table) × (opened.found ≡ N.found) × (opened.logs ≡ N.logs) }
    requires hash { sum_digest ≡ N.digest }
    requires disk { (Some (told_by opened.disk) ≡ N.synced) × (opened.disk.faults ≡ N.faults) }
    requires clock { (Some opened.clock.time ≡ N.time) × (None ≡ N.given) }
{
    let (store, mut pass) = opened.named::<N>();
    let told = is_told(store.commit(rt, alloc, &mut pass, set), fails);
    let disk = closed(alloc, store, pass)?;
    let holds = holds_its_octets(&disk, gate) && disk.time() == calls;
    drop(disk);
    Ok(told && holds)
}

// The call that fails, or none (0); how many are made; and what stands at the gate then: a transaction whose gate isn't written,
// one whose gate isn't made durable, and one that is.
static GATES: &[(u64, u64, u8)] = &[(8, 8, 0), (9, 9, 1), (0, 9, 1)];

fn run_leaves<R: Threads + Wait + Sync>(
    rt: &R,
    alloc: Global,
    fails: u64,
    calls: u64,
    gate: u8,
) -> Result<bool, Fail> {
    let set = setting(alloc, b"k", b"abc", Vec::new(alloc))?;
    match opened(rt, alloc, &Sum, &[fails]) {
        Ok(opened) => leaves::<Brand, R>(rt, alloc, opened, set, fails > 0, calls, gate),
        Err(failed) => {
            drop(set);
            Err(failed)
        }
    }
}

#[test]
fn a_commit_leaves_its_octets_and_a_gate_that_fails_is_a_fault(
    rt: HostRuntime,
) -> Result<(), Fail> {
    for (fails, calls, gate) in GATES {
        assert!(rt;
            run_leaves(&rt, rt.alloc(), *fails, *calls, *gate)?,
            "call {fails}"
        );
    }
    Ok(())
}
