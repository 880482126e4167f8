//! A store that two threads share: each commits once, by a pass of its own.

ghost use Rattle.std.specs.Prelude.{◌≡◌, None, Some};
ghost use Rattle.im_digest.specs.Digests.{sum_digest};
ghost use Rattle.im_disk.specs.Recorded.{told_by};
ghost use Rattle.im_table.specs.Passes.{IsPassOf};

use crate::stores::{Open, Shared, closed, number_of, opened, setting};
use im_digest::Sum;
use im_draft::preconditions::Pre;
use im_octet::octets::Octets;
use im_table::pass::Pass;
use im_table::tip_name::TipName;
use im_tx::prepared::Prepared;
use std::alloc::Global;
use std::marker::Brand;
use std::sync::Wait;
use std::test::Fail;
use std::thread::{Threads, join};

// What a thread is to commit, and by which pass.
#[derive(Drop)]
struct Asked {
    pass: Pass,
    what: Prepared,
}

// Commits what a thread was asked: its pass, and the number of its receipt, or 0.
fn commit_one<N: TipName, R: Wait>(
    rt: &R,
    alloc: Global,
    store: &Shared<'_, N>,
    asked: Asked,
) -> (Pass, u64)
    requires { IsPassOf N.table asked.pass }
    ensures { IsPassOf N.table result.0 }
{
    let Asked { mut pass, what } = asked;
    let id = number_of(store.commit(rt, alloc, &mut pass, what));
    (pass, id)
}

// Calls f with a on a thread of its own, or last where none can be started, and with b on this one. `join` tells nothing of closures that hold
// a value whose type has a lifetime, as a store's: those that it gets here hold a lent function alone.
fn both<R: Threads, A: Send + Drop, X: Send, F: Fn(A) -> X + Sync>(
    rt: &R,
    f: &F,
    a: A,
    b: A,
) -> (X, X)
    requires first { F.pre f.now a }
    requires second { F.pre f.now b }
    ensures first { F.post f.now a result.0 }
    ensures second { F.post f.now b result.1 }
{
    join(
        rt,
        move || -> X
            requires { F.pre f.now a }
            ensures { F.post f.entry.now a result }
        { f(a) },
        move || -> X
            requires { F.pre f.now b }
            ensures { F.post f.entry.now b result }
        { f(b) },
    )
}

// Both commits, side by side.
fn commit_both<N: TipName + Send + Sync, R: Threads + Wait + Sync>(
    rt: &R,
    alloc: Global,
    store: &Shared<'_, N>,
    one: Asked,
    two: Asked,
) -> ((Pass, u64), (Pass, u64))
    requires one { IsPassOf N.table one.pass }
    requires two { IsPassOf N.table two.pass }
    ensures one { IsPassOf N.table result.0.0 }
    ensures two { IsPassOf N.table result.1.0 }
{
    both(
        rt,
        &|asked: Asked| -> (Pass, u64)
            requires { IsPassOf N.table asked.pass }
            ensures { IsPassOf N.table result.0 }
        { commit_one(rt, alloc, store, asked) },
        one,
        two,
    )
}

// Two threads commit: the numbers of their receipts, each 0 where there is none, how many transactions are durable then, and how many calls of
// the disk failed.
fn two_threads<N: TipName + Send + Sync, R: Threads + Wait + Sync>(
    rt: &R,
    alloc: Global,
    opened: Open<'_>,
    one: Prepared,
    two: Prepared,
) -> Result<[u64; 4], Fail>
    requires tip { (opened.table ≡ N.table) × (opened.found ≡ N.found) × (opened.logs ≡ N.logs) }
    requires hash { sum_digest ≡ N.digest }
    requires disk { (Some (told_by opened.disk) ≡ N.synced) × (opened.disk.faults ≡ N.faults) }
    requires clock { (Some opened.clock.time ≡ N.time) × (None ≡ N.given) }
{
    let (store, mut pass) = opened.named::<N>();
    let other = store.pass(&mut pass);
    let one = Asked { pass, what: one };
    let two = Asked {
        pass: other,
        what: two,
    };
    let ((mut pass, a), (other, b)) = commit_both(rt, alloc, &store, one, two);
    let durable = store.tip(&mut pass);
    store.end(&mut pass, other);
    let disk = closed(alloc, store, pass)?;
    let faults = disk.faults();
    drop(disk);
    Ok([a, b, durable, faults])
}

// What sets a key of one octet, which must be missing.
fn new_key(alloc: Global, key: u8) -> Result<Prepared, Fail> {
    let missing = Pre::Missing {
        key: Octets::from_slice(alloc, &[key])?,
    };
    setting(alloc, &[key], b"v", vec![in alloc; missing]?)
}

fn run_two<R: Threads + Wait + Sync>(
    rt: &R,
    alloc: Global,
    key: u8,
    fails: u64,
) -> Result<[u64; 4], Fail> {
    let one = new_key(alloc, b'k')?;
    let two = new_key(alloc, key)?;
    match opened(rt, alloc, &Sum, &[fails]) {
        Ok(opened) => two_threads::<Brand, R>(rt, alloc, opened, one, two),
        Err(failed) => {
            drop(one);
            drop(two);
            Err(failed)
        }
    }
}

// The key that is asked for beside k; the call that fails, or none (0); the numbers of both receipts, in either order, of which the greater is
// durable; and how many calls failed. Of two who ask for one missing key one has it, and where the disk fails at once, neither has a receipt.
static THREADS: &[(u8, u64, u64, u64, u64)] = &[
    (b'k', 0, 0, 1, 0),
    (b'l', 0, 1, 2, 0),
    (b'l', 4, 0, 0, 1),
];

#[test]
fn two_threads_commit_over_one_store(rt: HostRuntime) -> Result<(), Fail> {
    for (key, fails, low, high, faults) in THREADS {
        let told = run_two(&rt, rt.alloc(), *key, *fails)?;
        assert!(rt;
            told == [*low, *high, *high, *faults] || told == [*high, *low, *high, *faults],
            "key {key}, call {fails}"
        );
    }
    Ok(())
}
