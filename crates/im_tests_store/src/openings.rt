//! How many strings are hashed where a store is opened: each about once, though threads hash ahead of the reading, a window at a time.

ghost use Rattle.std.specs.Prelude.{◌≡◌, None, Some};
ghost use Rattle.im_digest.specs.Digests.{sum_digest};
ghost use Rattle.im_disk.specs.Recorded.{told_by};
ghost use Rattle.im_table.specs.Passes.{IsPassOf};

use crate::stores::{Open, Shared, closed, number_of, opened, setting};
use im_digest::{D32, Hash32, Sum};
use im_disk::memory::MemDisk;
use im_opening::opening::open_on;
use im_table::pass::Pass;
use im_table::tip_name::TipName;
use std::alloc::Global;
use std::marker::Brand;
use std::sync::Wait;
use std::sync::atomic::{AtomicU64, Ordering};
use std::test::Fail;
use std::thread::Threads;

// Transactions of three windows.
const TRANSACTIONS: u64 = 9_000;

// The hash that tests have, with the number of strings that it was given.
#[derive(Drop)]
struct Counting {
    calls: AtomicU64,
}

impl Hash32 for Counting {
    ghost use Rattle.std.specs.Prelude.{refl};
    ghost use Rattle.im_digest.specs.Digests.{sum_digest};

    ghost digest = { λ _. sum_digest };

    ghost size = { λ _ octets. refl };

    fn hash(&self, a: &[u8], b: &[u8], c: &[u8]) -> D32 {
        self.calls.fetch_add(1, Ordering::SeqCst);
        Sum.hash(a, b, c)
    }
}

// How many strings the check of so many transactions of one entry hashes, each of which links all before it: of each its value, its
// entry, the leaf over that, the inner digest and the Alh; a leaf and at most a node of the tree; and the nodes that its root is made of.
fn strings_of(transactions: u64) -> u64 {
    let mut strings = 0u64;
    for size in 0..transactions {
        let parts = u64::from(size.count_ones());
        strings = strings
            .saturating_add(7)
            .saturating_add(parts.saturating_sub(1));
    }
    strings
}

// Commits transactions of one entry, each of which links all before it; whether all are told their numbers.
fn grow<N: TipName, R: Wait>(
    rt: &R,
    alloc: Global,
    store: &Shared<'_, N>,
    pass: &mut Pass,
) -> Result<bool, Fail>
    requires { IsPassOf N.table pass.old }
    ensures { IsPassOf N.table pass.new }
{
    let mut all = true;
    for i in 0..TRANSACTIONS {
        let set = setting(alloc, b"k", b"v", Vec::new(alloc))?;
        all = number_of(store.commit(rt, alloc, pass, set)) == i + 1 && all;
        store.link(rt, alloc, pass, 1)?;
    }
    Ok(all)
}

// The disk of a store with these transactions.
fn grown<N: TipName, R: Wait>(rt: &R, alloc: Global, opened: Open<'_>) -> Result<MemDisk, Fail>
    requires tip { (opened.table ≡ N.table) × (opened.found ≡ N.found) × (opened.logs ≡ N.logs) }
    requires hash { sum_digest ≡ N.digest }
    requires disk { (Some (told_by opened.disk) ≡ N.synced) × (opened.disk.faults ≡ N.faults) }
    requires clock { (Some opened.clock.time ≡ N.time) × (None ≡ N.given) }
{
    let (store, mut pass) = opened.named::<N>();
    let all = grow(rt, alloc, &store, &mut pass);
    let disk = closed(alloc, store, pass);
    if all? {
        Ok(disk?)
    } else {
        drop(disk);
        Err(Fail::new("not committed"))
    }
}

// How many strings opening these files hashes, by threads that hash ahead.
fn hashed<R: Threads + Sync>(rt: &R, alloc: Global, disk: MemDisk) -> Result<u64, Fail> {
    let hash = Counting {
        calls: AtomicU64::new(0),
    };
    match open_on(rt, alloc, &hash, disk) {
        Ok(recovered) => {
            drop(recovered);
            Ok(hash.calls.load(Ordering::SeqCst))
        }
        Err(failed) => {
            drop(failed);
            Err(Fail::new("not opened"))
        }
    }
}

fn run_hashed<R: Threads + Wait + Sync>(rt: &R, alloc: Global) -> Result<u64, Fail> {
    let opened = opened(rt, alloc, &Sum, &[])?;
    let disk = grown::<Brand, R>(rt, alloc, opened)?;
    hashed(rt, alloc, disk)
}

#[test]
fn opening_hashes_each_string_about_once(rt: HostRuntime) -> Result<(), Fail> {
    let most = strings_of(TRANSACTIONS).saturating_mul(21) / 20;
    let calls = run_hashed(&rt, rt.alloc())?;
    assert!(rt; calls <= most, "{calls} strings, at most {most}");
    Ok(())
}
