ghost use Rattle.std.specs.Prelude.{◌≡◌, ◌<◌, ◌≤◌, All, IfOk, None, Some};
ghost use Rattle.im_table.specs.Passes.{IsPassOf};

use im_digest::Hash32;
use im_disk::disk::Disk;
use im_draft::drafts::{Attrs, Draft};
use im_draft::preconditions::Pres;
use im_draft::refusals::PrepareError;
use im_edge::clock::FixedClock;
use im_octet::octets::Octets;
use im_store::opened::Opened;
use im_store::store::Store;
use im_store_opening::opening::open;
use im_table::law::Free;
use im_table::pass::Pass;
use im_table::tip_name::TipName;
use im_tx::prepare::prepare;
use im_tx::prepared::Prepared;
use std::alloc::{AllocError, Global};
use std::marker::Brand;
use std::sync::Wait;
use std::thread::{Threads, for_each_mut};

type Open<'h, H, D> = Opened<'h, H, D, FixedClock, Free>;

type Shared<'h, H, D, N> = Store<'h, H, D, FixedClock, Free, N>;

/// Why nothing was measured.
#[derive(Clone, Copy, Debug)]
pub enum NotRun {
    /// The disk isn't opened as a store.
    NotOpened,
    /// Memory ran out.
    Memory,
}

/// Opens a disk as a store of one value log, and has so many threads, 1 to 1000, commit, each of them `each` times: how many of the
/// commits were durable, and the disk.
pub fn run<H: Hash32 + Sync, D: Disk + Send, R: Threads + Wait + Sync>(
    rt: &R,
    alloc: Global,
    hash: &H,
    disk: D,
    threads: u32,
    each: u64,
) -> Result<(u64, D), NotRun>
    requires { (1 ≤ threads) × (threads ≤ 1000) }
{
    let opened = match open(rt, alloc, hash, disk, FixedClock { time: 0 }, 1) {
        Ok(opened) => opened,
        Err(failed) => {
            drop(failed);
            return Err(NotRun::NotOpened);
        }
    };
    match run_threads::<H, D, Brand, R>(rt, alloc, opened, threads, each) {
        Ok(ended) => Ok(ended),
        Err(_) => Err(NotRun::Memory),
    }
}

// So many threads commit on an opened store, which is closed then.
fn run_threads<
    H: Hash32 + Sync,
    D: Disk + Send,
    N: TipName + Send + Sync,
    R: Threads + Wait + Sync,
>(
    rt: &R,
    alloc: Global,
    opened: Open<'_, H, D>,
    threads: u32,
    each: u64,
) -> Result<(u64, D), AllocError>
    requires tip { (opened.table ≡ N.table) × (opened.found ≡ N.found) × (opened.logs ≡ N.logs) }
    requires hash { H.digest opened.hash ≡ N.digest }
    requires disk { (D.told opened.disk ≡ N.synced) × (D.faults opened.disk ≡ N.faults) }
    requires clock { (Some opened.clock.time ≡ N.time) × (None ≡ N.given) }
    requires threads { (1 ≤ threads) × (threads ≤ 1000) }
{
    let (store, mut main) = opened.named::<N>();
    let begun = store.tip(&mut main);
    let mut passes = passes_of(alloc, &store, &mut main, threads)?;
    commit_by_all(rt, alloc, &store, passes.as_mut_slice(), threads, each);
    let made = store.tip(&mut main).saturating_sub(begun);
    drop(main);
    let (disk, _) = store.close(passes);
    Ok((made, disk))
}

// So many passes, split off a pass of more weight.
fn passes_of<H: Hash32, D: Disk, N: TipName>(
    alloc: Global,
    store: &Shared<'_, H, D, N>,
    main: &mut Pass,
    count: u32,
) -> Result<Vec<Pass>, AllocError>
    requires pass { IsPassOf N.table main.old }
    requires weight { count < main.old.view.weight }
    ensures pass { IsPassOf N.table main.new }
    ensures passes { IfOk result (λ passes. All (IsPassOf N.table) passes.items) }
{
    let mut passes = Vec::new(alloc);
    for number in 0..count {
        passes.push(store.pass(main))?;
    }
    Ok(passes)
}

// Each pass commits in a thread of its own.
fn commit_by_all<
    H: Hash32 + Sync,
    D: Disk + Send,
    N: TipName + Send + Sync,
    R: Threads + Wait + Sync,
>(rt: &R, alloc: Global, store: &Shared<'_, H, D, N>, passes: &mut [Pass], threads: u32, each: u64)
    requires passes { All (IsPassOf N.table) passes.old }
    requires threads { 1 ≤ threads }
    ensures { All (IsPassOf N.table) passes.new }
{
    for_each_mut(
        rt,
        passes,
        threads as usize,
        &|_, pass: &mut Pass|
            requires { IsPassOf N.table pass.old }
            ensures { IsPassOf N.table pass.new }
        { commit_all(rt, alloc, store, pass, each) },
    );
}

// One thread commits.
fn commit_all<H: Hash32, D: Disk, N: TipName, R: Wait>(
    rt: &R,
    alloc: Global,
    store: &Shared<'_, H, D, N>,
    pass: &mut Pass,
    each: u64,
)
    requires { IsPassOf N.table pass.old }
    ensures { IsPassOf N.table pass.new }
{
    for number in 0..each {
        commit_one(rt, alloc, store, pass, number);
    }
}

// Commits what sets the key of a number, and waits until it is durable. Where that can't be, it isn't counted as durable.
fn commit_one<H: Hash32, D: Disk, N: TipName, R: Wait>(
    rt: &R,
    alloc: Global,
    store: &Shared<'_, H, D, N>,
    pass: &mut Pass,
    number: u64,
)
    requires { IsPassOf N.table pass.old }
    ensures { IsPassOf N.table pass.new }
{
    if let Ok(prepared) = setting(alloc, number) {
        drop(store.commit(rt, alloc, pass, prepared));
    }
}

// What sets a key of eight octets to a value of 100.
fn setting(alloc: Global, number: u64) -> Result<Prepared, PrepareError> {
    let draft = Draft {
        attrs: Attrs {
            deleted: false,
            non_indexable: false,
        },
        key: Octets::from_slice(alloc, &number.to_be_bytes())?,
        value: Octets::from_slice(alloc, &[118; 100])?,
    };
    let mut drafts = Vec::new(alloc);
    match drafts.push(draft) {
        Ok(()) => {}
        Err(failed) => return Err(AllocError::from(failed).into()),
    }
    prepare(alloc, drafts, Pres::from_vec(Vec::new(alloc)))
}
