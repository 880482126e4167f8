// Sessions on threads of their own, beside a linker and an indexer.
ghost use Rattle.std.specs.Prelude.{◌≡◌, ◌<◌, ℕ, false, length, slice_index_or};
ghost use Rattle.std.specs.List.{All};
ghost use Rattle.im_dealing.specs.Phases.{AreDone};
ghost use Rattle.im_dealing.specs.Runs.{IsDone, IsHelper, IsIdle, IsReady};

use crate::lines::run_session;
use im_dealing::sessions::Session;
use im_dealing::tidings::Tidings;
use im_digest::Hash32;
use im_disk::disk::Disk;
use im_edge::clock::Clock;
use im_edge::gate::Gate;
use im_sqllaw::law::SqlKeys;
use im_sqlmodel::engine::SqlEngine;
use im_store::store::Store;
use im_table::pass::Pass;
use im_table::tip_name::TipName;
use std::alloc::Global;
use std::sync::Wait;
use std::thread;
use std::thread::{Threads, join};

/// The most sessions that run at a time.
pub(crate) const MOST_SESSIONS: usize = 8;

// How many leaves the linker adds at a time.
const LINKED_AT_ONCE: u64 = 16;

// How many transactions the indexer takes at a time.
const INDEXED_AT_ONCE: u64 = 64;

/// What runs beside the sessions.
#[derive(Drop)]
pub(crate) struct Helpers {
    /// The pass of the linker.
    pub(crate) linker: Pass,
    /// The pass of the indexer.
    pub(crate) indexer: Pass,
    /// Whether the linker links: else lines alone do.
    pub(crate) links: bool,
}

// Links what is durable, some at a time, and once more where all sessions have ended, unless memory runs out.
fn link_on<H: Hash32, D: Disk, C: Clock, N: TipName, R: Wait>(
    rt: &R,
    alloc: Global,
    store: &Store<'_, H, D, C, SqlKeys, N>,
    tidings: &Tidings,
    mut pass: Pass,
) -> Pass
    requires { IsHelper N.table pass }
    ensures { IsHelper N.table result }
{
    tidings.tell(rt, store.tip(&mut pass));
    let mut linked = 0;
    for _ in rt.forever() {
        let ended = tidings.wait_past(rt, linked);
        let Ok(size) = store.link(rt, alloc, &mut pass, LINKED_AT_ONCE) else {
            break;
        };
        if ended {
            break;
        }
        linked = size;
    }
    pass
}

// Indexes what is durable, some at a time, and once more where all sessions have ended, unless memory runs out.
fn index_on<H: Hash32, D: Disk, C: Clock, N: TipName, R: Wait>(
    rt: &R,
    alloc: Global,
    store: &Store<'_, H, D, C, SqlKeys, N>,
    tidings: &Tidings,
    mut pass: Pass,
) -> Pass
    requires { IsIdle N.table pass }
    ensures { IsIdle N.table result }
{
    let mut indexed = 0;
    for _ in rt.forever() {
        let ended = tidings.wait_past(rt, indexed);
        let Ok(count) = store.index(rt, alloc, &mut pass, INDEXED_AT_ONCE) else {
            break;
        };
        if ended {
            break;
        }
        indexed = count;
    }
    pass
}

// The linker's work: none where lines alone link.
fn link_where<H: Hash32, D: Disk, C: Clock, N: TipName, R: Wait>(
    rt: &R,
    alloc: Global,
    store: &Store<'_, H, D, C, SqlKeys, N>,
    tidings: &Tidings,
    pass: Pass,
    links: bool,
) -> Pass
    requires { IsIdle N.table pass }
    ensures helper { IsHelper N.table result }
    ensures idle { links ≡ false → IsIdle N.table result }
{
    if links {
        link_on(rt, alloc, store, tidings, pass)
    } else {
        pass
    }
}

// Each session runs its lines on a thread of its own; where a thread can't be started, the caller runs them.
fn run_sessions<
    H: Hash32 + Sync,
    D: Disk + Send,
    C: Clock + Send,
    G: Gate + Sync,
    N: TipName + Send + Sync,
    Q: SqlEngine + Sync,
    R: Threads + Wait + Sync,
>(
    rt: &R,
    alloc: Global,
    gate: &G,
    engine: &Q,
    store: &Store<'_, H, D, C, SqlKeys, N>,
    tidings: &Tidings,
    sessions: &mut [Session],
)
    requires { All (IsReady N.found N.table) sessions.old }
    ensures len { length sessions.new ≡ length sessions.old }
    ensures done { (i : ℕ) (d : _) → i < length sessions.old → IsDone N.digest N.table (slice_index_or sessions.old i d) (slice_index_or sessions.new i d) }
{
    thread::for_each_mut(
        rt,
        sessions,
        MOST_SESSIONS,
        &|_, session: &mut Session|
            requires { IsReady N.found N.table session.old }
            ensures { IsDone N.digest N.table session.old session.new }
        { run_session(rt, alloc, gate, engine, store, tidings, session) },
    );
}

// Runs the sessions, and tells the helpers once all have ended.
fn run_all<
    H: Hash32 + Sync,
    D: Disk + Send,
    C: Clock + Send,
    G: Gate + Sync,
    N: TipName + Send + Sync,
    Q: SqlEngine + Sync,
    R: Threads + Wait + Sync,
>(
    rt: &R,
    alloc: Global,
    gate: &G,
    engine: &Q,
    store: &Store<'_, H, D, C, SqlKeys, N>,
    tidings: &Tidings,
    mut sessions: Vec<Session>,
) -> Vec<Session>
    requires { All (IsReady N.found N.table) sessions.items }
    ensures { AreDone N.digest N.table sessions.items result.items }
{
    run_sessions(
        rt,
        alloc,
        gate,
        engine,
        store,
        tidings,
        sessions.as_mut_slice(),
    );
    tidings.end(rt);
    sessions
}

// The linker and the indexer, side by side.
fn help<
    H: Hash32 + Sync,
    D: Disk + Send,
    C: Clock + Send,
    N: TipName + Send + Sync,
    R: Threads + Wait + Sync,
>(
    rt: &R,
    alloc: Global,
    store: &Store<'_, H, D, C, SqlKeys, N>,
    tidings: &Tidings,
    helpers: Helpers,
) -> (Pass, Pass)
    requires { IsIdle N.table helpers.linker × IsIdle N.table helpers.indexer }
    ensures linker { IsHelper N.table result.0 }
    ensures idle { helpers.links ≡ false → IsIdle N.table result.0 }
    ensures indexer { IsIdle N.table result.1 }
{
    let Helpers {
        linker,
        indexer,
        links,
    } = helpers;
    side_by_side(
        rt,
        &|pass: Pass| -> Pass
            requires { IsIdle N.table pass }
            ensures { IsHelper N.table result × (links ≡ false → IsIdle N.table result) }
        { link_where(rt, alloc, store, tidings, pass, links) },
        linker,
        &|pass: Pass| -> Pass
            requires { IsIdle N.table pass }
            ensures { IsIdle N.table result }
        { index_on(rt, alloc, store, tidings, pass) },
        indexer,
    )
}

/// Runs the sessions of a phase, each on a thread of its own, and beside them the linker and the indexer until all sessions have ended. No
/// thread is needed: `join` can't be refused, and where one can't be started its work is done by the caller, the sessions' first.
pub(crate) fn run_phase<
    H: Hash32 + Sync,
    D: Disk + Send,
    C: Clock + Send,
    G: Gate + Sync,
    N: TipName + Send + Sync,
    Q: SqlEngine + Sync,
    R: Threads + Wait + Sync,
>(
    rt: &R,
    alloc: Global,
    gate: &G,
    engine: &Q,
    store: &Store<'_, H, D, C, SqlKeys, N>,
    sessions: Vec<Session>,
    helpers: Helpers,
) -> (Vec<Session>, Pass, Pass)
    requires sessions { All (IsReady N.found N.table) sessions.items }
    requires helpers { IsIdle N.table helpers.linker × IsIdle N.table helpers.indexer }
    ensures done { AreDone N.digest N.table sessions.items result.0.items }
    ensures linker { IsHelper N.table result.1 }
    ensures idle { helpers.links ≡ false → IsIdle N.table result.1 }
    ensures indexer { IsIdle N.table result.2 }
{
    let phase = Tidings::new();
    let tidings = &phase;
    let ((linker, indexer), sessions) = side_by_side(
        rt,
        &|helpers: Helpers| -> (Pass, Pass)
            requires { IsIdle N.table helpers.linker × IsIdle N.table helpers.indexer }
            ensures { IsHelper N.table result.0 × (helpers.links ≡ false → IsIdle N.table result.0) × IsIdle N.table result.1 }
        { help(rt, alloc, store, tidings, helpers) },
        helpers,
        &|sessions: Vec<Session>| -> Vec<Session>
            requires { All (IsReady N.found N.table) sessions.items }
            ensures { AreDone N.digest N.table sessions.items result.items }
        { run_all(rt, alloc, gate, engine, store, tidings, sessions) },
        sessions,
    );
    (sessions, linker, indexer)
}

// Calls f with a on a thread of its own, or last where none can be started, and g with b on this one. `join` tells nothing of closures that hold a
// value whose type has a lifetime, as a store's: those that it gets here hold lent functions alone.
fn side_by_side<
    R: Threads,
    A: Send + Drop,
    B: Drop,
    X: Send,
    Y,
    F: Fn(A) -> X + Sync,
    G: Fn(B) -> Y,
>(rt: &R, f: &F, a: A, g: &G, b: B) -> (X, Y)
    requires first { F.pre f.now a }
    requires second { G.pre g.now b }
    ensures first { F.post f.now a result.0 }
    ensures second { G.post g.now b result.1 }
{
    join(
        rt,
        move || -> X
            requires { F.pre f.now a }
            ensures { F.post f.entry.now a result }
        { f(a) },
        move || -> Y
            requires { G.pre g.now b }
            ensures { G.post g.entry.now b result }
        { g(b) },
    )
}
