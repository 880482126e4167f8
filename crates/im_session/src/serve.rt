ghost use Rattle.std.specs.Prelude.{◌≡◌, ◌≢◌, ◌≤◌, AllPairs, [], length, vec_capacity};
ghost use Rattle.im_dealing.specs.Dealing.{AreNamed};
ghost use Rattle.im_dealing.specs.Found.{IsFoundKept};
ghost use Rattle.im_dealing.specs.Gathered.{IsWholePass};
ghost use Rattle.im_dealing.specs.Scripts.{RunsPhase, RunsPhases};
ghost use Rattle.im_script.specs.Script.{lines_of, names_of};
ghost use Rattle.im_session.specs.Served.{Serves};
ghost use Rattle.im_store.specs.Names.{naming_of};

use crate::play::play;
use im_dealing::errors::{LineError, Stopped};
use im_dealing::writing::tell;
use im_digest::Hash32;
use im_disk::disk::Disk;
use im_edge::clock::Clock;
use im_edge::gate::Gate;
use im_edge::sink::Sink;
use im_octet::octets::Octets;
use im_script::phases::{Phase, Script};
use im_sqllaw::law::SqlKeys;
use im_sqllaw::laws::a_list_is_kept;
use im_sqlmodel::engine::SqlEngine;
use im_store::opened::Opened;
use im_store::store::Store;
use im_table::pass::Pass;
use im_table::tip_name::TipName;
use std::alloc::Global;
use std::sync::Wait;
use std::thread::Threads;

/// What a script left: the disk and the clock, and why it ended before its end, if it did.
#[derive(Drop)]
pub struct Served<D, C> {
    /// The disk.
    pub disk: D,
    /// The clock.
    pub clock: C,
    /// `Ok` where all lines were answered and written.
    pub end: Result<(), Stopped>,
}

// Runs one phase, and writes its replies. A phase without lines takes nothing.
fn run_one<
    H: Hash32 + Sync,
    K: Sink,
    D: Disk + Send,
    C: Clock + Send,
    G: Gate + Sync,
    N: TipName + Send + Sync,
    Q: SqlEngine + Sync,
    R: Threads + Wait + Sync,
>(
    rt: &R,
    alloc: Global,
    gate: &G,
    engine: &Q,
    sink: &mut K,
    store: &Store<'_, H, D, C, SqlKeys, N>,
    main: &mut Pass,
    names: &[Octets],
    run: &mut [u64; 8],
    phase: Phase,
    links: bool,
) -> Result<(), Stopped>
    requires found { IsFoundKept N.found }
    requires pass { IsWholePass N.table main.old }
    requires named { AreNamed names.now phase }
    requires apart { AllPairs (λ a b. a ≢ b) names.now }
    requires few { length names.now ≤ 8 }
    ensures pass { IsWholePass N.table main.new }
    ensures ran { RunsPhase N.digest links main.old main.new phase (K.written sink.old) (K.written sink.new) (K.faults sink.old) (K.faults sink.new) result }
{
    if phase.as_slice().is_empty() {
        return Ok(());
    }
    match play(
        rt, alloc, gate, engine, store, main, names, run, phase, links,
    ) {
        Ok(played) => tell(sink, played),
        Err(_) => Err(Stopped::Line(LineError::Memory)),
    }
}

// Runs the phases in order, up to one that isn't told to its end.
fn run_phases<
    H: Hash32 + Sync,
    K: Sink,
    D: Disk + Send,
    C: Clock + Send,
    G: Gate + Sync,
    N: TipName + Send + Sync,
    Q: SqlEngine + Sync,
    R: Threads + Wait + Sync,
>(
    rt: &R,
    alloc: Global,
    gate: &G,
    engine: &Q,
    sink: &mut K,
    store: &Store<'_, H, D, C, SqlKeys, N>,
    main: &mut Pass,
    script: Script,
    links: bool,
) -> Result<(), Stopped>
    requires found { IsFoundKept N.found }
    requires pass { IsWholePass N.table main.old }
    requires named { script.names.items ≡ names_of [] (lines_of script.phases.items) }
    requires few { length script.names.items ≤ 8 }
    ensures pass { IsWholePass N.table main.new }
    ensures ran { RunsPhases N.digest links main.old main.new script.phases.items (K.written sink.old) (K.written sink.new) (K.faults sink.old) (K.faults sink.new) result }
{
    let Script { names, phases } = script;
    let mut run = [0u64; 8];
    for phase in phases {
        run_one(
            rt, alloc, gate, engine, sink, store, main, &names, &mut run, phase, links,
        )?;
    }
    Ok(())
}

/// Runs a script over an opened store, and closes it. In a phase each session answers its lines in order on a thread of its own; a linker runs
/// beside them where `links` says so, and an indexer; and the gate is called before and after each line. Once a phase is joined its replies are written
/// in the script's order. Each transaction that is told is durable by then. A line that meets a fault of the disk, or for which memory runs out, gets no
/// reply and ends its session; the other sessions of the phase go on, the replies before the first such line are written, and no further phase is run.
///
/// `passes` is empty, and has room for one. Of its own the call takes, for each phase, a list of its lines by session and a number for each line, before
/// any of them is run; the lines' texts are taken by their sessions.
pub fn serve<
    H: Hash32 + Sync,
    K: Sink,
    D: Disk + Send,
    C: Clock + Send,
    G: Gate + Sync,
    N: TipName + Send + Sync,
    Q: SqlEngine + Sync,
    R: Threads + Wait + Sync,
>(
    rt: &R,
    alloc: Global,
    gate: &G,
    engine: &Q,
    sink: &mut K,
    opened: Opened<'_, H, D, C, SqlKeys>,
    mut passes: Vec<Pass>,
    script: Script,
    links: bool,
) -> Served<D, C>
    requires tip { (opened.table ≡ N.table) × (opened.found ≡ N.found) × (opened.logs ≡ N.logs) }
    requires hash { H.digest opened.hash ≡ N.digest }
    requires disk { (D.told opened.disk ≡ N.synced) × (D.faults opened.disk ≡ N.faults) }
    requires clock { (C.constant opened.clock ≡ N.time) × (C.given opened.clock ≡ N.given) }
    requires found { IsFoundKept opened.found }
    requires passes { (passes.items ≡ []) × (1 ≤ vec_capacity passes) }
    requires named { script.names.items ≡ names_of [] (lines_of script.phases.items) }
    requires few { length script.names.items ≤ 8 }
    ensures served { Serves D.told D.faults links (naming_of H.digest D.told D.faults C.constant C.given opened.entry) script.phases.items (K.written sink.old) (K.written sink.new) (K.faults sink.old) (K.faults sink.new) result.disk (C.constant result.clock) (C.given result.clock) result.end }
{
    let (store, mut main) = opened.named::<N>();
    let end = run_phases(
        rt, alloc, gate, engine, sink, &store, &mut main, script, links,
    );
    passes.push_reserved(main);
    let (disk, clock) = store.close(passes);
    a_list_is_kept();
    Served { disk, clock, end }
}
