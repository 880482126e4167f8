// One phase: the lines are dealt, the sessions run, and their passes are taken in again.
ghost use Rattle.std.specs.Prelude.{◌≡◌, ◌≢◌, ◌≤◌, ◌<◌, ◌+◌, AllPairs, List, [], length, map, vec_capacity, IfOk, OnErr};
ghost use Rattle.std.specs.List.{All, flat_map};
ghost use Rattle.im_dealing.specs.Dealing.{AreNamed};
ghost use Rattle.im_dealing.specs.Found.{IsFoundKept};
ghost use Rattle.im_dealing.specs.Gathered.{AreGathered, AreHanded, IsWholePass};
ghost use Rattle.im_dealing.specs.Phases.{EndsPhase, IsPlayed, KnowsFaults};
ghost use Rattle.im_dealing.specs.Runs.{IsReady};
ghost use Rattle.im_dealing.specs.Written.{first_texts, stop_of};
ghost use Rattle.im_report.specs.Outcomes.{Outcome};
ghost use Rattle.im_report.specs.Sessions.{phase_text};
ghost use Rattle.im_table.specs.Passes.{IsPassOf};

use crate::phase::{Helpers, run_phase};
use im_dealing::dealing::{Room, room_for};
use im_dealing::sessions::{Ended, Lines, Played, Session, Texts};
use im_digest::Hash32;
use im_disk::disk::Disk;
use im_edge::clock::Clock;
use im_edge::gate::Gate;
use im_octet::octets::Octets;
use im_script::phases::Phase;
use im_sqllaw::law::SqlKeys;
use im_sqlmodel::engine::SqlEngine;
use im_store::store::Store;
use im_table::pass::Pass;
use im_table::tip_name::TipName;
use std::alloc::{AllocError, Global};
use std::sync::Wait;
use std::thread::Threads;

// A session for each list of lines, with a pass split off the main one, which keeps the rest. It takes no memory.
fn hand_out<H: Hash32, D: Disk, C: Clock, N: TipName>(
    alloc: Global,
    store: &Store<'_, H, D, C, SqlKeys, N>,
    main: &mut Pass,
    lines: Vec<Lines>,
    run: &[u64; 8],
    mut sessions: Vec<Session>,
) -> Vec<Session>
    requires found { IsFoundKept N.found }
    requires pass { IsPassOf N.table main.old }
    requires room { (length lines.items ≤ 8) × (length lines.items + 1 < main.old.view.weight) }
    requires none { (sessions.items ≡ []) × (length lines.items ≤ vec_capacity sessions) }
    ensures left { AreHanded N.table main.old main.new (length lines.items) }
    ensures ready { All (IsReady N.found N.table) result.items }
    ensures begins { All (λ s. (s.pass.view.seen ≡ main.old.view.seen) × (s.pass.view.least ≡ main.old.view.least)) result.items }
    ensures lines { map (λ s. s.lines.items) result.items ≡ lines.items }
{
    let mut number = 0usize;
    for mine in lines {
        sessions.push_reserved(Session {
            number: number as u8,
            run: run[number],
            lines: mine.into_vec(),
            pass: store.pass(main),
            texts: Vec::new(alloc),
            why: None,
        });
        number += 1;
    }
    sessions
}

// Takes the passes of the sessions in, and gives what else they left. It takes no memory.
fn gather<H: Hash32, D: Disk, C: Clock, N: TipName>(
    store: &Store<'_, H, D, C, SqlKeys, N>,
    main: &mut Pass,
    sessions: Vec<Session>,
    run: &mut [u64; 8],
    mut ended: Vec<Ended>,
) -> Vec<Ended>
    requires pass { IsPassOf N.table main.old }
    requires passes { All (λ s. IsPassOf N.table s.pass) sessions.items }
    requires room { (length sessions.items ≤ 8) × (ended.items ≡ []) × (length sessions.items ≤ vec_capacity ended) }
    ensures { AreGathered N.table main.old main.new sessions.items result.items }
{
    let mut number = 0usize;
    for session in sessions {
        let Session {
            number: _,
            run: behind,
            lines,
            pass,
            texts,
            why,
        } = session;
        drop(lines);
        store.end(main, pass);
        run[number] = behind;
        number += 1;
        ended.push_reserved(Ended {
            texts: Texts::from_vec(texts),
            why,
        });
    }
    ended
}

/// Runs a phase whose lines have these names: each session on a thread of its own, from where the main pass has come to, a linker beside them where
/// one links, and an indexer. All its own memory is taken before the sessions begin: where it is refused, no line was run.
pub(crate) fn play<
    H: Hash32 + Sync,
    D: Disk + Send,
    C: Clock + Send,
    G: Gate + Sync,
    N: TipName + Send + Sync,
    Q: SqlEngine + Sync,
    R: Threads + Wait + Sync,
>(
    rt: &R,
    alloc: Global,
    gate: &G,
    engine: &Q,
    store: &Store<'_, H, D, C, SqlKeys, N>,
    main: &mut Pass,
    names: &[Octets],
    run: &mut [u64; 8],
    phase: Phase,
    links: bool,
) -> Result<Played, AllocError>
    requires found { IsFoundKept N.found }
    requires pass { IsWholePass N.table main.old }
    requires named { AreNamed names.now phase }
    requires apart { AllPairs (λ a b. a ≢ b) names.now }
    requires few { length names.now ≤ 8 }
    ensures pass { IsWholePass N.table main.new }
    ensures played { IfOk result (λ played. (outcomes : List Outcome) × IsPlayed N.digest links main.old main.new phase outcomes
        × (flat_map (λ text. text) (first_texts played.order.items played.ended.items) ≡ phase_text outcomes) × EndsPhase outcomes (stop_of played.order.items played.ended.items)
        × KnowsFaults main.old main.new outcomes (stop_of played.order.items played.ended.items)) }
    ensures order { IfOk result (λ played. All (λ number. number < length played.ended.items) played.order.items × (length played.ended.items ≤ 8)) }
    ensures nothing { OnErr result (main.new ≡ main.old) }
{
    let Room {
        order,
        lines,
        sessions,
        ended,
    } = room_for(alloc, names, phase)?;
    let linker = store.pass(main);
    let indexer = store.pass(main);
    let sessions = hand_out(alloc, store, main, lines, run, sessions);
    let helpers = Helpers {
        linker,
        indexer,
        links,
    };
    let (sessions, linker, indexer) = run_phase(rt, alloc, gate, engine, store, sessions, helpers);
    store.end(main, linker);
    store.end(main, indexer);
    let ended = gather(store, main, sessions, run, ended);
    Ok(Played { order, ended })
}
