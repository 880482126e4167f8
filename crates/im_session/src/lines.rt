// The lines of one session.
ghost use Rattle.std.specs.Prelude.{◌≡◌, List, [], ◌∷◌, ◌++◌, map, None, Some, IfErr, IfOk, OnOk};
ghost use mathlib.Core.List.{IsPrefix};
ghost use Rattle.im_dealing.specs.Found.{IsFoundKept};
ghost use Rattle.im_dealing.specs.Lines.{IsShowing, IsStep, IsStuck};
ghost use Rattle.im_dealing.specs.Runs.{HasRun, IsDone, IsReady, start_of};
ghost use Rattle.im_report.specs.Report.{answer_line, Answered as TheAnswered};
ghost use Rattle.im_session.specs.Answered.{IsAnswered, IsUnanswered};
ghost use Rattle.im_table.specs.Passes.{IsPassOf, Later};

use crate::commits::{answer_link, answer_set};
use crate::proofs::{answer_advance, answer_header, answer_item, answer_prove, answer_state};
use crate::reads::{answer_get, answer_history, answer_scan};
use crate::statements::answer_sql;
use im_dealing::answers::Answer;
use im_dealing::errors::LineError;
use im_dealing::sessions::Session;
use im_dealing::tidings::Tidings;
use im_digest::Hash32;
use im_disk::disk::Disk;
use im_edge::clock::Clock;
use im_edge::gate::{Gate, Point};
use im_octet::octets::Octets;
use im_report::replies::reply_text;
use im_script::commands::{Command, Line};
use im_sqllaw::law::SqlKeys;
use im_sqlmodel::engine::SqlEngine;
use im_store::store::Store;
use im_table::pass::Pass;
use im_table::tip_name::TipName;
use std::alloc::Global;
use std::mem;
use std::sync::Wait;

// Answers a command.
fn answer<H: Hash32, D: Disk, C: Clock, N: TipName, Q: SqlEngine, R: Wait>(
    rt: &R,
    alloc: Global,
    engine: &Q,
    store: &Store<'_, H, D, C, SqlKeys, N>,
    pass: &mut Pass,
    command: Command,
) -> Result<Answer, LineError>
    requires pass { IsPassOf N.table pass.old }
    requires found { IsFoundKept N.found }
    ensures later { Later pass.old pass.new }
    ensures ok { IfOk result (λ answer. IsAnswered N.digest pass.old pass.new command answer) }
    ensures err { IfErr result (λ why. IsUnanswered pass.old pass.new command why) }
{
    match command {
        Command::Set { pres, drafts } => {
            answer_set(rt, alloc, store, pass, pres, drafts.into_vec())
        }
        Command::Link { count } => {
            drop(command);
            answer_link(rt, alloc, store, pass, count)
        }
        Command::Sql { text } => {
            let answer = answer_sql(rt, alloc, engine, store, pass, text.as_str());
            drop(text);
            answer
        }
        command => {
            let answer = show(rt, alloc, store, pass, &command);
            drop(command);
            answer
        }
    }
}

// Answers a command that places and links nothing.
fn show<H: Hash32, D: Disk, C: Clock, N: TipName, R: Wait>(
    rt: &R,
    alloc: Global,
    store: &Store<'_, H, D, C, SqlKeys, N>,
    pass: &mut Pass,
    command: &Command,
) -> Result<Answer, LineError>
    requires pass { IsPassOf N.table pass.old }
    requires shows { IsShowing command.now }
    ensures later { Later pass.old pass.new }
    ensures ok { IfOk result (λ answer. IsAnswered N.digest pass.old pass.new command.now answer) }
    ensures err { IfErr result (λ why. IsUnanswered pass.old pass.new command.now why) }
{
    match command {
        Command::Get { key, at } => answer_get(rt, alloc, store, pass, key.as_slice(), *at),
        Command::Scan { prefix, at } => answer_scan(rt, alloc, store, pass, prefix.as_slice(), *at),
        Command::History { key } => answer_history(rt, alloc, store, pass, key.as_slice()),
        Command::Header { number } => answer_header(rt, alloc, store, pass, *number),
        Command::State => answer_state(rt, alloc, store, pass),
        Command::Prove { source, target } => answer_prove(rt, alloc, store, pass, *source, *target),
        Command::Advance { source, target } => {
            answer_advance(rt, alloc, store, pass, *source, *target)
        }
        Command::Item {
            number,
            index,
            under,
        } => answer_item(rt, alloc, store, pass, *number, *index, *under),
        Command::Set { .. } | Command::Link { .. } | Command::Sql { .. } => unreachable!(),
    }
}

// Runs a line, puts the text of its reply behind the others, and tells how many transactions are durable as the reply does. After an error
// no text was put for it.
fn run_line<H: Hash32, D: Disk, C: Clock, N: TipName, Q: SqlEngine, R: Wait>(
    rt: &R,
    alloc: Global,
    engine: &Q,
    store: &Store<'_, H, D, C, SqlKeys, N>,
    pass: &mut Pass,
    texts: &mut Vec<Octets>,
    tidings: &Tidings,
    line: Line,
) -> Result<(), LineError>
    requires pass { IsPassOf N.table pass.old }
    requires found { IsFoundKept N.found }
    ensures later { Later pass.old pass.new }
    ensures ok { OnOk result ((a : TheAnswered) × (a.line ≡ line) × IsStep N.digest pass.old pass.new a × (texts.new.items ≡ texts.old.items ++ answer_line a ∷ [])) }
    ensures err { IfErr result (λ why. IsStuck pass.old pass.new line why × (texts.new.items ≡ texts.old.items)) }
{
    let Ok(()) = texts.reserve(1) else {
        drop(line);
        return Err(LineError::Memory);
    };
    let Line { session, command } = line;
    let Answer { number, reply } = answer(rt, alloc, engine, store, pass, command)?;
    tidings.tell(rt, number);
    let text = reply_text(alloc, session.as_slice(), number, reply.as_slice())?;
    texts.push_reserved(Octets::from_vec(text));
    Ok(())
}

// Runs lines in order, up to one that gets no reply. The gate is called before and after each of them.
fn run_lines<H: Hash32, D: Disk, C: Clock, G: Gate, N: TipName, Q: SqlEngine, R: Wait>(
    rt: &R,
    alloc: Global,
    gate: &G,
    engine: &Q,
    store: &Store<'_, H, D, C, SqlKeys, N>,
    tidings: &Tidings,
    session: &mut Session,
    lines: Vec<Line>,
) -> Option<LineError>
    requires ready { IsReady N.found N.table session.old }
    ensures pass { IsPassOf N.table session.new.pass × (session.new.pass.view.weight ≡ 1) }
    ensures name { session.new.number ≡ session.old.number }
    ensures seen { IsPrefix session.old.pass.view.seen session.new.pass.view.seen }
    ensures ran { (answers : List TheAnswered) × (session.new.texts.items ≡ map answer_line answers)
        × HasRun N.digest (start_of session.old) session.new.pass lines.items answers result }
{
    for line in lines {
        gate.pause(Point::Before {
            session: session.number,
            line: session.run,
        });
        let ran = run_line(
            rt,
            alloc,
            engine,
            store,
            &mut session.pass,
            &mut session.texts,
            tidings,
            line,
        );
        gate.pause(Point::After {
            session: session.number,
            line: session.run,
        });
        session.run = session.run.saturating_add(1);
        if let Err(why) = ran {
            return Some(why);
        }
    }
    None
}

/// Runs the lines of a session in a phase.
pub(crate) fn run_session<H: Hash32, D: Disk, C: Clock, G: Gate, N: TipName, Q: SqlEngine, R: Wait>(
    rt: &R,
    alloc: Global,
    gate: &G,
    engine: &Q,
    store: &Store<'_, H, D, C, SqlKeys, N>,
    tidings: &Tidings,
    session: &mut Session,
)
    requires ready { IsReady N.found N.table session.old }
    ensures done { IsDone N.digest N.table session.old session.new }
{
    let lines = mem::replace(&mut session.lines, Vec::new(alloc));
    session.why = run_lines(rt, alloc, gate, engine, store, tidings, session, lines);
}
