//! The runs of a case, one after the other.

use crate::lines::{CaseLine, Run, before};
use crate::stage::Stage;
use crate::stop::Stop;
use crate::texts::Named;
use crate::wrong::Fault;
use std::alloc::{AllocError, Global};
use std::sync::Wait;
use std::thread::Threads;

/// What is told of a difference, where there is one.
pub type ToldDifference = Result<Option<String>, AllocError>;

/// Tells where a case first differs from what is wanted, if it does.
pub fn play<R: Threads + Wait + Sync>(
    rt: &R,
    alloc: Global,
    named: &[Named],
    case: &[CaseLine],
) -> ToldDifference {
    let mut stage = Stage::new(alloc)?;
    let told = play_all(rt, alloc, &mut stage, named, case);
    drop(stage);
    told
}

// Plays the runs of a case up to the first one that differs.
fn play_all<R: Threads + Wait + Sync>(
    rt: &R,
    alloc: Global,
    stage: &mut Stage,
    named: &[Named],
    case: &[CaseLine],
) -> ToldDifference {
    let mut number = 0u64;
    for (at, line) in case.iter().enumerate() {
        if line.mark == "$" {
            number = number.saturating_add(1);
            let lines = lines_of(alloc, before(case, "$"), *line, &case[at + 1..])?;
            let run = Run {
                alloc,
                named,
                lines: &lines,
            };
            if let Err(stop) = stage.play(rt, run) {
                return tell(alloc, number, stop);
            }
        }
    }
    Ok(None)
}

// The lines of a run: those that hold for each run of its case, the one that it begins with, and those behind that one
// before the next run.
fn lines_of<'t>(
    alloc: Global,
    common: &[CaseLine<'t>],
    first: CaseLine<'t>,
    behind: &[CaseLine<'t>],
) -> Result<Vec<CaseLine<'t>>, AllocError> {
    let mut lines = Vec::from_slice(alloc, common)?;
    lines.push(first)?;
    lines.extend_from_slice(before(behind, "$"))?;
    Ok(lines)
}

// Tells at which run of a case it stops, and why.
fn tell(alloc: Global, number: u64, stop: Stop) -> ToldDifference {
    match stop {
        Stop::Differs(told) => Ok(Some(format!(in alloc; "run {number}: {told}")?)),
        Stop::Undone(Fault { line, wrong }) => {
            let words = wrong.words();
            Ok(Some(format!(in alloc; "run {number}: line {line}: {words}")?))
        }
        Stop::Memory => Err(AllocError),
    }
}
