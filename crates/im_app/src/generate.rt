//! `gen`: a script of the program's own, run over a disk in memory and judged by a client.

ghost use Rattle.std.specs.Prelude.{◌≡◌, ◌≤◌, ◌+◌, IfOk};
ghost use Rattle.im_disk.specs.Recorded.{told_by};
ghost use Rattle.im_counts.specs.Counts.{Rose};
ghost use Rattle.im_status.specs.Statuses.{EndsGenerated};
ghost use Rattle.im_app.specs.Generated.{IsGenerated, IsReported, WritesGenerated, WritesGeneratedPart};

use crate::run::run;
use im_digest::Hash32;
use im_disk::memory::MemDisk;
use im_edge::clock::FixedClock;
use im_edge::gate::OpenGate;
use im_edge::sink::{Sink, WriteFault, Writing, write_all};
use im_edge::source::Reading;
use im_gen::lines::{accepted_of, line_of, placed_of};
use im_gen::scripts::script_of;
use im_sqlmodel::engine::SqlEngine;
use im_status::numbers::{Unfinished, accepted, left_on};
use im_status::status::{Done, Status};
use im_words::Link;
use std::alloc::Global;
use std::sync::Wait;
use std::thread::Threads;

// What the script left: its report, and the disk.
#[derive(Drop)]
struct ScriptRun {
    report: Vec<u8>,
    disk: MemDisk,
}

// Runs a script over an empty disk in memory, at time 0, over one value log.
fn reported<H: Hash32 + Sync, Q: SqlEngine + Sync, R: Threads + Wait + Sync>(
    rt: &R,
    alloc: Global,
    hash: &H,
    engine: &Q,
    script: &[u8],
) -> Result<ScriptRun, Unfinished>
    ensures { IfOk result (λ r. IsReported (H.digest hash.now) script.now r.report.items (told_by r.disk)) }
{
    let empty = MemDisk::new(alloc, Vec::new(alloc))?;
    let mut source = Reading::new(script);
    let mut sink = Writing::new(Vec::new(alloc));
    let clock = FixedClock { time: 0 };
    let Done { status, disk, .. } = run(
        rt,
        alloc,
        hash,
        &OpenGate,
        engine,
        &mut source,
        &mut sink,
        empty,
        clock,
        1,
        Link::Manual,
    );
    if !status.is_ok() {
        drop(disk);
        return Err(Unfinished);
    }
    let Writing { inner, failures: _ } = sink;
    Ok(ScriptRun {
        report: inner,
        disk,
    })
}

// The line that tells of the script of n lines, where it came to its end with the numbers that it must. They are looked at
// here, since no proof says that they come out so.
fn generated<H: Hash32 + Sync, Q: SqlEngine + Sync, R: Threads + Wait + Sync>(
    rt: &R,
    alloc: Global,
    hash: &H,
    engine: &Q,
    n: u64,
) -> Result<Vec<u8>, Unfinished>
    requires { n ≤ 100000 }
    ensures { IfOk result (λ line. IsGenerated (H.digest hash.now) n line.items) }
{
    let script = script_of(alloc, n)?;
    let ran = reported(rt, alloc, hash, engine, &script)?;
    let ScriptRun { report, disk } = ran;
    let count = accepted(alloc, hash, &report)?;
    let left = left_on(alloc, hash, disk)?;
    let wanted = accepted_of(n);
    let placed = placed_of(n);
    if count != wanted {
        return Err(Unfinished);
    }
    if left.count != placed {
        return Err(Unfinished);
    }
    Ok(line_of(alloc, n, &left.alh)?)
}

/// Makes the script of n lines, at most 100,000, runs it in one session with one value log at time 0 over a disk of its
/// own in memory, has its report judged by a client, and writes the line that tells of it. All is held in memory.
pub(crate) fn generate<H: Hash32 + Sync, K: Sink, Q: SqlEngine + Sync, R: Threads + Wait + Sync>(
    rt: &R,
    alloc: Global,
    hash: &H,
    engine: &Q,
    sink: &mut K,
    n: u64,
) -> Status
    requires { n ≤ 100000 }
    ensures line { result ≡ Status.Ok → WritesGenerated (H.digest hash.now) n (K.written sink.old) (K.written sink.new) }
    ensures part { result ≡ Status.WriteFault → WritesGeneratedPart (H.digest hash.now) n (K.written sink.old) (K.written sink.new) }
    ensures nothing { result ≡ Status.Memory → sink.new ≡ sink.old }
    ensures ends { EndsGenerated result }
    ensures never { result ≡ Status.Usage → ⊥ }
    ensures write { result ≡ Status.WriteFault → Rose (K.faults sink.old) (K.faults sink.new) }
    ensures sink_count { (result ≡ Status.WriteFault → ⊥) → K.faults sink.new ≡ K.faults sink.old }
    ensures sink_once { K.faults sink.new ≤ K.faults sink.old + 1 }
{
    let Ok(line) = generated(rt, alloc, hash, engine, n) else {
        return Status::Memory;
    };
    match write_all(sink, &line) {
        Ok(()) => Status::Ok,
        Err(WriteFault) => Status::WriteFault,
    }
}
