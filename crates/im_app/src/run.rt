ghost use Rattle.std.specs.Prelude.{◌≡◌, ◌⊎◌, ℕ, ◌+◌, ◌≤◌, ◌<◌, [], length, List, IfSome, OnOk, Err, Result, Some, vec_capacity};
ghost use Rattle.im_dealing.specs.Found.{IsFoundKept};
ghost use Rattle.im_dealing.specs.declared.errors.LineError.{LineError as Why};
ghost use Rattle.im_dealing.specs.declared.errors.Stopped.{Stopped as TheStopped};
ghost use Rattle.im_disk.specs.Disk.{Told, after, seen};
ghost use Rattle.im_disk.specs.declared.calls.Call.TheVariants.{Synced};
ghost use Rattle.im_disk.specs.Grown.{Grows};
ghost use Rattle.im_counts.specs.Counts.{Rose};
ghost use Rattle.im_edge.specs.Sources.{TakesAtMost};
ghost use Rattle.im_format.specs.Damages.{image_checks};
ghost use Rattle.im_format.specs.Standing.{Stands};
ghost use Rattle.im_format.specs.declared.damages.Damage.{Damage};
ghost use Rattle.im_model.specs.declared.transactions.Transaction.{Transaction};
ghost use Rattle.im_mtree.specs.Checks.{first_fail};
ghost use Rattle.im_script.specs.Script.{StopsAfter};
ghost use Rattle.im_status.specs.Fates.{HasRunFate};
ghost use Rattle.im_status.specs.Scripts.{IsGiven};
ghost use Rattle.im_status.specs.Statuses.{EndsGiven, EndsReading, EndsRun, EndsWriting, status_behind, status_by, status_for, status_kept};
ghost use Rattle.im_app.specs.Runs.{FindsUnkept, GivesScript, HasOneSession, KeepsFound, LeavesFound, WritesFront, WritesPart, WritesReport, has_linker};
ghost use Rattle.im_opening.specs.Cut.{SyncsAtMost};
ghost use Rattle.im_script.specs.Script.{lines_of, names_of};
ghost use Rattle.im_session.specs.Served.{Serves};
ghost use Rattle.im_sqlmodel.specs.Kept.{IsFirstUnsound, IsSqlKept};
ghost use Rattle.im_table.specs.Histories.{history_of};
ghost use Rattle.im_store.specs.Names.{naming_of};
ghost use Rattle.im_script.specs.declared.commands.Line.{Line as TheLine};

use im_dealing::errors::{LineError, Stopped};
use im_digest::Hash32;
use im_disk::disk::Disk;
use im_edge::clock::Clock;
use im_edge::gate::Gate;
use im_edge::sink::Sink;
use im_edge::source::Source;
use im_opening::errors::OpenError;
use im_script::phases::Script;
use im_session::serve::{Served, serve};
use im_sqllaw::law::SqlKeys;
use im_sqlmodel::answers::KeptError;
use im_sqlmodel::engine::SqlEngine;
use im_status::scripts::read_phases;
use im_status::status::{Done, Status};
use im_store::opened::Opened;
use im_store_opening::opening::{OpenFailed, open};
use im_table::pass::Pass;
use im_words::Link;
use std::alloc::Global;
use std::marker::Brand;
use std::sync::Wait;
use std::thread::Threads;

// The status of a disk that wasn't opened.
fn status_of(error: OpenError) -> Status
    ensures { result ≡ status_by error }
{
    match error {
        OpenError::DiskFault => Status::DiskFault,
        OpenError::Damaged(damage) => Status::Damaged(damage),
        OpenError::Memory => Status::Memory,
    }
}

// The status of a disk whose keys that begin with octet 00 aren't known to be SQL's.
fn status_unkept(error: KeptError) -> Status
    ensures { result ≡ status_kept error }
{
    match error {
        KeptError::Memory => Status::Memory,
        KeptError::NotKept { tx } => Status::SqlKept { tx },
    }
}

// Whether the keys of what was found that begin with octet 00 are SQL's. It waits for nobody.
fn judge<H: Hash32, D: Disk, C: Clock, Q: SqlEngine>(
    alloc: Global,
    engine: &Q,
    opened: &Opened<'_, H, D, C, SqlKeys>,
) -> Result<(), KeptError>
    ensures kept { OnOk result (IsSqlKept (history_of opened.now.found)) }
    ensures not_kept { (tx : ℕ) → result ≡ Err (KeptError.NotKept tx) → IsFirstUnsound (history_of opened.now.found) tx }
{
    let (keys, count) = opened.keys(alloc)?;
    let judged = engine.judge(alloc, &keys, count);
    drop(keys);
    judged
}

// How a run ends: the line that got no reply decides, and else whether the replies were written.
fn status_after(end: Result<(), Stopped>) -> Status
    ensures { result ≡ status_behind end }
{
    match end {
        Ok(()) => Status::Ok,
        Err(Stopped::Line(LineError::DiskFault)) => Status::DiskFault,
        Err(Stopped::Line(LineError::Memory)) => Status::Memory,
        Err(Stopped::Write) => Status::WriteFault,
    }
}

// Serves a script over an opened store, and tells how that ended.
fn serve_script<
    H: Hash32 + Sync,
    K: Sink,
    D: Disk + Send,
    C: Clock + Send,
    G: Gate + Sync,
    Q: SqlEngine + Sync,
    R: Threads + Wait + Sync,
>(
    rt: &R,
    alloc: Global,
    gate: &G,
    engine: &Q,
    sink: &mut K,
    opened: Opened<'_, H, D, C, SqlKeys>,
    passes: Vec<Pass>,
    script: Script,
    links: bool,
) -> Done<D, C>
    requires found { IsFoundKept opened.found }
    requires passes { (passes.items ≡ []) × (1 ≤ vec_capacity passes) }
    requires named { script.names.items ≡ names_of [] (lines_of script.phases.items) }
    requires few { length script.names.items ≤ 8 }
    ensures served { (end : Result Unit TheStopped) × (result.status ≡ status_behind end)
        × Serves D.told D.faults links (naming_of H.digest D.told D.faults C.constant C.given opened.entry) script.phases.items (K.written sink.old) (K.written sink.new) (K.faults sink.old) (K.faults sink.new) result.disk (C.constant result.clock) (C.given result.clock) end }
{
    let Served { disk, clock, end } = serve::<H, K, D, C, G, Brand, Q, R>(
        rt, alloc, gate, engine, sink, opened, passes, script, links,
    );
    Done {
        status: status_after(end),
        disk,
        clock,
    }
}

// Opens a disk as a store, judges the keys that begin with octet 00, runs a script over it, and closes it. Where it isn't opened, or where these keys aren't
// SQL's, nothing is run.
fn run_script<
    H: Hash32 + Sync,
    K: Sink,
    D: Disk + Send,
    C: Clock + Send,
    G: Gate + Sync,
    Q: SqlEngine + Sync,
    R: Threads + Wait + Sync,
>(
    rt: &R,
    alloc: Global,
    hash: &H,
    gate: &G,
    engine: &Q,
    sink: &mut K,
    disk: D,
    clock: C,
    logs: u8,
    link: Link,
    script: Script,
) -> Done<D, C>
    requires logs { (1 ≤ logs) × (logs ≤ 4) }
    requires named { script.names.items ≡ names_of [] (lines_of script.phases.items) }
    requires few { length script.names.items ≤ 8 }
    ensures ends { EndsWriting result.status }
    ensures report { (octets : List ℕ) → IsGiven octets script.phases.items → result.status ≡ Status.Ok
        → WritesReport (H.digest hash.now) (C.constant clock) logs link (Some octets) (D.told disk) (D.told result.disk) (C.given clock) (C.given result.clock) (K.written sink.old) (K.written sink.new) (K.faults sink.old) (K.faults sink.new) }
    ensures part { (octets : List ℕ) → IsGiven octets script.phases.items → result.status ≡ Status.WriteFault
        → WritesPart (H.digest hash.now) (C.constant clock) logs link (Some octets) (D.told disk) (D.told result.disk) (C.given clock) (C.given result.clock) (K.written sink.old) (K.written sink.new) (K.faults sink.old) (K.faults sink.new) }
    ensures front { (octets : List ℕ) (why : Why) → IsGiven octets script.phases.items → result.status ≡ status_for why
        → ((sink.new ≡ sink.old) × ((result.clock ≡ clock) × LeavesFound (H.digest hash.now) why (D.told disk) (D.told result.disk)))
        ⊎ WritesFront (H.digest hash.now) (C.constant clock) logs link why (Some octets) (D.told disk) (D.told result.disk) (C.given clock) (C.given result.clock)
        (K.written sink.old) (K.written sink.new) (K.faults sink.old) (K.faults sink.new) }
    ensures damaged { (damage : Damage) → result.status ≡ Status.Damaged damage → IfSome (D.told disk) (λ t.
        (first_fail (image_checks (H.digest hash.now) (seen t)) ≡ Err damage) × (D.told result.disk ≡ Some (after Synced t))) }
    ensures sound { (damage : Damage) (t : Told) (found : List Transaction) → D.told disk ≡ Some t → Stands (H.digest hash.now) (seen t) found
        → result.status ≡ Status.Damaged damage → ⊥ }
    ensures nothing { (damage : Damage) → result.status ≡ Status.Damaged damage → (sink.new ≡ sink.old) × (result.clock ≡ clock) }
    ensures not_kept { (tx : ℕ) → result.status ≡ Status.SqlKept tx → FindsUnkept (H.digest hash.now) (D.told disk) (D.told result.disk) tx × (sink.new ≡ sink.old) × (result.clock ≡ clock) }
    ensures any_moment { (t : Told) (found : List Transaction) → D.told disk ≡ Some t → Stands (H.digest hash.now) (seen t) found
        → KeepsFound (H.digest hash.now) found t (D.told result.disk) }
    ensures unharmed { (t : Told) → D.told disk ≡ Some t → ((found : List Transaction) → Stands (H.digest hash.now) (seen t) found → ⊥)
        → SyncsAtMost t (D.told result.disk) }
    ensures grows { Grows (D.told disk) (D.told result.disk) }
    ensures device { result.status ≡ Status.DiskFault → Rose (D.faults disk) (D.faults result.disk) }
    ensures disk_count { (result.status ≡ Status.DiskFault → ⊥) → (result.status ≡ Status.Memory → ⊥) → D.faults result.disk ≡ D.faults disk }
    ensures disk_alone { result.status ≡ Status.Memory → HasOneSession script.phases.items → D.faults result.disk ≡ D.faults disk }
    ensures write { result.status ≡ Status.WriteFault → Rose (K.faults sink.old) (K.faults sink.new) }
    ensures sink_count { result.status ≡ Status.Ok → K.faults sink.new ≡ K.faults sink.old }
    ensures sink_once { K.faults sink.new ≤ K.faults sink.old + 1 }
    ensures clock { C.constant result.clock ≡ C.constant clock }
{
    let Ok(passes) = Vec::with_capacity(alloc, 1) else {
        drop(script);
        return Done {
            status: Status::Memory,
            disk,
            clock,
        };
    };
    match open(rt, alloc, hash, disk, clock, logs) {
        Ok(opened) => match judge(alloc, engine, &opened) {
            Ok(()) => serve_script(
                rt,
                alloc,
                gate,
                engine,
                sink,
                opened,
                passes,
                script,
                is_auto(link),
            ),
            Err(error) => {
                drop(script);
                let (disk, clock) = opened.close();
                Done {
                    status: status_unkept(error),
                    disk,
                    clock,
                }
            }
        },
        Err(failed) => {
            drop(script);
            let OpenFailed { why, disk, clock } = failed;
            Done {
                status: status_of(why),
                disk,
                clock,
            }
        }
    }
}

// Whether a linker runs beside the sessions.
fn is_auto(link: Link) -> bool
    ensures { result ≡ has_linker link }
{
    matches!(link, Link::Auto)
}

/// Reads a script to its end, and answers its lines over what the disk holds, where its keys that begin with octet 00 are SQL's, with so many value logs: phase by phase, in each of them every session
/// on a thread of its own, beside a linker where `link` says so, and an indexer. The replies of a phase are written as soon as it is joined. Where a line gets no
/// reply, those before it are told, and no further phase is run.
pub(crate) fn run<
    H: Hash32 + Sync,
    S: Source,
    K: Sink,
    D: Disk + Send,
    C: Clock + Send,
    G: Gate + Sync,
    Q: SqlEngine + Sync,
    R: Threads + Wait + Sync,
>(
    rt: &R,
    alloc: Global,
    hash: &H,
    gate: &G,
    engine: &Q,
    source: &mut S,
    sink: &mut K,
    disk: D,
    clock: C,
    logs: u8,
    link: Link,
) -> Done<D, C>
    requires logs { (1 ≤ logs) × (logs ≤ 4) }
    ensures report { result.status ≡ Status.Ok
        → WritesReport (H.digest hash.now) (C.constant clock) logs link (S.left source.old) (D.told disk) (D.told result.disk) (C.given clock) (C.given result.clock) (K.written sink.old) (K.written sink.new) (K.faults sink.old) (K.faults sink.new) }
    ensures part { result.status ≡ Status.WriteFault
        → WritesPart (H.digest hash.now) (C.constant clock) logs link (S.left source.old) (D.told disk) (D.told result.disk) (C.given clock) (C.given result.clock) (K.written sink.old) (K.written sink.new) (K.faults sink.old) (K.faults sink.new) }
    ensures front { (why : Why) → result.status ≡ status_for why
        → ((sink.new ≡ sink.old) × ((result.clock ≡ clock) × LeavesFound (H.digest hash.now) why (D.told disk) (D.told result.disk)))
        ⊎ WritesFront (H.digest hash.now) (C.constant clock) logs link why (S.left source.old) (D.told disk) (D.told result.disk) (C.given clock) (C.given result.clock)
        (K.written sink.old) (K.written sink.new) (K.faults sink.old) (K.faults sink.new) }
    ensures given { EndsGiven result.status → GivesScript (S.left source.old) (S.left source.new) }
    ensures taken { TakesAtMost 67112960 (S.left source.old) (S.left source.new) }
    ensures untouched { IfSome (S.left source.old) (λ script. ((phases : List (List TheLine)) → IsGiven script phases → ⊥)
        → (sink.new ≡ sink.old) × ((result.clock ≡ clock) × (result.disk ≡ disk))) }
    ensures ends { EndsRun result.status }
    ensures never { result.status ≡ Status.Usage → ⊥ }
    ensures script { (k : ℕ) → result.status ≡ Status.Script k → IfSome (S.left source.old) (λ script.
        (length script ≤ 67108864) × ((n : ℕ) × (k ≡ n + 1) × StopsAfter script n)) }
    ensures long { result.status ≡ Status.Long → IfSome (S.left source.old) (λ script. 67108864 < length script) }
    ensures damaged { (damage : Damage) → result.status ≡ Status.Damaged damage → IfSome (D.told disk) (λ t.
        (first_fail (image_checks (H.digest hash.now) (seen t)) ≡ Err damage) × (D.told result.disk ≡ Some (after Synced t))) }
    ensures sound { (damage : Damage) (t : Told) (found : List Transaction) → D.told disk ≡ Some t → Stands (H.digest hash.now) (seen t) found
        → result.status ≡ Status.Damaged damage → ⊥ }
    ensures any_moment { (t : Told) (found : List Transaction) → D.told disk ≡ Some t → Stands (H.digest hash.now) (seen t) found
        → KeepsFound (H.digest hash.now) found t (D.told result.disk) }
    ensures unharmed { (t : Told) → D.told disk ≡ Some t → ((found : List Transaction) → Stands (H.digest hash.now) (seen t) found → ⊥)
        → SyncsAtMost t (D.told result.disk) }
    ensures grows { Grows (D.told disk) (D.told result.disk) }

    // Where the script wasn't run, nothing is touched but the source.
    ensures nothing { EndsReading result.status → (result.status ≡ Status.Memory → ⊥)
        → (sink.new ≡ sink.old) × ((result.clock ≡ clock) × (result.disk ≡ disk)) }
    ensures unread { (damage : Damage) → result.status ≡ Status.Damaged damage → (sink.new ≡ sink.old) × (result.clock ≡ clock) }
    ensures not_kept { (tx : ℕ) → result.status ≡ Status.SqlKept tx → FindsUnkept (H.digest hash.now) (D.told disk) (D.told result.disk) tx × (sink.new ≡ sink.old) × (result.clock ≡ clock) }
    ensures read { result.status ≡ Status.ReadFault → Rose (S.faults source.old) (S.faults source.new) }
    ensures write { result.status ≡ Status.WriteFault → Rose (K.faults sink.old) (K.faults sink.new) }
    ensures device { result.status ≡ Status.DiskFault → Rose (D.faults disk) (D.faults result.disk) }
    ensures source_count { (result.status ≡ Status.ReadFault → ⊥) → S.faults source.new ≡ S.faults source.old }
    ensures source_once { S.faults source.new ≤ S.faults source.old + 1 }
    ensures sink_once { K.faults sink.new ≤ K.faults sink.old + 1 }
    ensures sink_count { (result.status ≡ Status.WriteFault → ⊥) → (result.status ≡ Status.DiskFault → ⊥) → (result.status ≡ Status.Memory → ⊥)
        → K.faults sink.new ≡ K.faults sink.old }
    ensures disk_count { (result.status ≡ Status.DiskFault → ⊥) → (result.status ≡ Status.Memory → ⊥) → D.faults result.disk ≡ D.faults disk }
    // With one session no call failed either where memory ran out.
    ensures disk_alone { result.status ≡ Status.Memory → IfSome (S.left source.old) (λ script. (phases : List (List TheLine)) → IsGiven script phases → HasOneSession phases
        → D.faults result.disk ≡ D.faults disk) }
    ensures clock { C.constant result.clock ≡ C.constant clock }
    ensures fate { (Rose (S.faults source.old) (S.faults source.new) → ⊥) → (Rose (K.faults sink.old) (K.faults sink.new) → ⊥)
        → (Rose (D.faults disk) (D.faults result.disk) → ⊥)
        → IfSome (S.left source.old) (HasRunFate (H.digest hash.now) (D.told disk) result.status) }
{
    match read_phases(alloc, source) {
        Ok(script) => run_script(
            rt, alloc, hash, gate, engine, sink, disk, clock, logs, link, script,
        ),
        Err(status) => Done {
            status,
            disk,
            clock,
        },
    }
}
