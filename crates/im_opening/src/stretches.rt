ghost use Rattle.std.specs.Prelude.{◌≡◌, ◌<◌, Some, IfErr, IfNone, IfOk, IfSome, OnOk};
ghost use Rattle.im_clog.specs.Marks.{IsUncounted};
ghost use Rattle.im_digest.specs.Digests.{Hash};
ghost use Rattle.im_disk.specs.Disk.{Told, seen};
ghost use Rattle.im_format.specs.Batches.{Counts};
ghost use Rattle.im_format.specs.Damages.{image_checks};
ghost use Rattle.im_opening.specs.Answers.{HasOpenCause, Judges, Tells};
ghost use Rattle.im_hash_ahead.specs.Facts.{IsKnown};
ghost use Rattle.im_opening.specs.Parts.{Shows};
ghost use Rattle.im_opening.specs.Stretches.{AreAllRead, IsLeft, IsReadTo, all_of};

use crate::batches::read_batch;
use crate::errors::OpenError;
use crate::hashing::{Hashing, first_hashing};
use crate::plans::plan_behind;
use crate::records::Progress;
use crate::source::RecordSource;
use im_atree::trees::Tree;
use im_clog::marks::{Uncounted, batch_at};
use im_digest::Hash32;
use im_disk::disk::Disk;
use im_format::files::BATCH_OCTETS;
use im_hash_ahead::filling::fill;
use im_hash_ahead::plans::{Plan, Plans};
use im_hash_ahead::rows::Rows;
use im_hash_ahead::windows::Window;
use std::alloc::{AllocError, Global};
use std::mem;
use std::thread::{Threads, join_mut, yield_now};

/// How far the batches were read: their records, the gate behind them, and how many they are; and the plan that was made last.
#[derive(Drop)]
pub(crate) struct Reading {
    pub progress: Progress,
    pub gate: usize,
    pub batches: u64,
    pub next: Option<Plan>,
}

impl Reading {
    ghost use Rattle.std.specs.Prelude.{List, Option, ℕ};
    ghost use Rattle.im_digest.specs.Digests.{Hash};
    ghost use Rattle.im_disk.specs.Disk.{Told};
    ghost use Rattle.im_opening.specs.Stretches.{IsLeft, IsReadTo};

    // Nothing yet.
    fn new(alloc: Global) -> Self
        ensures reached { (hash : Hash) (commits log : List ℕ) → IsReadTo hash commits log result }
        ensures left { (hash : Hash) (told : Option Told) → IsLeft hash told result }
    {
        Reading {
            progress: Progress {
                records: Vec::new(alloc),
                headers: Vec::new(alloc),
                alhs: Vec::new(alloc),
                bl: 0,
                bl_root: [0; 32],
                tree: Tree::new(alloc),
                place: 0,
            },
            gate: 0,
            batches: 0,
            next: None,
        }
    }
}

/// The batches that count, by their records, and why none counts behind them.
#[derive(Drop)]
pub(crate) struct BatchesRead {
    pub progress: Progress,
    pub gate: usize,
    pub batches: u64,
    pub behind: Uncounted,
}

// All that was read, where none counts behind it.
fn all_read(reading: Reading, behind: Uncounted) -> BatchesRead
    ensures { result ≡ all_of reading behind }
{
    let Reading {
        progress,
        gate,
        batches,
        next,
    } = reading;
    drop(next);
    BatchesRead {
        progress,
        gate,
        batches,
        behind,
    }
}

// Reads batches up to the end of a window, with the digests that it has, one at least; where none counts behind them, tells
// why.
fn read_stretch<D: Disk, H: Hash32>(
    alloc: Global,
    hash: &H,
    disk: &mut D,
    commits: &[u8],
    source: &RecordSource,
    window: &Window,
    reading: &mut Reading,
) -> Result<Option<Uncounted>, OpenError>
    requires shows { IfSome (D.told disk.old) (λ t. Shows (seen t) source.now.log.now source.now.lengths) }
    requires commits { IfSome (D.told disk.old) (λ t. commits.now ≡ seen t 1) }
    requires known { IsKnown (H.digest hash.now) window.now }
    requires reached { IsReadTo (H.digest hash.now) commits.now source.now.log.now reading.old }
    requires left { IsLeft (H.digest hash.now) (D.told disk.old) reading.old }
    ensures reached { OnOk result (IsReadTo (H.digest hash.now) commits.now source.now.log.now reading.new) }
    ensures left { OnOk result (IsLeft (H.digest hash.now) (D.told disk.old) reading.new) }
    ensures on { IfOk result (λ behind. IfNone behind (reading.old.gate < reading.new.gate)) }
    ensures behind { IfOk result (λ behind. IfSome behind (λ why. IsUncounted commits.now reading.new.gate why)) }
    ensures last { IfOk result (λ behind. IfSome behind (λ why. Counts commits.now reading.new.gate → ⊥)) }
    ensures unfit { (t : Told) → D.told disk.old ≡ Some t → IfErr result (Tells (image_checks (H.digest hash.now) (seen t))) }
    ensures told { D.told disk.new ≡ D.told disk.old }
    ensures cause { HasOpenCause (D.faults disk.old) (D.faults disk.new) result }
{
    'batches: loop {
        match batch_at(commits, reading.gate) {
            Ok(mark) => {
                let place = reading.gate as u64;
                let progress = &mut reading.progress;
                read_batch(alloc, hash, disk, source, &mark, place, window, progress)?;
                reading.gate += BATCH_OCTETS;
                reading.batches += 1;
                if reading.progress.alhs.len() as u64 >= window.until {
                    return Ok(None);
                }
            }
            Err(behind) => return Ok(Some(behind)),
        }
    }
}

/// Reads the batches that count, from the first one on.
pub(crate) fn read_batches<D: Disk, H: Hash32>(
    alloc: Global,
    hash: &H,
    disk: &mut D,
    commits: &[u8],
    source: &RecordSource,
) -> Result<BatchesRead, OpenError>
    requires shows { IfSome (D.told disk.old) (λ t. Shows (seen t) source.now.log.now source.now.lengths) }
    requires commits { IfSome (D.told disk.old) (λ t. commits.now ≡ seen t 1) }
    ensures all { IfOk result (AreAllRead (H.digest hash.now) (D.told disk.old) commits.now source.now.log.now) }
    ensures first { (t : Told) → D.told disk.old ≡ Some t → Judges (image_checks (H.digest hash.now) (seen t)) result }
    ensures told { D.told disk.new ≡ D.told disk.old }
    ensures cause { HasOpenCause (D.faults disk.old) (D.faults disk.new) result }
{
    let window = Window::empty(alloc);
    let mut reading = Reading::new(alloc);
    'stretches: loop {
        match read_stretch(alloc, hash, disk, commits, source, &window, &mut reading) {
            Ok(None) => {}
            Ok(Some(behind)) => {
                drop(window);
                return Ok(all_read(reading, behind));
            }
            Err(error) => {
                drop(window);
                drop(reading);
                return Err(error);
            }
        }
    }
}

/// Reads the batches that count, as `read_batches` does, a window at a time, where several threads hash the next meanwhile.
pub(crate) fn read_batches_on<R: Threads + Sync, D: Disk, H: Hash32 + Sync>(
    rt: &R,
    alloc: Global,
    hash: &H,
    disk: &mut D,
    commits: &[u8],
    source: &RecordSource,
) -> Result<BatchesRead, OpenError>
    requires shows { IfSome (D.told disk.old) (λ t. Shows (seen t) source.now.log.now source.now.lengths) }
    requires commits { IfSome (D.told disk.old) (λ t. commits.now ≡ seen t 1) }
    ensures all { IfOk result (AreAllRead (H.digest hash.now) (D.told disk.old) commits.now source.now.log.now) }
    ensures first { (t : Told) → D.told disk.old ≡ Some t → Judges (image_checks (H.digest hash.now) (seen t)) result }
    ensures told { D.told disk.new ≡ D.told disk.old }
    ensures cause { HasOpenCause (D.faults disk.old) (D.faults disk.new) result }
{
    let mut reading = Reading::new(alloc);
    match read_windows(rt, alloc, hash, disk, commits, source, &mut reading) {
        Ok(behind) => Ok(all_read(reading, behind)),
        Err(error) => {
            drop(reading);
            Err(error)
        }
    }
}

// Reads batches, a window at a time, while the next is hashed, and tells why none counts behind them.
fn read_windows<R: Threads + Sync, D: Disk, H: Hash32 + Sync>(
    rt: &R,
    alloc: Global,
    hash: &H,
    disk: &mut D,
    commits: &[u8],
    source: &RecordSource,
    reading: &mut Reading,
) -> Result<Uncounted, OpenError>
    requires shows { IfSome (D.told disk.old) (λ t. Shows (seen t) source.now.log.now source.now.lengths) }
    requires commits { IfSome (D.told disk.old) (λ t. commits.now ≡ seen t 1) }
    requires reached { IsReadTo (H.digest hash.now) commits.now source.now.log.now reading.old }
    requires left { IsLeft (H.digest hash.now) (D.told disk.old) reading.old }
    ensures reached { OnOk result (IsReadTo (H.digest hash.now) commits.now source.now.log.now reading.new) }
    ensures left { OnOk result (IsLeft (H.digest hash.now) (D.told disk.old) reading.new) }
    ensures behind { IfOk result (λ why. IsUncounted commits.now reading.new.gate why) }
    ensures last { OnOk result (Counts commits.now reading.new.gate → ⊥) }
    ensures unfit { (t : Told) → D.told disk.old ≡ Some t → IfErr result (Tells (image_checks (H.digest hash.now) (seen t))) }
    ensures told { D.told disk.new ≡ D.told disk.old }
    ensures cause { HasOpenCause (D.faults disk.old) (D.faults disk.new) result }
{
    let mut hashing = first_hashing(rt, alloc, hash, disk, source, &reading.progress)?;
    let behind = read_each(
        rt,
        alloc,
        hash,
        disk,
        commits,
        source,
        &mut hashing,
        reading,
    );
    drop(hashing);
    behind
}

// The same, behind what was hashed so far.
fn read_each<R: Threads + Sync, D: Disk, H: Hash32 + Sync>(
    rt: &R,
    alloc: Global,
    hash: &H,
    disk: &mut D,
    commits: &[u8],
    source: &RecordSource,
    hashing: &mut Hashing,
    reading: &mut Reading,
) -> Result<Uncounted, OpenError>
    requires shows { IfSome (D.told disk.old) (λ t. Shows (seen t) source.now.log.now source.now.lengths) }
    requires commits { IfSome (D.told disk.old) (λ t. commits.now ≡ seen t 1) }
    requires known { IsKnown (H.digest hash.now) hashing.old.window }
    requires reached { IsReadTo (H.digest hash.now) commits.now source.now.log.now reading.old }
    requires left { IsLeft (H.digest hash.now) (D.told disk.old) reading.old }
    ensures reached { OnOk result (IsReadTo (H.digest hash.now) commits.now source.now.log.now reading.new) }
    ensures left { OnOk result (IsLeft (H.digest hash.now) (D.told disk.old) reading.new) }
    ensures behind { IfOk result (λ why. IsUncounted commits.now reading.new.gate why) }
    ensures last { OnOk result (Counts commits.now reading.new.gate → ⊥) }
    ensures unfit { (t : Told) → D.told disk.old ≡ Some t → IfErr result (Tells (image_checks (H.digest hash.now) (seen t))) }
    ensures told { D.told disk.new ≡ D.told disk.old }
    ensures cause { HasOpenCause (D.faults disk.old) (D.faults disk.new) result }
{
    'stretches: loop {
        let (filled, behind) = read_beside(
            rt,
            alloc,
            hash,
            disk,
            commits,
            source,
            &hashing.window,
            &hashing.plans,
            &mut hashing.spent,
            &mut hashing.rows,
            reading,
        );
        match behind {
            Ok(Some(behind)) => {
                drop(filled);
                return Ok(behind);
            }
            Err(error) => {
                drop(filled);
                return Err(error);
            }
            Ok(None) => match filled {
                Ok(filled) => hashing.go_on(filled, &mut reading.next),
                Err(error) => return Err(OpenError::from(error)),
            },
        }
    }
}

// Reads batches up to the end of a window, and plans behind two plans, as `read_and_plan` does, while the window that was read
// before is let go, the first plan's window is filled, and the leaves of the second join the tree.
fn read_beside<R: Threads + Sync, D: Disk, H: Hash32 + Sync>(
    rt: &R,
    alloc: Global,
    hash: &H,
    disk: &mut D,
    commits: &[u8],
    source: &RecordSource,
    window: &Window,
    plans: &Plans,
    spent: &mut Option<Window>,
    rows: &mut Rows,
    reading: &mut Reading,
) -> (
    Result<Window, AllocError>,
    Result<Option<Uncounted>, OpenError>,
)
    requires shows { IfSome (D.told disk.old) (λ t. Shows (seen t) source.now.log.now source.now.lengths) }
    requires commits { IfSome (D.told disk.old) (λ t. commits.now ≡ seen t 1) }
    requires known { IsKnown (H.digest hash.now) window.now }
    requires reached { IsReadTo (H.digest hash.now) commits.now source.now.log.now reading.old }
    requires left { IsLeft (H.digest hash.now) (D.told disk.old) reading.old }
    ensures known { IfOk result.0 (λ filled. IsKnown (H.digest hash.now) filled) }
    ensures reached { OnOk result.1 (IsReadTo (H.digest hash.now) commits.now source.now.log.now reading.new) }
    ensures left { OnOk result.1 (IsLeft (H.digest hash.now) (D.told disk.old) reading.new) }
    ensures on { IfOk result.1 (λ behind. IfNone behind (reading.old.gate < reading.new.gate)) }
    ensures behind { IfOk result.1 (λ behind. IfSome behind (λ why. IsUncounted commits.now reading.new.gate why)) }
    ensures last { IfOk result.1 (λ behind. IfSome behind (λ why. Counts commits.now reading.new.gate → ⊥)) }
    ensures unfit { (t : Told) → D.told disk.old ≡ Some t → IfErr result.1 (Tells (image_checks (H.digest hash.now) (seen t))) }
    ensures told { D.told disk.new ≡ D.told disk.old }
    ensures cause { HasOpenCause (D.faults disk.old) (D.faults disk.new) result.1 }
{
    let log = source.log;
    let mut hashes = || fill(rt, alloc, hash, log, plans, spent, rows);
    let mut reads = || {
        read_and_plan(alloc, hash, disk, commits, source, window, plans, reading)
    };
    join_mut(rt, &mut hashes, &mut reads)
}

// Reads batches up to the end of a window, as `read_stretch` does, and, where some may count behind them, plans what is hashed
// behind two plans. First it lets the thread run that was started beside it.
fn read_and_plan<D: Disk, H: Hash32>(
    alloc: Global,
    hash: &H,
    disk: &mut D,
    commits: &[u8],
    source: &RecordSource,
    window: &Window,
    plans: &Plans,
    reading: &mut Reading,
) -> Result<Option<Uncounted>, OpenError>
    requires shows { IfSome (D.told disk.old) (λ t. Shows (seen t) source.now.log.now source.now.lengths) }
    requires commits { IfSome (D.told disk.old) (λ t. commits.now ≡ seen t 1) }
    requires known { IsKnown (H.digest hash.now) window.now }
    requires reached { IsReadTo (H.digest hash.now) commits.now source.now.log.now reading.old }
    requires left { IsLeft (H.digest hash.now) (D.told disk.old) reading.old }
    ensures reached { OnOk result (IsReadTo (H.digest hash.now) commits.now source.now.log.now reading.new) }
    ensures left { OnOk result (IsLeft (H.digest hash.now) (D.told disk.old) reading.new) }
    ensures on { IfOk result (λ behind. IfNone behind (reading.old.gate < reading.new.gate)) }
    ensures behind { IfOk result (λ behind. IfSome behind (λ why. IsUncounted commits.now reading.new.gate why)) }
    ensures last { IfOk result (λ behind. IfSome behind (λ why. Counts commits.now reading.new.gate → ⊥)) }
    ensures unfit { (t : Told) → D.told disk.old ≡ Some t → IfErr result (Tells (image_checks (H.digest hash.now) (seen t))) }
    ensures told { D.told disk.new ≡ D.told disk.old }
    ensures cause { HasOpenCause (D.faults disk.old) (D.faults disk.new) result }
{
    // The thread that starts those that hash may wait for the processor that this one has: without this, until this one's time slice ends.
    yield_now();
    if let Some(behind) = read_stretch(alloc, hash, disk, commits, source, window, reading)? {
        return Ok(Some(behind));
    }
    let planned = plan_behind(alloc, disk, source, &reading.progress, plans)?;
    drop(mem::replace(&mut reading.next, Some(planned)));
    Ok(None)
}
