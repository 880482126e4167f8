ghost use Rattle.std.specs.Prelude.{◌≡◌, ◌≤◌, ◌<◌, ◌+◌, ◌^◌, length, Some, OnOk, IfSome};
ghost use Rattle.im_clog.specs.Marks.{mark_at};
ghost use Rattle.im_disk.specs.Disk.{Told, seen};
ghost use Rattle.im_format.specs.Damages.{batch_checks, numbers};
ghost use Rattle.im_mtree.specs.Checks.{first_fail};
ghost use Rattle.im_opening.specs.Answers.{HasOpenCause, Judges};
ghost use Rattle.im_hash_ahead.specs.Facts.{IsKnown};
ghost use Rattle.im_opening.specs.Parts.{Shows, mark_checks};
ghost use Rattle.im_opening.specs.Reach.{AreMore, Fits, IsWholeProgress, reached_of};

use crate::errors::OpenError;
use crate::records::{Progress, read_records};
use crate::source::RecordSource;
use im_clog::marks::Mark;
use im_digest::Hash32;
use im_disk::disk::Disk;
use im_format::damages::{Damage, Difference};
use im_hash_ahead::windows::Window;
use im_model::limits::MOST_TRANSACTIONS;
use std::alloc::Global;

// Two numbers of the commit log that differ where they should not.
fn damage(at: u64, want: u64, got: u64) -> Damage
    ensures { result ≡ numbers 1 at want got }
{
    let found = Difference::Numbers { want, got };
    Damage { file: 1, at, found }
}

// Checks the first ID and the count of a batch, behind so many transactions.
fn check_mark(mark: &Mark, gate: u64, before: u64) -> Result<(), Damage>
    requires gate { gate < 2 ^ 63 }
    requires few { before ≤ 1048576 }
    ensures first { result ≡ first_fail (mark_checks mark.now gate before) }
    ensures some { OnOk result (1 ≤ mark.now.count) }
    ensures room { OnOk result (before + mark.now.count ≤ 1048576) }
{
    if mark.first != before + 1 {
        return Err(damage(gate + 1, before + 1, mark.first));
    }
    if mark.count == 0 {
        return Err(damage(gate + 9, 1, 0));
    }
    if mark.count > MOST_TRANSACTIONS - before {
        return Err(damage(gate + 9, MOST_TRANSACTIONS - before, mark.count));
    }
    Ok(())
}

/// Reads the records of the batch with this mark, whose gate stands at a place of the commit log, with the digests that a
/// window has.
pub(crate) fn read_batch<D: Disk, H: Hash32>(
    alloc: Global,
    hash: &H,
    disk: &mut D,
    source: &RecordSource,
    mark: &Mark,
    gate: u64,
    window: &Window,
    progress: &mut Progress,
) -> Result<(), OpenError>
    requires shows { IfSome (D.told disk.old) (λ t. Shows (seen t) source.now.log.now source.now.lengths) }
    requires mark { IfSome (D.told disk.old) (λ t. mark.now ≡ mark_at (seen t 1) gate) }
    requires gate { gate < 2 ^ 63 }
    requires place { progress.old.place ≤ length source.now.log.now }
    requires fits { Fits (H.digest hash.now) progress.old }
    requires whole { IsWholeProgress (H.digest hash.now) progress.old }
    requires known { IsKnown (H.digest hash.now) window.now }
    ensures within { OnOk result (progress.new.place ≤ length source.now.log.now) }
    ensures some { OnOk result (1 ≤ mark.now.count) }
    ensures more { OnOk result (length progress.new.alhs.items ≡ length progress.old.alhs.items + mark.now.count) }
    ensures fits { OnOk result (Fits (H.digest hash.now) progress.new) }
    ensures whole { OnOk result (IsWholeProgress (H.digest hash.now) progress.new) }
    ensures read { (t : Told) → D.told disk.old ≡ Some t
        → OnOk result (AreMore (H.digest hash.now) (seen t) mark.now.count progress.old progress.new) }
    ensures first { (t : Told) → D.told disk.old ≡ Some t
        → Judges (batch_checks (H.digest hash.now) (seen t) gate (reached_of progress.old)) result }
    ensures told { D.told disk.new ≡ D.told disk.old }
    ensures cause { HasOpenCause (D.faults disk.old) (D.faults disk.new) result }
{
    check_mark(mark, gate, progress.alhs.len() as u64)?;
    read_records(alloc, hash, disk, source, mark.count, window, progress)?;
    if mark.end != progress.place {
        let found = damage(gate + 17, progress.place, mark.end);
        return Err(OpenError::Damaged(found));
    }
    Ok(())
}
