ghost use Rattle.std.specs.Prelude.{◌≡◌, ◌*◌, Some, IfOk, IfSome};
ghost use Rattle.im_digest.specs.Digests.{Hash};
ghost use Rattle.im_disk.specs.Causes.{HasCause};
ghost use Rattle.im_disk.specs.Disk.{Told, seen};
ghost use Rattle.im_format.specs.Damages.{image_checks};
ghost use Rattle.im_opening.specs.Answers.{HasOpenCause, Judges};
ghost use Rattle.im_opening.specs.Opening.{IsGivenBy};
ghost use Rattle.im_opening.specs.Reach.{Fits, IsWholeProgress};
ghost use Rattle.im_opening.specs.Stretches.{opened_as};
ghost use Rattle.im_record.specs.Slots.{HaveLengths};

use crate::ends::ends_of;
use crate::errors::OpenError;
use crate::found::FoundHistory;
use crate::source::RecordSource;
use crate::stretches::{BatchesRead, read_batches, read_batches_on};
use im_alog::reading::read_all;
use im_clog::marks::Uncounted;
use im_digest::Hash32;
use im_disk::disk::{Disk, DiskError};
use im_format::files::{COMMIT_LOG, FIRST_VALUE_LOG, TRANSACTION_LOG};
use im_journal::ends::Ends;
use std::alloc::Global;
use std::thread::Threads;

/// The files as they were read: the history of the batches that count, and where these end.
#[derive(Drop)]
pub struct Opened {
    /// The history of the batches that count.
    pub found: FoundHistory,
    /// The number of batches that count.
    pub batches: u64,
    /// Where the files end: the commit log at the gate behind the batches that count.
    pub ends: Ends,
    /// Why no batch counts at that gate.
    pub behind: Uncounted,
}

// The lengths of the value logs.
fn log_lengths<D: Disk>(disk: &mut D) -> Result<[u64; 4], DiskError>
    ensures lengths { (t : Told) → D.told disk.old ≡ Some t → IfOk result (HaveLengths (seen t)) }
    ensures told { D.told disk.new ≡ D.told disk.old }
    ensures cause { HasCause (D.faults disk.old) (D.faults disk.new) result }
{
    let first = disk.len(FIRST_VALUE_LOG)?;
    let second = disk.len(FIRST_VALUE_LOG + 1)?;
    let third = disk.len(FIRST_VALUE_LOG + 2)?;
    let fourth = disk.len(FIRST_VALUE_LOG + 3)?;
    Ok([first, second, third, fourth])
}

// The files as they were read, by all batches that count.
fn opened_of(read: BatchesRead) -> Opened
    ensures { (hash : Hash) → Fits hash read.progress → IsWholeProgress hash read.progress → read.gate ≡ 25 * read.batches
        → result ≡ opened_as read }
{
    let BatchesRead {
        progress,
        gate,
        batches,
        behind,
    } = read;
    let records = progress.records;
    let ends = Ends {
        records: progress.place,
        commits: gate as u64,
        values: ends_of(records.as_slice()),
    };
    let found = FoundHistory {
        records,
        headers: progress.headers,
        alhs: progress.alhs,
        tree: progress.tree,
    };
    Opened {
        found,
        batches,
        ends,
        behind,
    }
}

// Reads the batches that count, of these octets of the two logs.
fn read_logs<D: Disk, H: Hash32>(
    alloc: Global,
    hash: &H,
    disk: &mut D,
    commits: &[u8],
    log: &[u8],
) -> Result<Opened, OpenError>
    requires commits { IfSome (D.told disk.old) (λ t. commits.now ≡ seen t 1) }
    requires log { IfSome (D.told disk.old) (λ t. log.now ≡ seen t 0) }
    ensures given { IfOk result (IsGivenBy (H.digest hash.now) (D.told disk.old)) }
    ensures first { (t : Told) → D.told disk.old ≡ Some t → Judges (image_checks (H.digest hash.now) (seen t)) result }
    ensures told { D.told disk.new ≡ D.told disk.old }
    ensures cause { HasOpenCause (D.faults disk.old) (D.faults disk.new) result }
{
    let lengths = log_lengths(disk)?;
    let source = RecordSource { log, lengths };
    let read = read_batches(alloc, hash, disk, commits, &source)?;
    Ok(opened_of(read))
}

// The same, where several threads hash ahead.
fn read_logs_on<R: Threads + Sync, D: Disk, H: Hash32 + Sync>(
    rt: &R,
    alloc: Global,
    hash: &H,
    disk: &mut D,
    commits: &[u8],
    log: &[u8],
) -> Result<Opened, OpenError>
    requires commits { IfSome (D.told disk.old) (λ t. commits.now ≡ seen t 1) }
    requires log { IfSome (D.told disk.old) (λ t. log.now ≡ seen t 0) }
    ensures given { IfOk result (IsGivenBy (H.digest hash.now) (D.told disk.old)) }
    ensures first { (t : Told) → D.told disk.old ≡ Some t → Judges (image_checks (H.digest hash.now) (seen t)) result }
    ensures told { D.told disk.new ≡ D.told disk.old }
    ensures cause { HasOpenCause (D.faults disk.old) (D.faults disk.new) result }
{
    let lengths = log_lengths(disk)?;
    let source = RecordSource { log, lengths };
    let read = read_batches_on(rt, alloc, hash, disk, commits, &source)?;
    Ok(opened_of(read))
}

/// Reads the files and checks them. Nothing is written.
///
/// Six `len`; one `read` for each of the two logs, into a buffer of its length, and one for each value. Of each
/// transaction it hashes every value and every entry once, the tree over the entries once, and the header twice, for
/// the inner digest and for the Alh. Each Alh that is linked costs less than two hashes, and each transaction whose
/// tree grew at most 63 more, for its root. The first transaction costs one more, of no octets.
///
/// # Errors
///
/// `Damaged` tells the first place that doesn't hold what it should, in reading order. `DiskFault` comes only
/// where the disk failed.
pub fn read_files<D: Disk, H: Hash32>(
    alloc: Global,
    hash: &H,
    disk: &mut D,
) -> Result<Opened, OpenError>
    ensures given { IfOk result (IsGivenBy (H.digest hash.now) (D.told disk.old)) }
    ensures first { (t : Told) → D.told disk.old ≡ Some t → Judges (image_checks (H.digest hash.now) (seen t)) result }
    ensures told { D.told disk.new ≡ D.told disk.old }
    ensures cause { HasOpenCause (D.faults disk.old) (D.faults disk.new) result }
{
    let commits = read_all(alloc, disk, COMMIT_LOG)?;
    let log = read_all(alloc, disk, TRANSACTION_LOG)?;
    read_logs(alloc, hash, disk, commits.as_slice(), log.as_slice())
}

/// Reads the files and checks them, as `read_files` does, where several threads hash ahead of the reading. `DiskFault` comes too
/// where the disk failed at a value that `read_files` doesn't read.
pub(crate) fn read_files_on<R: Threads + Sync, D: Disk, H: Hash32 + Sync>(
    rt: &R,
    alloc: Global,
    hash: &H,
    disk: &mut D,
) -> Result<Opened, OpenError>
    ensures given { IfOk result (IsGivenBy (H.digest hash.now) (D.told disk.old)) }
    ensures first { (t : Told) → D.told disk.old ≡ Some t → Judges (image_checks (H.digest hash.now) (seen t)) result }
    ensures told { D.told disk.new ≡ D.told disk.old }
    ensures cause { HasOpenCause (D.faults disk.old) (D.faults disk.new) result }
{
    let commits = read_all(alloc, disk, COMMIT_LOG)?;
    let log = read_all(alloc, disk, TRANSACTION_LOG)?;
    read_logs_on(rt, alloc, hash, disk, commits.as_slice(), log.as_slice())
}
