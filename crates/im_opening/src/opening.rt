ghost use Rattle.std.specs.Prelude.{◌≡◌, List, Some, IfOk, IfErr};
ghost use Rattle.im_digest.specs.Digests.{Hash};
ghost use Rattle.im_disk.specs.Disk.{Told, seen};
ghost use Rattle.im_disk.specs.Grown.{Grows};
ghost use Rattle.im_format.specs.Damages.{image_checks};
ghost use Rattle.im_format.specs.Standing.{Stands};
ghost use Rattle.im_journal.specs.Kept.{IsAtRest};
ghost use Rattle.im_journal.specs.declared.batches.Step.TheVariants.{Idle};
ghost use Rattle.im_model.specs.declared.transactions.Transaction.{Transaction};
ghost use Rattle.im_opening.specs.Answers.{HasOpenCause, Judges};
ghost use Rattle.im_opening.specs.Cut.{WasLeft, WasOpened};
ghost use Rattle.im_opening.specs.Found.{IsFound};
ghost use Rattle.im_opening.specs.Opening.{IsOneHistory};
ghost use Rattle.im_opening.specs.Opens.{AreFilesOpened, AreOpened, FailsToOpen, Opens};
ghost use Rattle.im_opening.specs.Reach.{txs_of};
ghost use Rattle.im_opening.specs.Stretches.{IsLong, IsReading};

use crate::ahead::Ahead;
use crate::errors::OpenError;
use crate::found::FoundHistory;
use crate::reading::{Opened, read_files, read_files_on};
use crate::repair::repair;
use im_alog::laying::sync;
use im_digest::Hash32;
use im_disk::disk::Disk;
use im_journal::journal::Journal;
use std::alloc::Global;
use std::thread::Threads;

/// A disk that was opened: its journal, at rest, and the history that it holds.
#[derive(Drop)]
pub struct Recovered<D: Disk> {
    /// The journal, at rest.
    pub journal: Journal<D>,
    /// The durable transactions, with all that was computed of them.
    pub found: FoundHistory,
}

/// A disk that isn't opened, with the reason.
#[derive(Drop)]
pub struct OpenFailed<D: Drop> {
    /// The disk, as it was left.
    pub disk: D,
    /// Why it isn't opened.
    pub error: OpenError,
}

// Opens the files of a disk, which a function reads. Of files that are damaged nothing is written.
fn open_files<D: Disk, H: Hash32, F: FnOnce(&H, &mut D) -> Result<Opened, OpenError>>(
    hash: &H,
    disk: &mut D,
    read: F,
) -> Result<Opened, OpenError>
    requires callable { F.IsAlwaysCallable read }
    requires reads { (hash was answer now : _) → F.post read hash was answer now
        → IsReading (H.digest hash.now) D.told D.faults was.now now.now answer }
    ensures opened { IfOk result (AreOpened (H.digest hash.now) (D.told disk.old) (D.told disk.new)) }
    ensures first { (t : Told) → D.told disk.old ≡ Some t → Judges (image_checks (H.digest hash.now) (seen t)) result }
    ensures moments { (t : Told) (history : List Transaction) → D.told disk.old ≡ Some t → Stands (H.digest hash.now) (seen t) history
        → WasOpened (H.digest hash.now) history t (D.told disk.new) }
    ensures left { (t : Told) → D.told disk.old ≡ Some t → IfErr result (λ error. WasLeft (H.digest hash.now) error t (D.told disk.new)) }
    ensures grows { Grows (D.told disk.old) (D.told disk.new) }
    ensures cause { HasOpenCause (D.faults disk.old) (D.faults disk.new) result }
{
    sync(disk)?;
    let opened = read(hash, disk)?;
    match repair(disk, &opened) {
        Ok(()) => Ok(opened),
        Err(error) => {
            drop(opened);
            Err(OpenError::from(error))
        }
    }
}

/// Opens a disk: makes its files durable, reads and checks them, closes the gate behind the batches that count
/// where that is needed, and gives a journal at rest, which no call of the disk has failed, with the history that
/// was found. A disk that isn't opened is handed back with the reason.
///
/// One `sync`; the hashes of `read_files`, and its reads, but that value logs are read ahead in pieces of 65,536 octets,
/// with one `len` and one `read` for each piece; and where the gate isn't closed, one `write_at` and one `sync` more.
///
/// # Errors
///
/// `Damaged` tells the first place that doesn't hold what it should, in reading order; nothing is written then.
/// `DiskFault` comes only where the disk failed in this call.
pub fn open<D: Disk, H: Hash32>(
    alloc: Global,
    hash: &H,
    disk: D,
) -> Result<Recovered<D>, OpenFailed<D>>
    ensures opens { IfOk result (λ r. Opens D.told D.faults (H.digest hash.now) disk r.journal.disk r.journal.ends.commits (txs_of r.found.records.items)) }
    ensures rests { IfOk result (λ r. IsFound D.told (H.digest hash.now) r.journal r.found.records.items) }
    // Its batches are those by which the files stood for the history.
    ensures held { (t : Told) (history : List Transaction) → D.told disk ≡ Some t → (stands : Stands (H.digest hash.now) (seen t) history)
        → IfOk result (λ r. IsAtRest D.told (H.digest hash.now) history stands.batches r.journal) }
    ensures found { IfOk result (λ r. IsOneHistory (H.digest hash.now) r.found) }
    ensures fresh { IfOk result (λ r. (r.journal.failures ≡ 0) × (r.journal.batch.step ≡ Idle)) }
    ensures failed { IfErr result (λ failed. FailsToOpen D.told D.faults (H.digest hash.now) disk failed.disk failed.error) }
    // Whatever the files are.
    ensures left { (t : Told) → D.told disk ≡ Some t
        → IfErr result (λ failed. WasLeft (H.digest hash.now) failed.error t (D.told failed.disk)) }
{
    let mut ahead = Ahead::new(alloc, disk);
    let read = |hash: &H, disk: &mut Ahead<D>| read_files(alloc, hash, disk);
    let answer = open_files(hash, &mut ahead, read);
    resumed(alloc, ahead, answer)
}

/// Opens a disk, as `open` does, where several threads hash ahead of the reading: two for each processor at most, which take chunks of
/// 16 records or more by turns (the last may have fewer), and one for the tree, or two where 32,767 Alh or more are linked at once. They
/// hash a window of records at once: at most 4,096; of a transaction log above 32 MiB at most one for each 8 KiB of it, and of one above
/// 128 MiB at most 16,384; and no more than, but for the last, lie in 512 octets for each of so many. Meanwhile they hash the tree, as
/// the window behind that one finds it. The disk gets the changing calls that `open` makes. A value of at most 160 octets is asked for
/// twice, but for those of the first window, and so may be values behind the first damage or behind the last batch that counts.
///
/// It takes memory for what is hashed of two windows, about 4 KiB for a record of one entry and 0.7 KiB for each entry more; 112 octets
/// for each record that three windows may have; for those values of three windows that have at most 160 octets; and about 550 octets for
/// each Alh that is linked by three windows, of 98,304 at most, and 32 for each beyond.
///
/// One thread hashes the empty values, those above 160 octets and those of the first window, the first batch, and what a batch
/// has behind the window that is read. Where the files are damaged, or more than 32,768 Alh are linked at once, some strings
/// are hashed twice; so are those of the first batch, those that a batch has behind the window, and entries of more than 160 octets.
///
/// # Errors
///
/// As `open`; but `DiskFault` comes too where the disk failed at a value that `open` doesn't read.
pub fn open_on<R: Threads + Sync, D: Disk, H: Hash32 + Sync>(
    rt: &R,
    alloc: Global,
    hash: &H,
    disk: D,
) -> Result<Recovered<D>, OpenFailed<D>>
    ensures opens { IfOk result (λ r. Opens D.told D.faults (H.digest hash.now) disk r.journal.disk r.journal.ends.commits (txs_of r.found.records.items)) }
    ensures rests { IfOk result (λ r. IsFound D.told (H.digest hash.now) r.journal r.found.records.items) }
    // Its batches are those by which the files stood for the history.
    ensures held { (t : Told) (history : List Transaction) → D.told disk ≡ Some t → (stands : Stands (H.digest hash.now) (seen t) history)
        → IfOk result (λ r. IsAtRest D.told (H.digest hash.now) history stands.batches r.journal) }
    ensures found { IfOk result (λ r. IsOneHistory (H.digest hash.now) r.found) }
    ensures fresh { IfOk result (λ r. (r.journal.failures ≡ 0) × (r.journal.batch.step ≡ Idle)) }
    ensures failed { IfErr result (λ failed. FailsToOpen D.told D.faults (H.digest hash.now) disk failed.disk failed.error) }
    // Whatever the files are.
    ensures left { (t : Told) → D.told disk ≡ Some t
        → IfErr result (λ failed. WasLeft (H.digest hash.now) failed.error t (D.told failed.disk)) }
{
    let mut ahead = Ahead::new(alloc, disk);
    let read = |hash: &H, disk: &mut Ahead<D>| read_files_on(rt, alloc, hash, disk);
    let answer = open_files(hash, &mut ahead, read);
    resumed(alloc, ahead, answer)
}

// The journal of a disk whose files were opened, at rest, with what was found; or the disk, where they weren't.
fn resumed<D: Disk>(
    alloc: Global,
    ahead: Ahead<D>,
    answer: Result<Opened, OpenError>,
) -> Result<Recovered<D>, OpenFailed<D>>
    requires files { (hash : Hash) × (before : D) × IsLong hash × AreFilesOpened hash D.told D.faults before ahead answer }
    ensures opens { (hash : Hash) (before : D) → IsLong hash → AreFilesOpened hash D.told D.faults before ahead answer
        → IfOk result (λ r. Opens D.told D.faults hash before r.journal.disk r.journal.ends.commits (txs_of r.found.records.items)) }
    ensures rests { (hash : Hash) (before : D) → IsLong hash → AreFilesOpened hash D.told D.faults before ahead answer
        → IfOk result (λ r. IsFound D.told hash r.journal r.found.records.items) }
    ensures held { (hash : Hash) (before : D) → IsLong hash → AreFilesOpened hash D.told D.faults before ahead answer
        → (t : Told) (history : List Transaction) → D.told before ≡ Some t → (stands : Stands hash (seen t) history)
        → IfOk result (λ r. IsAtRest D.told hash history stands.batches r.journal) }
    ensures found { (hash : Hash) (before : D) → AreFilesOpened hash D.told D.faults before ahead answer
        → IfOk result (λ r. IsOneHistory hash r.found) }
    ensures fresh { (hash : Hash) (before : D) → IsLong hash → AreFilesOpened hash D.told D.faults before ahead answer
        → IfOk result (λ r. (r.journal.failures ≡ 0) × (r.journal.batch.step ≡ Idle)) }
    ensures failed { (hash : Hash) (before : D) → IsLong hash → AreFilesOpened hash D.told D.faults before ahead answer
        → IfErr result (λ failed. FailsToOpen D.told D.faults hash before failed.disk failed.error) }
    ensures left { (hash : Hash) (before : D) → AreFilesOpened hash D.told D.faults before ahead answer → (t : Told) → D.told before ≡ Some t
        → IfErr result (λ failed. WasLeft hash failed.error t (D.told failed.disk)) }
{
    let opened = match answer {
        Ok(opened) => opened,
        Err(error) => {
            let disk = ahead.into_disk();
            return Err(OpenFailed { disk, error });
        }
    };
    let disk = ahead.into_disk();
    let Opened {
        found,
        batches: _,
        ends,
        behind: _,
    } = opened;
    let durable = found.records.len() as u64;
    let journal = Journal::resume(alloc, disk, ends, durable);
    Ok(Recovered { journal, found })
}
