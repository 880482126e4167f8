ghost use Rattle.std.specs.Prelude.{◌≡◌, ◌≤◌, ◌<◌, ◌+◌, ◌∷◌, ◌++◌, [], length, map, take, List, Some, IfErr, IfOk, OnOk, IfSome};
ghost use Rattle.im_disk.specs.Disk.{Told, seen};
ghost use Rattle.im_format.specs.Damages.{record_checks, records_checks};
ghost use Rattle.im_levels.specs.Leveled.{IsLeveled};
ghost use Rattle.im_model.specs.Entries.{entry_digest};
ghost use Rattle.im_model.specs.History.{IsTransaction, bl_root_of, next_header};
ghost use Rattle.im_format.specs.declared.damages.Damage.{Damage};
ghost use Rattle.im_mtree.specs.Checks.{Check};
ghost use Rattle.im_opening.specs.Answers.{HasOpenCause, Judges};
ghost use Rattle.im_hash_ahead.specs.Facts.{IsKnown};
ghost use Rattle.im_opening.specs.Parts.{Shows};
ghost use Rattle.im_opening.specs.Reach.{AreMore, Fits, IsOneMore, IsWholeProgress, reached_of};

use crate::errors::OpenError;
use crate::source::RecordSource;
use crate::transactions::{TransactionRead, read_transaction};
use im_atree::trees::Tree;
use im_digest::{D32, Hash32};
use im_disk::disk::Disk;
use im_format::records::Record;
use im_format::references::Refs;
use im_hash_ahead::known::Known;
use im_hash_ahead::windows::Window;
use im_header::alh;
use im_header::next::next_header;
use im_model::headers::Header;
use im_model::transactions::Transaction;
use im_mtree::roots::root;
use im_record::alhs::read_alh;
use std::alloc::{AllocError, Global};

/// How far the files were read: the records so far, their headers and their Alh, the size of the last one's tree,
/// its root and the tree itself, and the place where the last one ends in the transaction log.
#[derive(Drop)]
pub(crate) struct Progress {
    pub records: Vec<Record>,
    pub headers: Vec<Header>,
    pub alhs: Vec<D32>,
    pub bl: u64,
    pub bl_root: D32,
    pub tree: Tree,
    pub place: u64,
}

impl Progress {
    // Adds a record that ends at a place, and its header, whose tree has this root. Its only error is want of memory.
    fn add(
        &mut self,
        next: Record,
        header: Header,
        bl_root: D32,
        place: u64,
    ) -> Result<(), AllocError>
        ensures records { OnOk result (self.new.records.items ≡ self.old.records.items ++ next ∷ []) }
        ensures headers { OnOk result (self.new.headers.items ≡ self.old.headers.items ++ header ∷ []) }
        ensures alhs { OnOk result (self.new.alhs.items ≡ self.old.alhs.items ++ next.alh ∷ []) }
        ensures linked { OnOk result ((self.new.bl ≡ next.tx.bl) × (self.new.bl_root ≡ bl_root) × (self.new.tree ≡ self.old.tree)) }
        ensures place { OnOk result (self.new.place ≡ place) }
    {
        self.bl = next.tx.bl;
        self.bl_root = bl_root;
        self.place = place;
        self.alhs.push(next.alh)?;
        self.records.push(next)?;
        self.headers.push(header)?;
        Ok(())
    }
}

// Lets the tree over the first Alh grow to so many of them, and gives its root. Where it doesn't grow, that is
// the root as it was. Its only error is want of memory.
fn grow<H: Hash32>(
    hash: &H,
    tree: &mut Tree,
    root: D32,
    alhs: &[D32],
    bl: u64,
) -> Result<D32, AllocError>
    requires tree { IsLeveled (H.digest hash.now) (take tree.old.size alhs.now) tree.old }
    requires root { root ≡ bl_root_of (H.digest hash.now) alhs.now tree.old.size }
    requires rises { tree.old.size ≤ bl }
    requires linked { bl ≤ length alhs.now }
    ensures root { IfOk result (λ root. root ≡ bl_root_of (H.digest hash.now) alhs.now bl) }
    ensures tree { OnOk result (IsLeveled (H.digest hash.now) (take bl alhs.now) tree.new) }
{
    let size = tree.size();
    if bl == size {
        return Ok(root);
    }
    tree.extend(hash, &alhs[size as usize..bl as usize])?;
    Ok(tree.root_at(hash, bl))
}

// The header of the next transaction, whose tree has this root, and whose entries have these digests.
fn header_behind<H: Hash32>(
    alloc: Global,
    hash: &H,
    progress: &Progress,
    tx: &Transaction,
    bl_root: D32,
    digests: &[D32],
) -> Header
    requires few { length progress.now.alhs.items < 1048576 }
    requires tx { IsTransaction (length progress.now.alhs.items) tx.now }
    requires root { bl_root ≡ bl_root_of (H.digest hash.now) progress.now.alhs.items tx.now.bl }
    requires digests { digests.now ≡ map (entry_digest (H.digest hash.now)) tx.now.entries }
    ensures { result ≡ next_header (H.digest hash.now) progress.now.alhs.items tx.now }
{
    let eh = root(hash, digests);
    next_header(alloc, hash, progress.alhs.as_slice(), bl_root, tx, eh)
}

// Reads the next record, with the values of its transaction.
fn read_record<D: Disk, H: Hash32>(
    alloc: Global,
    hash: &H,
    disk: &mut D,
    source: &RecordSource,
    progress: &mut Progress,
) -> Result<(), OpenError>
    requires shows { IfSome (D.told disk.old) (λ t. Shows (seen t) source.now.log.now source.now.lengths) }
    requires place { progress.old.place ≤ length source.now.log.now }
    requires few { length progress.old.alhs.items < 1048576 }
    requires fits { Fits (H.digest hash.now) progress.old }
    requires whole { IsWholeProgress (H.digest hash.now) progress.old }
    ensures within { OnOk result (progress.new.place ≤ length source.now.log.now) }
    ensures more { OnOk result (length progress.new.alhs.items ≡ length progress.old.alhs.items + 1) }
    ensures fits { OnOk result (Fits (H.digest hash.now) progress.new) }
    ensures whole { OnOk result (IsWholeProgress (H.digest hash.now) progress.new) }
    ensures read { (t : Told) → D.told disk.old ≡ Some t
        → OnOk result (IsOneMore (H.digest hash.now) (seen t) progress.old progress.new) }
    ensures first { (t : Told) → D.told disk.old ≡ Some t
        → Judges (record_checks (H.digest hash.now) (seen t) (reached_of progress.old)) result }
    ensures told { D.told disk.new ≡ D.told disk.old }
    ensures cause { HasOpenCause (D.faults disk.old) (D.faults disk.new) result }
{
    let id = progress.alhs.len() as u64 + 1;
    let read = read_transaction(alloc, hash, disk, source, id, progress.place, progress.bl)?;
    let alhs = progress.alhs.as_slice();
    let bl_root = match grow(hash, &mut progress.tree, progress.bl_root, alhs, read.tx.bl) {
        Ok(bl_root) => bl_root,
        Err(error) => {
            drop(read);
            return Err(OpenError::from(error));
        }
    };
    let TransactionRead {
        tx,
        digests,
        refs,
        end,
    } = read;
    let header = header_behind(alloc, hash, progress, &tx, bl_root, digests.as_slice());
    drop(digests);
    let next = Record {
        tx,
        refs: Refs::from_vec(refs),
        alh: alh(hash, &header),
    };
    let place = match read_alh(source.log, end, &next.alh) {
        Ok(place) => place,
        Err(damage) => {
            drop(next);
            drop(header);
            return Err(OpenError::from(damage));
        }
    };
    progress.add(next, header, bl_root, place)?;
    Ok(())
}

// Reads the next record, as `read_record` does, with the digests that a window has.
fn read_known<D: Disk, H: Hash32>(
    alloc: Global,
    hash: &H,
    disk: &mut D,
    source: &RecordSource,
    window: &Window,
    progress: &mut Progress,
) -> Result<(), OpenError>
    requires shows { IfSome (D.told disk.old) (λ t. Shows (seen t) source.now.log.now source.now.lengths) }
    requires place { progress.old.place ≤ length source.now.log.now }
    requires few { length progress.old.alhs.items < 1048576 }
    requires fits { Fits (H.digest hash.now) progress.old }
    requires whole { IsWholeProgress (H.digest hash.now) progress.old }
    requires known { IsKnown (H.digest hash.now) window.now }
    ensures within { OnOk result (progress.new.place ≤ length source.now.log.now) }
    ensures more { OnOk result (length progress.new.alhs.items ≡ length progress.old.alhs.items + 1) }
    ensures fits { OnOk result (Fits (H.digest hash.now) progress.new) }
    ensures whole { OnOk result (IsWholeProgress (H.digest hash.now) progress.new) }
    ensures read { (t : Told) → D.told disk.old ≡ Some t
        → OnOk result (IsOneMore (H.digest hash.now) (seen t) progress.old progress.new) }
    ensures first { (t : Told) → D.told disk.old ≡ Some t
        → Judges (record_checks (H.digest hash.now) (seen t) (reached_of progress.old)) result }
    ensures told { D.told disk.new ≡ D.told disk.old }
    ensures cause { HasOpenCause (D.faults disk.old) (D.faults disk.new) result }
{
    let near = window.near_of(progress.alhs.len() as u64);
    let known = Known::of(hash, near, &window.far);
    read_record(alloc, &known, disk, source, progress)
}

/// Reads so many records that follow each other, with the digests that a window has.
pub(crate) fn read_records<D: Disk, H: Hash32>(
    alloc: Global,
    hash: &H,
    disk: &mut D,
    source: &RecordSource,
    count: u64,
    window: &Window,
    progress: &mut Progress,
) -> Result<(), OpenError>
    requires shows { IfSome (D.told disk.old) (λ t. Shows (seen t) source.now.log.now source.now.lengths) }
    requires place { progress.old.place ≤ length source.now.log.now }
    requires few { length progress.old.alhs.items + count ≤ 1048576 }
    requires fits { Fits (H.digest hash.now) progress.old }
    requires whole { IsWholeProgress (H.digest hash.now) progress.old }
    requires known { IsKnown (H.digest hash.now) window.now }
    ensures within { OnOk result (progress.new.place ≤ length source.now.log.now) }
    ensures more { OnOk result (length progress.new.alhs.items ≡ length progress.old.alhs.items + count) }
    ensures fits { OnOk result (Fits (H.digest hash.now) progress.new) }
    ensures whole { OnOk result (IsWholeProgress (H.digest hash.now) progress.new) }
    ensures read { (t : Told) → D.told disk.old ≡ Some t
        → OnOk result (AreMore (H.digest hash.now) (seen t) count progress.old progress.new) }
    ensures first { (t : Told) → D.told disk.old ≡ Some t
        → Judges (records_checks (H.digest hash.now) (seen t) count (reached_of progress.old)) result }
    ensures told { D.told disk.new ≡ D.told disk.old }
    ensures cause { HasOpenCause (D.faults disk.old) (D.faults disk.new) result }
{
    for _i in 0..count {
        read_known(alloc, hash, disk, source, window, progress)?;
    }
    Ok(())
}
