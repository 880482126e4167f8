//! The numbers that are looked at behind a generated script: how many lines of its report a client accepts, and what its disk
//! was left with.

ghost use Rattle.std.specs.Prelude.{◌≡◌, List, [], length, IfOk};
ghost use Rattle.im_disk.specs.Recorded.{told_by};
ghost use Rattle.im_disk.specs.Disk.{seen};
ghost use Rattle.im_facts.specs.Verdicts.{Verdict as TheVerdict};
ghost use Rattle.im_format.specs.Standing.{Stands};
ghost use Rattle.im_model.specs.History.{alhs_of};
ghost use Rattle.im_model.specs.declared.transactions.Transaction.{Transaction};
ghost use Rattle.im_verify.specs.Judged.{IsVerified, NoneForked, NoneRefused, kept_texts, up_to_fork};
ghost use Rattle.im_status.specs.Numbers.{last_alh};

use crate::verdict::verdict;
use im_digest::{D32, Hash32};
use im_disk::memory::MemDisk;
use im_edge::keeper::{Keeper, MemKeeper};
use im_edge::sink::Writing;
use im_edge::source::Reading;
use im_opening::opening::{Recovered, open as recover};
use std::alloc::{AllocError, Global};

/// What was asked for can't be told: memory ran out, a line was refused or forked, or a disk is damaged. Of what `gen` runs want of memory
/// alone is known as a cause.
#[derive(Clone, Copy)]
pub struct Unfinished;

impl From<AllocError> for Unfinished {
    ghost from_gives = { λ _ _. Unit {0} };

    fn from(_: AllocError) -> Self {
        Unfinished
    }
}

/// How many lines of a report a client that knows nothing accepts, where it refuses and forks none.
pub fn accepted<H: Hash32>(alloc: Global, hash: &H, report: &[u8]) -> Result<u64, Unfinished>
    ensures { IfOk result (λ count. (verdicts : List TheVerdict) × IsVerified (H.digest hash.now) [] report.now verdicts
        × (NoneRefused verdicts × NoneForked verdicts) × (count ≡ length (kept_texts (up_to_fork verdicts)))) }
{
    let mut source = Reading::new(report);
    let mut sink = Writing::new(Vec::new(alloc));
    let mut keeper = MemKeeper::new(alloc);
    let status = verdict(alloc, hash, &mut source, &mut sink, &mut keeper);
    if !status.is_ok() {
        return Err(Unfinished);
    }
    match keeper.lines(alloc) {
        Ok(lines) => Ok(lines.len() as u64),
        Err(_) => Err(Unfinished),
    }
}

// The last of these Alh, that of the empty string where there is none.
fn alh_of<H: Hash32>(hash: &H, alhs: &[D32]) -> D32
    ensures { (history : List Transaction) → alhs.now ≡ alhs_of (H.digest hash.now) history → result ≡ last_alh (H.digest hash.now) history }
{
    match alhs.last() {
        Some(alh) => *alh,
        None => hash.hash(b"", b"", b""),
    }
}

/// What a disk was left with.
#[derive(Clone, Copy)]
pub struct Left {
    /// How many transactions it holds.
    pub count: u64,
    /// The Alh of the last one.
    pub alh: D32,
}

/// How many transactions a disk holds, and the Alh of the last one.
pub fn left_on<H: Hash32>(alloc: Global, hash: &H, disk: MemDisk) -> Result<Left, Unfinished>
    ensures { (history : List Transaction) → Stands (H.digest hash.now) (seen (told_by disk)) history
        → IfOk result (λ left. (left.count ≡ length history) × (left.alh ≡ last_alh (H.digest hash.now) history)) }
{
    match recover(alloc, hash, disk) {
        Ok(recovered) => {
            let Recovered { journal, found } = recovered;
            drop(journal);
            let count = found.alhs.len() as u64;
            let alh = alh_of(hash, &found.alhs);
            drop(found);
            Ok(Left { count, alh })
        }
        Err(failed) => {
            drop(failed);
            Err(Unfinished)
        }
    }
}
