ghost use Rattle.std.specs.Prelude.{◌≡◌, ◌≤◌, IfErr, IfOk};
ghost use Rattle.im_opening.specs.Found.{IsFound};
ghost use Rattle.im_opening.specs.Opening.{IsOneHistory};
ghost use Rattle.im_opening.specs.Opens.{FailsToOpen};
ghost use Rattle.im_opening.specs.declared.errors.OpenError.TheVariants.{Memory};
ghost use Rattle.im_store.specs.Found.{items_of};
ghost use Rattle.im_store.specs.Names.{naming_of};
ghost use Rattle.im_store_opening.specs.Opened.{OpensAs};

use crate::parts::parts_of;
use im_digest::Hash32;
use im_disk::disk::Disk;
use im_edge::clock::Clock;
use im_journal::journal::Journal;
use im_opening::errors::OpenError;
use im_opening::found::FoundHistory;
use im_opening::opening::{OpenFailed as NotRecovered, Recovered, open_on as recover};
use im_store::opened::Opened;
use im_table::law::Law;
use std::alloc::Global;
use std::thread::Threads;

/// A store that isn't opened, with the reason, and the disk and the clock, which come back.
#[derive(Drop)]
pub struct OpenFailed<D, C> {
    /// Why it isn't opened.
    pub why: OpenError,
    /// The disk, as it was left.
    pub disk: D,
    /// The clock, which wasn't asked.
    pub clock: C,
}

/// Opens a disk as a store whose values go to so many value logs, 1 to 4, under this hash and this clock. It makes the disk's files
/// durable, reads and checks them, closes the gate behind the batches that count where that is needed, fills tree and index with all
/// that is found, and gives a store that has no name yet: `Opened::named` of im_store.
///
/// The disk gets that first sync, and the closing of the gate behind the batches that reads give then, where it was missing or cut off: no
/// other call that changes it. Each value, entry and leaf is hashed, and each header twice, most of them by threads that hash ahead of the
/// reading (`open_on` of im_opening says what that takes). Each key and each value is copied once more, into the index.
///
/// # Errors
///
/// `Damaged` exactly where the files stand for no history: it tells the first place that doesn't hold what it should, in reading order.
/// `DiskFault` only where the disk failed in this call. `Memory`. The disk and the clock come back.
pub fn open<'h, R: Threads + Sync, H: Hash32 + Sync, D: Disk, C: Clock, L: Law>(
    rt: &R,
    alloc: Global,
    hash: &'h H,
    disk: D,
    clock: C,
    logs: u8,
) -> Result<Opened<'h, H, D, C, L>, OpenFailed<D, C>>
    requires logs { (1 ≤ logs) × (logs ≤ 4) }
    ensures opens { IfOk result (λ opened. OpensAs (D.told disk) (D.faults disk) (naming_of H.digest D.told D.faults C.constant C.given opened)) }
    ensures given { IfOk result (λ opened. (opened.hash ≡ hash.now) × (opened.logs ≡ logs)) }
    ensures clock { IfOk result (λ opened. opened.clock ≡ clock) }
    ensures failed { IfErr result (λ failed. FailsToOpen D.told D.faults (H.digest hash.now) disk failed.disk failed.why) }
    ensures back { IfErr result (λ failed. failed.clock ≡ clock) }
{
    match recover(rt, alloc, hash, disk) {
        Ok(recovered) => {
            let Recovered { journal, found } = recovered;
            opened_over(alloc, hash, journal, found, clock, logs)
        }
        Err(NotRecovered { disk, error }) => Err(OpenFailed {
            why: error,
            disk,
            clock,
        }),
    }
}

// A store over a journal at rest, of what was found. Its only error is want of memory.
fn opened_over<'h, H: Hash32, D: Disk, C: Clock, L: Law>(
    alloc: Global,
    hash: &'h H,
    journal: Journal<D>,
    found: FoundHistory,
    clock: C,
    logs: u8,
) -> Result<Opened<'h, H, D, C, L>, OpenFailed<D, C>>
    requires logs { (1 ≤ logs) × (logs ≤ 4) }
    requires rests { IsFound D.told (H.digest hash.now) journal found.records.items }
    requires found { IsOneHistory (H.digest hash.now) found }
    requires going { journal.failures ≡ 0 }
    ensures found { IfOk result (λ opened. (opened.found ≡ items_of found.records.items) × (opened.hash ≡ hash.now) × (opened.disk ≡ journal.disk)) }
    ensures given { IfOk result (λ opened. (opened.hash ≡ hash.now) × (opened.logs ≡ logs)) }
    ensures clock { IfOk result (λ opened. opened.clock ≡ clock) }
    ensures back { IfErr result (λ failed. (failed.disk ≡ journal.disk) × (failed.clock ≡ clock) × (failed.why ≡ Memory)) }
{
    match parts_of(alloc, hash, found, logs) {
        Ok((tip, parts)) => Ok(Opened::of(hash, tip, journal, clock, logs, parts)),
        Err(_) => Err(OpenFailed {
            why: OpenError::Memory,
            disk: journal.into_disk(),
            clock,
        }),
    }
}
