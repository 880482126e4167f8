// What a store was opened with, before it gets its name.
ghost use Rattle.std.specs.Prelude.{◌≡◌, length, IfOk};
ghost use Rattle.im_index.specs.Indexed.{IsSnapshotOf};
ghost use Rattle.im_table.specs.Histories.{history_of};

use crate::opened::Opened;
use im_digest::Hash32;
use im_disk::disk::Disk;
use im_edge::clock::Clock;
use im_index::snapshot::Snapshot;
use im_table::law::Law;
use std::alloc::{AllocError, Global};

impl<'h, H: Hash32, D: Disk, C: Clock, L: Law> Opened<'h, H, D, C, L> {
    /// What stands of the keys behind all that was found, as a value of the caller's own, and how many transactions that is. It shares the
    /// index's runs, copies none of their versions, and waits for nobody. Its only error is want of memory.
    pub fn keys(&self, alloc: Global) -> Result<(Snapshot, u64), AllocError>
        ensures { IfOk result (λ keys. IsSnapshotOf keys.0 (history_of self.now.found) × (keys.1 ≡ length self.now.found)) }
    {
        let index = &self.parts.index;
        let count = index.taken();
        Ok((index.snapshot(alloc, count)?, count))
    }

    /// Hands the disk and the clock back, as they are. It takes no memory.
    pub fn close(self) -> (D, C)
        ensures { (result.0 ≡ self.entry.disk) × (result.1 ≡ self.entry.clock) }
    {
        let Opened {
            hash: _,
            tip,
            journal,
            clock,
            logs: _,
            parts,
        } = self;
        drop(tip);
        drop(parts);
        (journal.into_disk(), clock)
    }
}
