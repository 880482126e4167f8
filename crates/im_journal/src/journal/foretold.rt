// A journal whose disk is told when to fail.
ghost use Rattle.std.specs.Prelude.{◌≡◌, OnErr, OnOk};
ghost use Rattle.im_disk.specs.Recorded.{failing_next, told_by};

use crate::journal::Journal;
use im_disk::memory::MemDisk;
use std::alloc::AllocError;

impl Journal<MemDisk> {
    /// Has the next changing call of the disk in memory fail, beside those that are to fail already. What the disk tells stays
    /// as it was, and so does all else of the journal. Its only error is want of memory, and leaves the journal as it was.
    pub fn fail_next(&mut self) -> Result<(), AllocError>
        ensures disk { OnOk result (self.new.disk ≡ failing_next self.old.disk) }
        ensures told { told_by self.new.disk ≡ told_by self.old.disk }
        ensures kept { (self.new.ends ≡ self.old.ends) × (self.new.durable ≡ self.old.durable) × (self.new.batch ≡ self.old.batch) × (self.new.failures ≡ self.old.failures) }
        ensures err { OnErr result (self.new ≡ self.old) }
    {
        self.disk.fail_next()
    }
}
