use im_disk::disk::{Disk, DiskError};
use im_format::files::COMMIT_LOG;

// What opens the gate behind a batch.
const OPEN: u8 = 1;

/// A disk that counts what another one is asked for, and passes each call on to it. It tells what that one tells.
#[derive(Drop)]
pub struct Counted<D> {
    /// The disk within.
    inner: D,
    // The gates that were opened, at most `u64::MAX`.
    gates: u64,
    // The files that were written before each sync, at most `u64::MAX`.
    flushes: u64,
    // The files that were written since the last sync, as the digits of a number: that of value 1 for file 0.
    written: u16,
}

impl<D> Counted<D> {
    /// A disk over `inner` that has counted nothing yet.
    pub fn new(inner: D) -> Self {
        Counted {
            inner,
            gates: 0,
            flushes: 0,
            written: 0,
        }
    }

    /// How many batches came to their end: each opens the gate behind it, once.
    pub fn gates(&self) -> u64 {
        self.gates
    }

    /// How many files were brought to the device: at each sync those that were written since the one before.
    pub fn flushes(&self) -> u64 {
        self.flushes
    }
}

impl<D: Disk> Disk for Counted<D> {
    ghost told = { λ disk. D.told disk.inner };

    ghost faults = { λ disk. D.faults disk.inner };

    fn len(&mut self, file: u8) -> Result<u64, DiskError> {
        self.inner.len(file)
    }

    fn read(&mut self, file: u8, at: u64, buffer: &mut [u8]) -> Result<(), DiskError> {
        self.inner.read(file, at, buffer)
    }

    fn write_at(&mut self, file: u8, at: u64, piece: &[u8]) -> Result<(), DiskError> {
        if file == COMMIT_LOG && piece.len() == 1 && piece[0] == OPEN {
            self.gates = self.gates.saturating_add(1);
        }
        self.written |= 1 << u32::from(file);
        self.inner.write_at(file, at, piece)
    }

    fn sync(&mut self) -> Result<(), DiskError> {
        let files = u64::from(self.written.count_ones());
        self.flushes = self.flushes.saturating_add(files);
        self.written = 0;
        self.inner.sync()
    }
}
