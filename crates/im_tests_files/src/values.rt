//! Values: what a log gets of a batch, and what is read back.

use crate::samples::Shown::{self, Corrupt, Fault, Octets};
use crate::samples::{entry_of, placed, shows, sum_is};
use im_digest::Sum;
use im_disk::disk::{Disk, DiskError};
use im_format::records::Record;
use im_format::references::Refs;
use im_model::entries::Entries;
use im_model::transactions::Transaction;
use im_vlog::octets::log_values;
use im_vlog::showing::read_value;
use std::alloc::{AllocError, Global};
use std::test::Fail;

// The values of transactions 1 and 2, and the logs to which they go: value k of transaction n to log (n + k) mod 4.
const FIRST: &[(&str, u8)] = &[("ab", 1), ("", 2), ("c", 3), ("defg", 0), ("h", 1)];

const SECOND: &[(&str, u8)] = &[("ab", 2), ("", 3), ("c", 0), ("defg", 1), ("h", 2)];

fn record(alloc: Global, values: &[(&str, u8)]) -> Result<Record, AllocError> {
    let mut entries = Vec::new(alloc);
    let mut refs = Vec::new(alloc);
    for (value, log) in values {
        let octets = value.as_bytes();
        if octets.len() <= 4096 {
            entries.push(entry_of(alloc, &[], octets)?)?;
            refs.push(placed(0, octets.len() as u32, *log, 0))?;
        }
    }
    Ok(Record {
        tx: Transaction {
            ts: 0,
            entries: Entries::from_vec(entries),
            bl: 0,
        },
        refs: Refs::from_vec(refs),
        alh: sum_is(0),
    })
}

#[test]
fn a_log_gets_its_values(rt: HostRuntime) -> Result<(), Fail> {
    let alloc = rt.alloc();
    let records = vec![in alloc; record(alloc, FIRST)?, record(alloc, SECOND)?]?;
    for (log, want) in [(0, "defgc"), (1, "abhdefg"), (2, "abh"), (3, "c"), (4, "")] {
        let octets = log_values(alloc, log, &records)?;
        assert!(rt; octets.as_slice() == want.as_bytes(), "log {log}");
    }
    drop(records);
    Ok(())
}

// A disk that tells nothing. Each file has six octets: at place p of file f stands 10 * f + p. File 5 fails.
#[derive(Drop)]
struct Fake {
    failures: u64,
}

impl Disk for Fake {
    ghost use Rattle.std.specs.Prelude.{None};

    ghost told = { λ _. None };

    ghost faults = { λ disk. disk.failures };

    fn len(&mut self, file: u8) -> Result<u64, DiskError> {
        if file == 5 {
            self.failures = self.failures.saturating_add(1);
            return Err(DiskError::Failed);
        }
        Ok(6)
    }

    fn read(&mut self, file: u8, at: u64, buffer: &mut [u8]) -> Result<(), DiskError> {
        let mut next = at;
        for octet in buffer.iter_mut() {
            *octet = file.wrapping_mul(10).wrapping_add((next % 256) as u8);
            next = next.wrapping_add(1);
        }
        Ok(())
    }

    fn write_at(&mut self, _file: u8, _at: u64, _piece: &[u8]) -> Result<(), DiskError> {
        Ok(())
    }

    fn sync(&mut self) -> Result<(), DiskError> {
        Ok(())
    }
}

// References, by their digest, length, log and place, and what they show.
const SHOWN: &[(u8, u32, u8, u64, Shown)] = &[
    (99, 3, 1, 2, Octets(&[32, 33, 34])),
    // Over the end of the log, and at its end.
    (69, 10, 1, 4, Octets(&[34, 35])),
    (0, 10, 1, 6, Octets(&[])),
    // Other octets.
    (99, 3, 2, 2, Corrupt(129)),
    // Logs that aren't there.
    (99, 3, 4, 2, Corrupt(0)),
    (99, 3, 255, 2, Corrupt(0)),
    // A log that fails.
    (99, 3, 3, 2, Fault),
];

#[test]
fn a_value_is_read_at_its_place(rt: HostRuntime) {
    let mut disk = Fake { failures: 0 };
    for (total, len, log, at, want) in SHOWN {
        let read = read_value(
            rt.alloc(),
            &Sum,
            &mut disk,
            &placed(*total, *len, *log, *at),
        );
        assert!(rt;
            shows(read, *total, *want),
            "{len} octets of log {log} at {at}"
        );
    }
    assert!(rt; disk.failures == 1);
}
