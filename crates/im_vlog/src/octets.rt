ghost use Rattle.std.specs.Prelude.{◌≡◌, ◌+◌, ◌-◌, ◌^◌, ◌++◌, min, IfOk, OnOk};
ghost use Rattle.im_format.specs.Places.{log_values, refs_of, values_in};
ghost use Rattle.im_vlog.specs.Sizes.{octets_in};

use im_format::records::Record;
use im_format::references::ValueRef;
use im_model::entries::Entry;
use std::alloc::{AllocError, Global};

/// The octets that the transactions of a batch put into a value log: their values that go to it, one behind
/// the other, in one buffer. Its room is what the references say, taken first; so they are gone over twice. Its
/// only error is want of memory.
pub fn log_values(alloc: Global, log: u8, records: &[Record]) -> Result<Vec<u8>, AllocError>
    ensures { IfOk result (λ octets. octets.items ≡ log_values log records.now) }
{
    let mut octets = Vec::with_capacity(alloc, size_in(log, records))?;
    for record in records {
        push_values(
            &mut octets,
            log,
            record.tx.entries.as_slice(),
            record.refs.as_slice(),
        )?;
    }
    Ok(octets)
}

// Adds the values that go to a log.
fn push_values(
    octets: &mut Vec<u8>,
    log: u8,
    entries: &[Entry],
    refs: &[ValueRef],
) -> Result<(), AllocError>
    ensures { OnOk result (octets.new.items ≡ octets.old.items ++ values_in log entries.now refs.now) }
{
    for (entry, reference) in entries.iter().zip(refs) {
        if reference.log == log {
            octets.extend_from_slice(entry.value.as_slice())?;
        }
    }
    Ok(())
}

// How many octets the references of records put into a log, at most `usize::MAX`.
fn size_in(log: u8, records: &[Record]) -> usize
    ensures { result ≡ min (octets_in log (refs_of records.now)) (2 ^ 64 - 1) }
{
    let mut size = 0;
    for record in records {
        size = grown(size, log, record.refs.as_slice());
    }
    size
}

// The same, and so many octets more.
fn grown(start: usize, log: u8, refs: &[ValueRef]) -> usize
    ensures { result ≡ min (start + octets_in log refs.now) (2 ^ 64 - 1) }
{
    let mut size = start;
    for value in refs {
        if value.log == log {
            size = size.saturating_add(value.len as usize);
        }
    }
    size
}
