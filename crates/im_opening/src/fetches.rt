ghost use Rattle.std.specs.Prelude.{◌≡◌, IfSome};
ghost use Rattle.im_disk.specs.Causes.{HasCause};
ghost use Rattle.im_disk.specs.Disk.{seen};
ghost use Rattle.im_opening.specs.Parts.{Shows};

use crate::source::RecordSource;
use im_disk::disk::{Disk, DiskError};
use im_format::files::{FIRST_VALUE_LOG, LAST_VALUE_LOG};
use im_hash_ahead::facts::MOST_OCTETS;
use im_hash_ahead::leads::{Fields, Lead, fields_at};
use im_hash_ahead::values::Values;
use im_model::limits::MOST_VALUE_OCTETS;
use std::alloc::Global;

/// Reads the values of records, up to the first that doesn't lie within its log. One of more than 160 octets isn't read: it
/// wouldn't be hashed.
pub(crate) fn fetch<D: Disk>(
    alloc: Global,
    disk: &mut D,
    source: &RecordSource,
    leads: &[Lead],
) -> Result<Values, DiskError>
    requires shows { IfSome (D.told disk.old) (λ t. Shows (seen t) source.now.log.now source.now.lengths) }
    ensures told { D.told disk.new ≡ D.told disk.old }
    ensures cause { HasCause (D.faults disk.old) (D.faults disk.new) result }
{
    let mut values = Values::empty(alloc);
    for lead in leads {
        if !fetch_record(alloc, disk, source, lead, &mut values)? {
            break;
        }
    }
    Ok(values)
}

// Reads the values of a record, and tells whether all lie within their logs.
fn fetch_record<D: Disk>(
    alloc: Global,
    disk: &mut D,
    source: &RecordSource,
    lead: &Lead,
    values: &mut Values,
) -> Result<bool, DiskError>
    requires shows { IfSome (D.told disk.old) (λ t. Shows (seen t) source.now.log.now source.now.lengths) }
    ensures told { D.told disk.new ≡ D.told disk.old }
    ensures cause { HasCause (D.faults disk.old) (D.faults disk.new) result }
{
    let mut at = lead.at.saturating_add(28);
    for _i in 0..lead.entries {
        let Some(fields) = fields_at(source.log, at) else {
            return Ok(false);
        };
        if !fetch_value(alloc, disk, source, &fields, values)? {
            return Ok(false);
        }
        at = fields.end;
    }
    Ok(true)
}

// Reads a value, where it lies within its log and isn't long.
fn fetch_value<D: Disk>(
    alloc: Global,
    disk: &mut D,
    source: &RecordSource,
    fields: &Fields,
    values: &mut Values,
) -> Result<bool, DiskError>
    requires shows { IfSome (D.told disk.old) (λ t. Shows (seen t) source.now.log.now source.now.lengths) }
    ensures told { D.told disk.new ≡ D.told disk.old }
    ensures cause { HasCause (D.faults disk.old) (D.faults disk.new) result }
{
    if fields.log > u64::from(LAST_VALUE_LOG) || fields.len > MOST_VALUE_OCTETS as u64 {
        return Ok(false);
    }
    let end = source.lengths[fields.log as usize];
    if end < fields.place || end - fields.place < fields.len {
        return Ok(false);
    }
    if fields.len > MOST_OCTETS as u64 {
        values.add(&[])?;
        return Ok(true);
    }
    let mut octets = [0u8; MOST_OCTETS];
    let (octets, _) = octets.split_at_mut(fields.len as usize);
    disk.read(FIRST_VALUE_LOG + fields.log as u8, fields.place, octets)?;
    values.add(octets)?;
    Ok(true)
}
