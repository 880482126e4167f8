ghost use Rattle.std.specs.Prelude.{◌≡◌, IfSome};
ghost use Rattle.im_disk.specs.Causes.{HasCause};
ghost use Rattle.im_disk.specs.Disk.{seen};
ghost use Rattle.im_opening.specs.Parts.{Shows};

use crate::fetches::fetch;
use crate::records::Progress;
use crate::source::RecordSource;
use im_digest::{D32, Hash32};
use im_disk::disk::{Disk, DiskError};
use im_hash_ahead::leads::{Lead, Start, survey};
use im_hash_ahead::plans::{Plan, Plans};
use im_hash_ahead::values::Values;
use std::alloc::{AllocError, Global};

/// What is needed to hash the first records, but for their values. Its only error is want of memory.
pub(crate) fn first_plan<H: Hash32>(
    alloc: Global,
    hash: &H,
    log: &[u8],
    progress: &Progress,
) -> Result<Plan, AllocError> {
    let none = Plans::first(alloc, Plan::empty(alloc));
    let plan = first_plan_behind(alloc, hash, log, progress, &none);
    drop(none);
    plan
}

// The same, behind plans of nothing.
fn first_plan_behind<H: Hash32>(
    alloc: Global,
    hash: &H,
    log: &[u8],
    progress: &Progress,
    none: &Plans,
) -> Result<Plan, AllocError> {
    let leads = survey(alloc, log, &Start::of_all(hash))?;
    let leaves = leaves_behind(alloc, progress, none, leads.as_slice())?;
    Ok(Plan::of(leads, leaves, 0, Values::empty(alloc)))
}

/// What is needed to hash the records behind those of two plans, where so much was read; where that has come by the plans already,
/// those that were read last are behind them. Where memory is short it is a plan of nothing, and then nothing is hashed ahead behind
/// these two.
pub(crate) fn plan_behind<D: Disk>(
    alloc: Global,
    disk: &mut D,
    source: &RecordSource,
    progress: &Progress,
    plans: &Plans,
) -> Result<Plan, DiskError>
    requires shows { IfSome (D.told disk.old) (λ t. Shows (seen t) source.now.log.now source.now.lengths) }
    ensures told { D.told disk.new ≡ D.told disk.old }
    ensures cause { HasCause (D.faults disk.old) (D.faults disk.new) result }
{
    match whole_plan_behind(alloc, disk, source, progress, plans) {
        Ok(plan) => Ok(plan),
        Err(DiskError::Memory) => Ok(Plan::empty(alloc)),
        Err(DiskError::Failed) => Err(DiskError::Failed),
    }
}

// The same where memory is there for it.
fn whole_plan_behind<D: Disk>(
    alloc: Global,
    disk: &mut D,
    source: &RecordSource,
    progress: &Progress,
    plans: &Plans,
) -> Result<Plan, DiskError>
    requires shows { IfSome (D.told disk.old) (λ t. Shows (seen t) source.now.log.now source.now.lengths) }
    ensures told { D.told disk.new ≡ D.told disk.old }
    ensures cause { HasCause (D.faults disk.old) (D.faults disk.new) result }
{
    let leads = leads_behind(alloc, source.log, progress, plans.behind.leads.as_slice())?;
    let values = fetch(alloc, disk, source, leads.as_slice())?;
    let leaves = leaves_behind(alloc, progress, plans, leads.as_slice())?;
    Ok(Plan::of(leads, leaves, plans.behind.size, values))
}

// The records behind these, or behind all that was read, where all of these were.
fn leads_behind(
    alloc: Global,
    log: &[u8],
    progress: &Progress,
    leads: &[Lead],
) -> Result<Vec<Lead>, AllocError> {
    let Some(last) = leads.last() else {
        return Ok(Vec::new(alloc));
    };
    let start = start_behind(progress, last);
    survey(alloc, log, &start)
}

// Where the records behind one begin, or those behind all that was read, where that one was.
fn start_behind(progress: &Progress, last: &Lead) -> Start {
    let count = progress.alhs.len() as u64;
    match progress.alhs.last() {
        Some(alh) if last.id <= count => Start {
            count,
            at: progress.place as usize,
            before: *alh,
        },
        _ => Start {
            count: last.id,
            at: last.end,
            before: last.alh,
        },
    }
}

// The Alh that join the tree behind those of two plans, up to the size of the last record's tree, as they were read or as the
// records say.
fn leaves_behind(
    alloc: Global,
    progress: &Progress,
    plans: &Plans,
    leads: &[Lead],
) -> Result<Vec<D32>, AllocError> {
    let mut leaves = Vec::new(alloc);
    let Some(last) = leads.last() else {
        return Ok(leaves);
    };
    for number in plans.behind.size..last.bl.min(last.id) {
        let Some(alh) = alh_behind(progress, plans, leads, number) else {
            break;
        };
        leaves.push(alh)?;
    }
    Ok(leaves)
}

// The Alh of the record behind so many: as it was read, or as it says in a plan, or among the records behind these.
fn alh_behind(progress: &Progress, plans: &Plans, leads: &[Lead], number: u64) -> Option<D32> {
    if let Some(alh) = progress.alhs.get(number as usize) {
        return Some(*alh);
    }
    let Plans { filled, behind } = plans;
    alh_among(filled.leads.as_slice(), number)
        .or_else(|| alh_among(behind.leads.as_slice(), number))
        .or_else(|| alh_among(leads, number))
}

// The Alh of the record behind so many, as it says itself, where it is one of these.
fn alh_among(leads: &[Lead], number: u64) -> Option<D32> {
    let first = leads.first()?;
    let index = number.checked_sub(first.id.saturating_sub(1))?;
    Some(leads.get(index as usize)?.alh)
}
