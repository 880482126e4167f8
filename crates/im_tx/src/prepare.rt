ghost use Rattle.std.specs.Prelude.{◌≡◌, ◌⊎◌, All, map, IfErr, IfOk, OnOk};
ghost use Rattle.im_draft.specs.Drafts.{entry_of, AreEntries, IsFine, Refuses};
ghost use Rattle.im_draft.specs.declared.refusals.PrepareError.TheVariants.{Memory};

use crate::distinct::check_distinct;
use crate::lengths::{check_each, check_number};
use crate::prepared::Prepared;
use im_draft::drafts::Draft;
use im_draft::preconditions::Pres;
use im_draft::refusals::PrepareError;
use im_entry::make::entry_within;
use im_model::entries::{Entries, Entry};
use std::alloc::{AllocError, Global};

/// What the drafts and preconditions of a transaction ask for, or the first refusal of the drafts: by their
/// number, then by the first draft with a key or value that isn't within the limits, then by the first key
/// that stood earlier. The drafts become entries: keys and values are moved.
pub fn prepare(alloc: Global, drafts: Vec<Draft>, pres: Pres) -> Result<Prepared, PrepareError>
    ensures ok { IfOk result (λ p. p.entries ≡ map entry_of drafts.items) }
    ensures pres { IfOk result (λ p. p.pres ≡ pres) }
    ensures entries { OnOk result (AreEntries drafts.items) }
    ensures err { IfErr result (λ e. (e ≡ Memory) ⊎ Refuses drafts.items e) }
{
    check(alloc, &drafts)?;
    let entries = entries_of(alloc, drafts)?;
    Ok(Prepared::new(Entries::from_vec(entries), pres))
}

// Tests the drafts in the order of their refusals.
fn check(alloc: Global, drafts: &[Draft]) -> Result<(), PrepareError>
    ensures ok { OnOk result (AreEntries drafts.now) }
    ensures err { IfErr result (λ e. (e ≡ Memory) ⊎ Refuses drafts.now e) }
{
    check_number(drafts)?;
    check_each(drafts)?;
    check_distinct(alloc, drafts)
}

// The entries that drafts within the limits ask for, in order.
fn entries_of(alloc: Global, drafts: Vec<Draft>) -> Result<Vec<Entry>, AllocError>
    requires { All IsFine drafts.items }
    ensures { IfOk result (λ entries. entries.items ≡ map entry_of drafts.items) }
{
    let mut entries = Vec::with_capacity(alloc, drafts.len())?;
    for draft in drafts {
        entries.push(entry_within(alloc, draft)?)?;
    }
    Ok(entries)
}
