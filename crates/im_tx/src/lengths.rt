ghost use Rattle.std.specs.Prelude.{◌≡◌, ◌≤◌, length, All, IfErr, OnOk};
ghost use Rattle.im_draft.specs.Drafts.{IsFine, Refuses};
ghost use Rattle.im_tx.specs.Faults.{refusal_at};

use im_draft::drafts::Draft;
use im_draft::refusals::PrepareError;
use im_entry::make::{EntryError, check_lengths};
use im_model::limits::MOST_ENTRIES;

// Tests that the drafts are neither none nor too many.
pub(crate) fn check_number(drafts: &[Draft]) -> Result<(), PrepareError>
    ensures some { OnOk result (1 ≤ length drafts.now) }
    ensures few { OnOk result (length drafts.now ≤ 1024) }
    ensures err { IfErr result (Refuses drafts.now) }
{
    let n = drafts.len();
    if n == 0 {
        return Err(PrepareError::NoEntries);
    }
    if n > MOST_ENTRIES as usize {
        return Err(PrepareError::TooMany { n: n as u64 });
    }
    Ok(())
}

// Tests the lengths of each draft's key and value, in order.
pub(crate) fn check_each(drafts: &[Draft]) -> Result<(), PrepareError>
    requires { length drafts.now ≤ 1024 }
    ensures ok { OnOk result (All IsFine drafts.now) }
    ensures err { IfErr result (Refuses drafts.now) }
{
    for (i, draft) in drafts.iter().enumerate() {
        match check_lengths(draft) {
            Ok(()) => {}
            Err(error) => return Err(refusal_at(i as u32, error)),
        }
    }
    Ok(())
}

// The refusal of entry i.
fn refusal_at(i: u32, error: EntryError) -> PrepareError
    ensures { result ≡ refusal_at i error }
{
    match error {
        EntryError::Memory => PrepareError::Memory,
        EntryError::KeyEmpty => PrepareError::KeyEmpty { i },
        EntryError::KeyLong { len } => PrepareError::KeyLong { i, len },
        EntryError::ValueLong { len } => PrepareError::ValueLong { i, len },
    }
}
