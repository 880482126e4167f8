ghost use Rattle.std.specs.Prelude.{◌≡◌, ◌≤◌, ◌⊎◌, length, IfErr, IfOk, OnOk};
ghost use Rattle.im_model.specs.Entries.{attributes};
ghost use Rattle.im_model.specs.History.{IsEntry};
ghost use Rattle.im_draft.specs.Drafts.{entry_of, IsFine};
ghost use Rattle.im_entry.specs.Refusals.{draft_with, RefusesDraft};
ghost use Rattle.im_entry.specs.declared.make.EntryError.{EntryError};

use im_draft::drafts::{Attrs, Draft};
use im_model::entries::Entry;
use im_model::limits::{EntryValue, Key, MOST_KEY_OCTETS, MOST_VALUE_OCTETS, Metadata};
use im_octet::octets::Octets;
use std::alloc::{AllocError, Global};
use thiserror::Error;

/// Why a key and a value make no entry. Lengths are in octets.
#[derive(Clone, Copy, Debug, PartialEq, Eq, Error)]
pub enum EntryError {
    /// Memory ran out.
    #[error("out of memory")]
    Memory,
    /// The key is empty.
    #[error("the key is empty")]
    KeyEmpty,
    /// The key is longer than a key may be.
    #[error("the key has {len} octets, more than 1024")]
    KeyLong { len: u64 },
    /// The value is longer than a value may be.
    #[error("the value has {len} octets, more than 4096")]
    ValueLong { len: u64 },
}

impl From<AllocError> for EntryError {
    ghost use Rattle.std.specs.Prelude.{◌≡◌};
    ghost use Rattle.im_entry.specs.declared.make.EntryError.TheVariants.{Memory};

    ghost from_gives = { λ _ e. e ≡ Memory };

    fn from(_: AllocError) -> Self {
        EntryError::Memory
    }
}

/// Tests the lengths of a draft: the key's first, and then the value's. It takes no memory.
pub fn check_lengths(draft: &Draft) -> Result<(), EntryError>
    ensures ok { OnOk result (IsFine draft.now) }
    ensures err { IfErr result (RefusesDraft draft.now) }
{
    let key = draft.key.len();
    if key == 0 {
        return Err(EntryError::KeyEmpty);
    }
    if key > MOST_KEY_OCTETS {
        return Err(EntryError::KeyLong { len: key as u64 });
    }
    let value = draft.value.len();
    if value > MOST_VALUE_OCTETS {
        return Err(EntryError::ValueLong { len: value as u64 });
    }
    Ok(())
}

/// The entry that a draft within the limits asks for. Its key and its value are moved. Only memory may be
/// missing.
pub fn entry_within(alloc: Global, draft: Draft) -> Result<Entry, AllocError>
    requires { IsFine draft }
    ensures ok { IfOk result (λ entry. entry ≡ entry_of draft) }
    ensures within { IfOk result IsEntry }
{
    let Draft { attrs, key, value } = draft;
    let md = metadata(alloc, attrs)?;
    Ok(Entry {
        md,
        key: Key::new(key),
        value: EntryValue::new(value),
    })
}

/// An entry with these attributes. The key and the value are moved. An entry that isn't within the limits
/// is always refused for that, and never for want of memory.
pub fn entry(alloc: Global, attrs: Attrs, key: Octets, value: Octets) -> Result<Entry, EntryError>
    ensures ok { IfOk result (λ entry. entry ≡ entry_of (draft_with attrs key value)) }
    ensures within { IfOk result IsEntry }
    ensures refused { (e : EntryError) → RefusesDraft (draft_with attrs key value) e → result ≡ Err e }
    ensures err { IfErr result (λ e. (e ≡ EntryError.Memory) ⊎ RefusesDraft (draft_with attrs key value) e) }
    ensures fine { IsFine (draft_with attrs key value) → IfErr result (λ e. e ≡ EntryError.Memory) }
{
    let draft = Draft { attrs, key, value };
    check_lengths(&draft)?;
    Ok(entry_within(alloc, draft)?)
}

// The metadata of an entry with these attributes.
fn metadata(alloc: Global, attrs: Attrs) -> Result<Metadata, AllocError>
    ensures { IfOk result (λ md. md ≡ attributes attrs.deleted attrs.non_indexable) }
{
    let codes: &[u8] = match (attrs.deleted, attrs.non_indexable) {
        (false, false) => &[],
        (true, false) => &[0],
        (false, true) => &[2],
        (true, true) => &[0, 2],
    };
    Ok(Metadata::new(Octets::from_slice(alloc, codes)?))
}
