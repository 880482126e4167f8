use crate::limits::{EntryValue, Key, Metadata};
use im_octet::octets::Octets;
use std::alloc::{AllocError, Global};
use std::marker::Model;

/// An entry of a transaction: one write of a key.
#[derive(Drop)]
pub struct Entry {
    /// Its metadata: in a history the codes of its attributes, in rising order.
    pub md: Metadata,
    /// The key that it writes.
    pub key: Key,
    /// What it writes there.
    pub value: EntryValue,
}

impl Entry {
    ghost use Rattle.std.specs.Prelude.{◌≡◌, IfOk};

    /// A copy of this entry: of its metadata, its key and its value. Its only error is want of memory.
    pub fn try_clone(&self, alloc: Global) -> Result<Self, AllocError>
        ensures { IfOk result (λ entry. entry ≡ self.now) }
    {
        let md = Octets::from_slice(alloc, self.md.as_slice())?;
        let key = Octets::from_slice(alloc, self.key.as_slice())?;
        let value = Octets::from_slice(alloc, self.value.as_slice())?;
        Ok(Entry {
            md: Metadata::new(md),
            key: Key::new(key),
            value: EntryValue::new(value),
        })
    }
}

/// The entries of a transaction, in order. A clause sees the list of them.
#[derive(Drop)]
pub struct Entries {
    entries: Vec<Entry>,
}

impl Model for Entries {
    ghost use Rattle.std.specs.Prelude.{List};
    ghost use Rattle.im_model.specs.declared.entries.Entry.{Entry};

    ghost Value = { List Entry };

    ghost view = { λ s. s.entries.items };
}

impl Entries {
    ghost use Rattle.std.specs.Prelude.{◌≡◌};

    /// The entries of a vector, which is not copied.
    pub fn from_vec(entries: Vec<Entry>) -> Self
        ensures { result ≡ entries.items }
    {
        Entries { entries }
    }

    /// Gives the vector back. It takes no memory.
    pub fn into_vec(self) -> Vec<Entry>
        ensures { result.items ≡ self }
    {
        let Entries { entries } = self;
        entries
    }

    /// Lends the entries.
    pub fn as_slice(&self) -> &[Entry]
        ensures { result.now ≡ self.now }
    {
        self.entries.as_slice()
    }
}
