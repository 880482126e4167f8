use std::alloc::AllocError;
use thiserror::Error;

/// Why drafts are no transaction. Entries are counted from 0, lengths in octets.
#[derive(Clone, Copy, Debug, PartialEq, Eq, Error)]
pub enum PrepareError {
    /// Memory ran out.
    #[error("out of memory")]
    Memory,
    /// There is no draft.
    #[error("no entries")]
    NoEntries,
    /// There are n drafts, more than a transaction has entries.
    #[error("{n} entries are more than 1024")]
    TooMany { n: u64 },
    /// The key of entry i is empty.
    #[error("the key of entry {i} is empty")]
    KeyEmpty { i: u32 },
    /// The key of entry i is longer than a key may be.
    #[error("the key of entry {i} has {len} octets, more than 1024")]
    KeyLong { i: u32, len: u64 },
    /// The value of entry i is longer than a value may be.
    #[error("the value of entry {i} has {len} octets, more than 4096")]
    ValueLong { i: u32, len: u64 },
    /// Entry j has the key of entry i, which stands earlier.
    #[error("the key of entry {j} is that of entry {i}")]
    Twice { i: u32, j: u32 },
}

impl From<AllocError> for PrepareError {
    ghost use Rattle.std.specs.Prelude.{◌≡◌};
    ghost use Rattle.im_draft.specs.declared.refusals.PrepareError.TheVariants.{Memory};

    ghost from_gives = { λ _ e. e ≡ Memory };

    fn from(_: AllocError) -> Self {
        PrepareError::Memory
    }
}
