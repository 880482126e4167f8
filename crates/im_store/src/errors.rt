use im_journal::errors::JournalError;
use im_octet::octets::Octets;
use std::alloc::AllocError;

/// Why a commit has no receipt. `at` is the number of transactions behind which the preconditions were judged: these are
/// durable. `placed` is the number of the transaction, where it was placed all the same: it may become durable, and
/// `Store::settle` may be asked for it, but no receipt is answered for it.
#[derive(Drop)]
pub enum CommitError {
    /// The key had to be live, and isn't.
    Missing { key: Octets, at: u64 },
    /// The key had to be missing, and is live since transaction `tx`.
    Exists { key: Octets, tx: u64, at: u64 },
    /// The key's last version, of transaction `tx`, is later than it may be.
    Modified { key: Octets, tx: u64, at: u64 },
    /// The history holds 1,048,576 transactions, the most that it may.
    Full { at: u64 },
    /// A call of the disk failed in this call, and was counted. The store writes nothing until it is opened again.
    DiskFault { placed: Option<u64> },
    /// Calls of the disk have failed since the store was opened, so many of them (2^64 - 1 stands for more, too).
    Stopped { faults: u64, placed: Option<u64> },
    /// Memory ran out.
    Memory { placed: Option<u64> },
}

/// Why it isn't answered that transactions up to a number are durable.
#[derive(Clone, Copy, Debug, PartialEq, Eq)]
pub enum SettleError {
    /// Fewer are placed: so many.
    Beyond { placed: u64 },
    /// A call of the disk failed in this call, and was counted. The store writes nothing until it is opened again.
    DiskFault,
    /// Calls of the disk have failed since the store was opened, so many of them (2^64 - 1 stands for more, too).
    Stopped { faults: u64 },
    /// Memory ran out.
    Memory,
}

impl From<JournalError> for SettleError {
    ghost use Rattle.std.specs.Prelude.{◌≡◌};
    ghost use Rattle.im_store.specs.Errors.{settle_error};

    ghost from_gives = { λ cause error. error ≡ settle_error cause };

    fn from(cause: JournalError) -> Self {
        match cause {
            JournalError::DiskFault => SettleError::DiskFault,
            JournalError::Stopped { faults } => SettleError::Stopped { faults },
            JournalError::Memory => SettleError::Memory,
        }
    }
}

/// Why there is no snapshot.
#[derive(Clone, Copy, Debug, PartialEq, Eq)]
pub enum SnapshotError {
    /// Fewer transactions are durable: so many.
    Beyond { durable: u64 },
    /// Fewer are indexed, so many: `Store::index` takes more.
    NotYet { indexed: u64 },
    /// Memory ran out.
    Memory,
}

impl From<AllocError> for SnapshotError {
    ghost use Rattle.std.specs.Prelude.{◌≡◌};
    ghost use Rattle.im_store.specs.declared.errors.SnapshotError.TheVariants.{Memory};

    ghost from_gives = { λ _ error. error ≡ Memory };

    fn from(_: AllocError) -> Self {
        SnapshotError::Memory
    }
}

/// Why nothing is proved between two transactions.
#[derive(Clone, Copy, Debug, PartialEq, Eq)]
pub enum ProveError {
    /// The source is 0 or behind the target.
    Order { s: u64, t: u64 },
    /// Fewer transactions are durable: so many.
    Beyond { durable: u64 },
    /// Memory ran out.
    Memory,
}

impl From<AllocError> for ProveError {
    ghost use Rattle.std.specs.Prelude.{◌≡◌};
    ghost use Rattle.im_store.specs.declared.errors.ProveError.TheVariants.{Memory};

    ghost from_gives = { λ _ error. error ≡ Memory };

    fn from(_: AllocError) -> Self {
        ProveError::Memory
    }
}

/// Why no entry is proved.
#[derive(Clone, Copy, Debug, PartialEq, Eq)]
pub enum ItemError {
    /// The transaction's number is 0 or behind the state.
    Order { s: u64, t: u64 },
    /// Fewer transactions are durable: so many.
    Beyond { durable: u64 },
    /// The transaction has only so many entries.
    NoEntry { width: u32 },
    /// Memory ran out.
    Memory,
}

impl From<AllocError> for ItemError {
    ghost use Rattle.std.specs.Prelude.{◌≡◌};
    ghost use Rattle.im_store.specs.declared.errors.ItemError.TheVariants.{Memory};

    ghost from_gives = { λ _ error. error ≡ Memory };

    fn from(_: AllocError) -> Self {
        ItemError::Memory
    }
}

impl From<ProveError> for ItemError {
    ghost use Rattle.std.specs.Prelude.{◌≡◌};
    ghost use Rattle.im_store.specs.Errors.{item_error};

    ghost from_gives = { λ cause error. error ≡ item_error cause };

    fn from(cause: ProveError) -> Self {
        match cause {
            ProveError::Order { s, t } => ItemError::Order { s, t },
            ProveError::Beyond { durable } => ItemError::Beyond { durable },
            ProveError::Memory => ItemError::Memory,
        }
    }
}
