use im_octet::octets::Octets;
use im_sqltype::rows::Row;
use im_tx::prepared::Prepared;
use im_versions::errors::ViewError;
use sqlite_items::Items;
use std::alloc::AllocError;

/// The rows of a SELECT, in order, each with the values shown.
pub type SqlRows = Items<Row>;

/// What a statement answers.
#[derive(Drop)]
pub enum SqlOut {
    /// The rows of a SELECT, in order.
    Rows(SqlRows),
    /// What is to be placed, and under which preconditions.
    Write(Prepared),
    /// There is nothing to write.
    Nothing,
}

/// Why a statement is refused. Rows of INSERT and UPSERT count from 0. Where `tx` is 0, an earlier row of the same
/// statement is met.
#[derive(Drop)]
pub enum SqlError {
    /// Memory ran out.
    Memory,
    /// The table is there.
    Exists { table: Octets },
    /// There is no such table.
    NoTable { table: Octets },
    /// The table has no such column.
    NoColumn { name: Octets },
    /// A column is named twice.
    Twice { name: Octets },
    /// The table of a new index holds rows.
    HasRows { table: Octets },
    /// A row has another number of values than there are columns.
    Count { row: u64, want: u64, got: u64 },
    /// A value is of another type than its column.
    WrongType { row: u64, name: Octets },
    /// A value has more octets than its column may hold.
    TooLong { row: u64, name: Octets },
    /// A value is NULL in a column that is NOT NULL or in the primary key.
    NullGiven { row: u64, name: Octets },
    /// A key of the row, or of one of its index entries, has more than 1024 octets.
    KeyLong { row: u64 },
    /// The row's text has more than 4096 octets.
    RowLong { row: u64 },
    /// A row of this primary key is there, by transaction `tx`.
    Duplicate { row: u64, tx: u64 },
    /// Another row has the same key in a unique index, by transaction `tx`.
    Unique { row: u64, index: u32, tx: u64 },
    /// More than 1024 entries would be written.
    TooMany { entries: u64 },
    /// Values of two types are compared, by the operator that begins at this octet of the text.
    Compare { at: usize },
    /// The rows of a number of transactions are asked for that is above this one.
    Beyond { n: u64 },
}

impl From<AllocError> for SqlError {
    ghost use Rattle.std.specs.Prelude.{◌≡◌};
    ghost use Rattle.im_sqlmodel.specs.declared.answers.SqlError.TheVariants.{Memory};

    ghost from_gives = { λ _ error. error ≡ Memory };

    fn from(_: AllocError) -> Self {
        SqlError::Memory
    }
}

impl From<ViewError> for SqlError {
    ghost use Rattle.std.specs.Prelude.{◌≡◌};
    ghost use Rattle.im_sqlmodel.specs.declared.answers.SqlError.TheVariants.{Memory};

    ghost from_gives = { λ _ error. error ≡ Memory };

    fn from(error: ViewError) -> Self {
        match error {
            ViewError::Memory => SqlError::Memory,
        }
    }
}

/// Why the keys of a view that begin with octet 00 aren't SQL's.
#[derive(Clone, Copy, Debug, PartialEq, Eq)]
pub enum KeptError {
    /// Memory ran out.
    Memory,
    /// After transaction `tx` they aren't, and after each earlier one they are.
    NotKept { tx: u64 },
}

impl From<AllocError> for KeptError {
    ghost use Rattle.std.specs.Prelude.{◌≡◌};
    ghost use Rattle.im_sqlmodel.specs.declared.answers.KeptError.TheVariants.{Memory};

    ghost from_gives = { λ _ error. error ≡ Memory };

    fn from(_: AllocError) -> Self {
        KeptError::Memory
    }
}

impl From<ViewError> for KeptError {
    ghost use Rattle.std.specs.Prelude.{◌≡◌};
    ghost use Rattle.im_sqlmodel.specs.declared.answers.KeptError.TheVariants.{Memory};

    ghost from_gives = { λ _ error. error ≡ Memory };

    fn from(error: ViewError) -> Self {
        match error {
            ViewError::Memory => KeptError::Memory,
        }
    }
}
