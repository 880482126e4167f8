use im_sqlmodel::rows::StoredRow;
use im_sqlmodel::tables::{SqlIndex, Table};
use sqlite_items::Items;

/// A table with its indexes, by rising number, and its rows, by rising key.
#[derive(Drop)]
pub(crate) struct TableFound {
    /// The table.
    pub(crate) table: Table,
    /// Its indexes.
    pub(crate) indexes: Items<SqlIndex>,
    /// Its rows.
    pub(crate) rows: Items<StoredRow>,
}
