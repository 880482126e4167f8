use im_sqltype::rows::Row;

/// A row of a table.
#[derive(Drop)]
pub struct StoredRow {
    /// Its values, in the order of the table's columns.
    pub row: Row,
    /// The number of the transaction that wrote it; 0 where the statement that is judged did.
    pub tx: u64,
}
