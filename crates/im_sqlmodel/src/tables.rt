use im_octet::octets::Octets;
use im_sqltype::columns::ColumnType;
use im_sqltype::kinds::ValueKind;
use sqlite_items::Items;

/// A column of a table.
#[derive(Drop)]
pub struct Column {
    /// Its name.
    pub name: Octets,
    /// What it holds.
    pub holds: ColumnType,
    /// Whether it is `NOT NULL`.
    pub not_null: bool,
}

/// A table.
#[derive(Drop)]
pub struct Table {
    /// Its number, from 1.
    pub tid: u32,
    /// Its name.
    pub name: Octets,
    /// Its columns, in order.
    pub columns: Items<Column>,
    /// Its primary key, by the numbers of columns, from 0.
    pub key: Items<u16>,
}

/// An index of a table.
#[derive(Drop)]
pub struct SqlIndex {
    /// Its number among the table's, from 1.
    pub iid: u32,
    /// Whether no two rows may have the same key in it.
    pub unique: bool,
    /// Its columns by their numbers, from 0.
    pub columns: Items<u16>,
}

/// A column that a statement may name.
#[derive(Drop)]
pub struct Nameable {
    /// Its name.
    pub name: Octets,
    /// The kind of its values, which may be NULL too.
    pub kind: ValueKind,
}
