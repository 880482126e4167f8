/// A type of SQL, without the limit that a column may set.
#[derive(Clone, Copy, Debug, PartialEq, Eq)]
pub enum ValueKind {
    /// `INTEGER`: signed numbers of 64 bits.
    Integer,
    /// `BOOLEAN`: false or true.
    Boolean,
    /// `VARCHAR`: texts.
    Varchar,
    /// `BLOB`: octet strings.
    Blob,
}
