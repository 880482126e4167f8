use crate::kinds::ValueKind;
use crate::values::Value;
use std::marker::Model;

/// The most octets that a column's texts or blobs may have: 1 to 1024. A clause sees the number.
#[derive(Clone, Copy, Debug, PartialEq, Eq)]
pub struct Limit {
    octets: u16,
}

impl Model for Limit {
    ghost use Rattle.std.specs.Prelude.{ℕ, ◌≤◌};

    ghost Value = { ℕ };

    ghost view = { λ s. s.octets };

    ghost inverse = { λ n. record { octets = n } };

    ghost invariant = { λ s. (1 ≤ s.octets) × (s.octets ≤ 1024) };
}

impl Limit {
    ghost use Rattle.std.specs.Prelude.{◌≡◌, ◌≤◌, nat_le, if◌then◌else◌};

    /// A limit of so many octets, which the caller has tested.
    pub fn new(octets: u16) -> Self
        requires least { 1 ≤ octets }
        requires most { octets ≤ 1024 }
        ensures { result ≡ octets }
    {
        Limit { octets }
    }

    // Whether so many octets are within the limit.
    fn judge(self, len: usize) -> Result<(), Misfit>
        ensures { result ≡ (if nat_le len self then Ok tt else Err Misfit.Long) }
    {
        if len <= self.octets as usize {
            Ok(())
        } else {
            Err(Misfit::Long)
        }
    }

    /// The number of octets.
    pub fn octets(self) -> u16
        ensures value { result ≡ self }
        ensures least { 1 ≤ result }
        ensures most { result ≤ 1024 }
    {
        self.octets
    }
}

/// The type of a column.
#[derive(Clone, Copy, Debug, PartialEq, Eq)]
pub enum ColumnType {
    /// `INTEGER`.
    Integer,
    /// `BOOLEAN`.
    Boolean,
    /// `VARCHAR[n]`: texts of at most so many octets.
    Varchar(Limit),
    /// `BLOB[n]`: octet strings of at most so many octets.
    Blob(Limit),
}

/// Why a column can't hold a value.
#[derive(Clone, Copy, Debug, PartialEq, Eq)]
pub enum Misfit {
    /// It is of another kind.
    Kind,
    /// It has more octets than the column's limit.
    Long,
}

impl ColumnType {
    ghost use Rattle.std.specs.Prelude.{◌≡◌, ◌↔◌, IsOk};
    ghost use Rattle.im_sqltype.specs.Kinds.{IsOfKind, FitsColumn, kind_of};

    /// The type without its limit.
    pub fn kind(self) -> ValueKind
        ensures { result ≡ kind_of self }
    {
        match self {
            ColumnType::Integer => ValueKind::Integer,
            ColumnType::Boolean => ValueKind::Boolean,
            ColumnType::Varchar(_) => ValueKind::Varchar,
            ColumnType::Blob(_) => ValueKind::Blob,
        }
    }

    /// Whether a column of this type may hold a value. NULL is of every type.
    ///
    /// # Errors
    ///
    /// `Kind` where the value is of another kind; else `Long` where it has more octets than the limit.
    pub fn judge(self, value: &Value) -> Result<(), Misfit>
        ensures fits { IsOk result ↔ FitsColumn self value.now }
        ensures kind { (result ≡ Err Misfit.Kind) ↔ ¬ IsOfKind (kind_of self) value.now }
        ensures long { (result ≡ Err Misfit.Long) ↔ (IsOfKind (kind_of self) value.now × ¬ FitsColumn self value.now) }
    {
        match (self, value) {
            (_, Value::Null) => Ok(()),
            (ColumnType::Integer, Value::Integer(number)) => {
                // It is read, so that a proof knows its range.
                let _number = *number;
                Ok(())
            }
            (ColumnType::Boolean, Value::Boolean(_)) => Ok(()),
            (ColumnType::Varchar(limit), Value::Varchar(octets)) => limit.judge(octets.len()),
            (ColumnType::Blob(limit), Value::Blob(octets)) => limit.judge(octets.len()),
            _ => Err(Misfit::Kind),
        }
    }
}
