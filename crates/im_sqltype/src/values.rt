ghost use Rattle.std.specs.Prelude.{◌≡◌, IfOk};

use im_octet::octets::Octets;
use std::alloc::{AllocError, Global};

/// A value of SQL.
#[derive(Drop)]
pub enum Value {
    /// No value: what a column holds that isn't given.
    Null,
    /// A number.
    Integer(i64),
    /// False or true.
    Boolean(bool),
    /// A text, by its octets.
    Varchar(Octets),
    /// An octet string.
    Blob(Octets),
}

impl Value {
    ghost use Rattle.im_sqltype.specs.Orders.{rank_of};

    /// Where the values of its kind stand among those of others: 0 for NULL, which is before all others.
    pub(crate) fn rank(&self) -> u8
        ensures { result ≡ rank_of self.now }
    {
        match self {
            Value::Null => 0,
            Value::Integer(_) => 1,
            Value::Boolean(_) => 2,
            Value::Varchar(_) => 3,
            Value::Blob(_) => 4,
        }
    }

    /// A copy of this value, of its octets too. Its only error is want of memory.
    pub fn try_clone(&self, alloc: Global) -> Result<Self, AllocError>
        ensures { IfOk result (λ value. value ≡ self.now) }
    {
        match self {
            Value::Null => Ok(Value::Null),
            Value::Integer(number) => Ok(Value::Integer(*number)),
            Value::Boolean(truth) => Ok(Value::Boolean(*truth)),
            Value::Varchar(octets) => {
                let copy = Octets::from_slice(alloc, octets.as_slice())?;
                Ok(Value::Varchar(copy))
            }
            Value::Blob(octets) => {
                let copy = Octets::from_slice(alloc, octets.as_slice())?;
                Ok(Value::Blob(copy))
            }
        }
    }
}
