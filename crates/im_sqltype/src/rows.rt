ghost use Rattle.std.specs.Prelude.{◌≡◌, IfOk};

use crate::values::Value;
use std::alloc::{AllocError, Global};
use std::marker::Model;

/// Values in the order of their columns: of a key, or of a row. A clause sees the list of them.
#[derive(Drop)]
pub struct Row {
    values: Vec<Value>,
}

impl Model for Row {
    ghost use Rattle.std.specs.Prelude.{List};
    ghost use Rattle.im_sqltype.specs.declared.values.Value.{Value as Cell};

    ghost Value = { List Cell };

    ghost view = { λ s. s.values.items };
}

impl Row {
    ghost use Rattle.std.specs.Prelude.{length};

    /// The values of a vector, which is not copied.
    pub fn from_vec(values: Vec<Value>) -> Self
        ensures { result ≡ values.items }
    {
        Row { values }
    }

    /// Gives the vector back. It takes no memory.
    pub fn into_vec(self) -> Vec<Value>
        ensures { result.items ≡ self }
    {
        let Row { values } = self;
        values
    }

    /// Lends the values.
    pub fn as_slice(&self) -> &[Value]
        ensures { result.now ≡ self.now }
    {
        self.values.as_slice()
    }

    /// The number of values.
    pub fn len(&self) -> usize
        ensures { result ≡ length self.now }
    {
        self.values.len()
    }

    /// A copy of these values, of their octets too. Its only error is want of memory.
    pub fn try_clone(&self, alloc: Global) -> Result<Self, AllocError>
        ensures { IfOk result (λ row. row ≡ self.now) }
    {
        Ok(Row {
            values: copies_of(alloc, self.values.as_slice())?,
        })
    }
}

// A copy of each value.
fn copies_of(alloc: Global, values: &[Value]) -> Result<Vec<Value>, AllocError>
    ensures { IfOk result (λ copies. copies.items ≡ values.now) }
{
    let mut copies = Vec::with_capacity(alloc, values.len())?;
    for value in values {
        copies.push(value.try_clone(alloc)?)?;
    }
    Ok(copies)
}
