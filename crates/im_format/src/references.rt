use crate::files::FIRST_VALUE_LOG;
use im_digest::D32;
use std::marker::Model;

/// What the transaction log says of a value: its digest, its length, and where it lies.
#[derive(Clone, Copy, Debug, PartialEq, Eq)]
pub struct ValueRef {
    /// The digest of the value.
    pub hval: D32,
    /// The number of its octets.
    pub len: u32,
    /// The value log that holds it, 0 to 3.
    pub log: u8,
    /// The place of its first octet in that log.
    pub at: u64,
}

impl ValueRef {
    ghost use Rattle.std.specs.Prelude.{◌≡◌, ◌≤◌, ◌+◌};

    /// The number of the file that holds the value.
    pub fn file(&self) -> u8
        requires { self.now.log ≤ 3 }
        ensures { result ≡ 2 + self.now.log }
    {
        FIRST_VALUE_LOG + self.log
    }
}

/// The references of a transaction's values, in the order of its entries. A clause sees the list of them.
#[derive(Drop)]
pub struct Refs {
    refs: Vec<ValueRef>,
}

impl Model for Refs {
    ghost use Rattle.std.specs.Prelude.{List};
    ghost use Rattle.im_format.specs.declared.references.ValueRef.{ValueRef};

    ghost Value = { List ValueRef };

    ghost view = { λ s. s.refs.items };
}

impl Refs {
    ghost use Rattle.std.specs.Prelude.{◌≡◌};

    /// The references of a vector, which is not copied.
    pub fn from_vec(refs: Vec<ValueRef>) -> Self
        ensures { result ≡ refs.items }
    {
        Refs { refs }
    }

    /// Gives the vector back. It takes no memory.
    pub fn into_vec(self) -> Vec<ValueRef>
        ensures { result.items ≡ self }
    {
        let Refs { refs } = self;
        refs
    }

    /// Lends the references.
    pub fn as_slice(&self) -> &[ValueRef]
        ensures { result.now ≡ self.now }
    {
        self.refs.as_slice()
    }
}
