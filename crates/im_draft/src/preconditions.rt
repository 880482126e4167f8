use im_octet::octets::Octets;
use std::marker::Model;

/// A condition under which a transaction is placed. Its key may have any length.
#[derive(Drop)]
pub enum Pre {
    /// The key is live.
    Exists { key: Octets },
    /// The key isn't live.
    Missing { key: Octets },
    /// The last version of the key, a deletion too, isn't after transaction `n`.
    Since { key: Octets, n: u64 },
}

/// The preconditions of a transaction, in the order in which they are judged. A clause sees the list of
/// them.
#[derive(Drop)]
pub struct Pres {
    pres: Vec<Pre>,
}

impl Model for Pres {
    ghost use Rattle.std.specs.Prelude.{List};
    ghost use Rattle.im_draft.specs.declared.preconditions.Pre.{Pre};

    ghost Value = { List Pre };

    ghost view = { λ s. s.pres.items };
}

impl Pres {
    ghost use Rattle.std.specs.Prelude.{◌≡◌};

    /// The preconditions of a vector, which is not copied.
    pub fn from_vec(pres: Vec<Pre>) -> Self
        ensures { result ≡ pres.items }
    {
        Pres { pres }
    }

    /// Gives the vector back. It takes no memory.
    pub fn into_vec(self) -> Vec<Pre>
        ensures { result.items ≡ self }
    {
        let Pres { pres } = self;
        pres
    }

    /// Lends the preconditions.
    pub fn as_slice(&self) -> &[Pre]
        ensures { result.now ≡ self.now }
    {
        self.pres.as_slice()
    }
}
