use im_octet::octets::Octets;
use std::marker::Model;

/// The attributes of an entry, which its metadata holds.
#[derive(Clone, Copy, Debug, PartialEq, Eq)]
pub struct Attrs {
    /// The entry deletes its key.
    pub deleted: bool,
    /// No index shows the entry.
    pub non_indexable: bool,
}

/// An entry as it is asked for, whatever its lengths.
#[derive(Drop)]
pub struct Draft {
    /// Its attributes.
    pub attrs: Attrs,
    /// The key that it writes.
    pub key: Octets,
    /// What it writes there.
    pub value: Octets,
}

/// The drafts of a transaction, in order. A clause sees the list of them.
#[derive(Drop)]
pub struct Drafts {
    drafts: Vec<Draft>,
}

impl Model for Drafts {
    ghost use Rattle.std.specs.Prelude.{List};
    ghost use Rattle.im_draft.specs.declared.drafts.Draft.{Draft};

    ghost Value = { List Draft };

    ghost view = { λ s. s.drafts.items };
}

impl Drafts {
    ghost use Rattle.std.specs.Prelude.{◌≡◌};

    /// The drafts of a vector, which is not copied.
    pub fn from_vec(drafts: Vec<Draft>) -> Self
        ensures { result ≡ drafts.items }
    {
        Drafts { drafts }
    }

    /// Gives the vector back. It takes no memory.
    pub fn into_vec(self) -> Vec<Draft>
        ensures { result.items ≡ self }
    {
        let Drafts { drafts } = self;
        drafts
    }

    /// Lends the drafts.
    pub fn as_slice(&self) -> &[Draft]
        ensures { result.now ≡ self.now }
    {
        self.drafts.as_slice()
    }
}
