use im_mtree::digests::Digests;
use std::marker::Model;

/// A list of lists of digests. A clause sees the list of the lists of their octets.
#[derive(Drop)]
pub struct DigestLists {
    lists: Vec<Digests>,
}

impl Model for DigestLists {
    ghost use Rattle.std.specs.Prelude.{ℕ, List};

    ghost Value = { List (List (List ℕ)) };

    ghost view = { λ s. s.lists.items };
}

impl DigestLists {
    ghost use Rattle.std.specs.Prelude.{◌≡◌, length};

    /// The lists of a vector, which is not copied.
    pub fn from_vec(lists: Vec<Digests>) -> Self
        ensures { result ≡ lists.items }
    {
        DigestLists { lists }
    }

    /// Gives the vector back. It takes no memory.
    pub fn into_vec(self) -> Vec<Digests>
        ensures { result.items ≡ self }
    {
        let DigestLists { lists } = self;
        lists
    }

    /// Lends the lists.
    pub fn as_slice(&self) -> &[Digests]
        ensures { result.now ≡ self.now }
    {
        self.lists.as_slice()
    }

    /// The number of lists.
    pub fn len(&self) -> usize
        ensures { result ≡ length self.now }
    {
        self.lists.len()
    }
}
