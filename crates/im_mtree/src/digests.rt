use im_digest::D32;
use std::marker::Model;

/// A list of digests. A clause sees the list of their octets.
#[derive(Drop)]
pub struct Digests {
    digests: Vec<D32>,
}

impl Model for Digests {
    ghost use Rattle.std.specs.Prelude.{ℕ, List};

    ghost Value = { List (List ℕ) };

    ghost view = { λ s. s.digests.items };
}

impl Digests {
    ghost use Rattle.std.specs.Prelude.{◌≡◌, ◌==◌, length};

    /// The digests of a vector, which is not copied.
    pub fn from_vec(digests: Vec<D32>) -> Self
        ensures { result ≡ digests.items }
    {
        Digests { digests }
    }

    /// Gives the vector back. It takes no memory.
    pub fn into_vec(self) -> Vec<D32>
        ensures { result.items ≡ self }
    {
        let Digests { digests } = self;
        digests
    }

    /// Lends the digests.
    pub fn as_slice(&self) -> &[D32]
        ensures { result.now ≡ self.now }
    {
        self.digests.as_slice()
    }

    /// The number of digests.
    pub fn len(&self) -> usize
        ensures { result ≡ length self.now }
    {
        self.digests.len()
    }

    /// Whether there is no digest.
    pub fn is_empty(&self) -> bool
        ensures { result ≡ (length self.now == 0) }
    {
        self.digests.is_empty()
    }
}
