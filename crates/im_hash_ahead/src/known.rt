use crate::facts::Facts;
use im_digest::{D32, Hash32};
use std::marker::Model;

/// A hash that has some digests already: those of strings that were hashed before, by the same hash. It gives the digest
/// that the hash gives, of any string. A clause sees the hash.
///
/// # Invariants
///
/// The facts are those of the hash.
#[derive(Drop)]
pub struct Known<'a, H: Hash32> {
    hash: &'a H,
    near: &'a Facts,
    far: &'a Facts,
}

impl<'a, H: Hash32> Model for Known<'a, H> {
    ghost use Rattle.im_hash_ahead.specs.Facts.{AreFacts};

    ghost Value = { H };

    ghost view = { λ s. s.hash.now };

    ghost invariant = { λ s. AreFacts (H.digest s.hash.now) s.near.now × AreFacts (H.digest s.hash.now) s.far.now };
}

impl<'a, H: Hash32> Known<'a, H> {
    ghost use Rattle.std.specs.Prelude.{◌≡◌};
    ghost use Rattle.im_hash_ahead.specs.Facts.{AreFacts};

    /// The hash with these facts, of which the near ones are looked at first.
    pub fn of(hash: &'a H, near: &'a Facts, far: &'a Facts) -> Self
        requires near { AreFacts (H.digest hash.now) near.now }
        requires far { AreFacts (H.digest hash.now) far.now }
        ensures { result ≡ hash.now }
    {
        Known { hash, near, far }
    }
}

impl<H: Hash32> Hash32 for Known<'_, H> {
    ghost digest = { λ hash. H.digest hash };

    ghost size = { λ hash octets. H.size hash octets };

    fn hash(&self, a: &[u8], b: &[u8], c: &[u8]) -> D32 {
        if let Some(digest) = self.near.find(a, b, c) {
            return digest;
        }
        match self.far.find(a, b, c) {
            Some(digest) => digest,
            None => self.hash.hash(a, b, c),
        }
    }
}
