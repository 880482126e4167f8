//! The hash function that a run asks for.

use im_digest::{D32, Hash32, Sha, Sum};

/// SHA-256, or the sum of all octets.
#[derive(Clone, Copy)]
pub struct AskedHash {
    /// Whether it is SHA-256.
    pub is_sha: bool,
}

impl Hash32 for AskedHash {
    ghost use Rattle.std.specs.Prelude.{◌≡◌, List, length, refl, if◌then◌else◌};
    ghost use Rattle.std.proofs.lemmas.Bool.{cond_both};
    ghost use Rattle.sha2.specs.Sha256.{sha256};
    ghost use Rattle.sha2.proofs.Facts256.{length-sha256};
    ghost use Rattle.im_digest.specs.Digests.{sum_digest};

    ghost digest = { λ hash octets. if hash.is_sha then sha256 octets else sum_digest octets };

    ghost size = { λ hash octets. cond_both hash.is_sha (sha256 octets) (sum_digest octets) (λ digest. length digest ≡ 32)
        (λ _. length-sha256 octets) (λ _. refl) };

    fn hash(&self, a: &[u8], b: &[u8], c: &[u8]) -> D32 {
        if self.is_sha {
            Sha.hash(a, b, c)
        } else {
            Sum.hash(a, b, c)
        }
    }
}
