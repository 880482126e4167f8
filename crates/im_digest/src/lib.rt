//! Hash functions from octet strings to 32 octets.
#![tactic(auto)]

ghost use Rattle.std.specs.Prelude.{◌≡◌, ℕ, ◌+◌, ◌%◌, List, ◌++◌, length, sum};
ghost use Rattle.sha2.specs.Sha256.{sha256};
ghost use Rattle.im_digest.specs.Digests.{sum_digest};

use sha2::{Digest, Sha256};

/// A digest: 32 octets.
pub type D32 = [u8; 32];

/// A hash function: one function of an octet string.
pub trait Hash32 {
    /// The digest of an octet string.
    ghost digest: { Self → List ℕ → List ℕ };

    /// The digest of three parts, one behind the other. It takes no memory.
    fn hash(&self, a: &[u8], b: &[u8], c: &[u8]) -> D32
        ensures { result ≡ digest self.now (a.now ++ b.now ++ c.now) };

    /// A digest has 32 octets.
    ghost size: { (hash : Self) (octets : List ℕ) → length (digest hash octets) ≡ 32 };
}

/// SHA-256 (FIPS 180-4).
#[derive(Clone, Copy)]
pub struct Sha;

impl Hash32 for Sha {
    ghost use Rattle.sha2.proofs.Facts256.{length-sha256};

    ghost digest = { λ _. sha256 };

    ghost size = { λ _ octets. length-sha256 octets };

    fn hash(&self, a: &[u8], b: &[u8], c: &[u8]) -> D32 {
        let mut hasher = Sha256::new();
        hasher.update(a);
        hasher.update(b);
        hasher.update(c);
        hasher.finalize()
    }
}

/// The sum of all octets modulo 256, behind 31 zero octets: a broken hash, for tests alone.
#[derive(Clone, Copy)]
pub struct Sum;

impl Hash32 for Sum {
    ghost use Rattle.std.specs.Prelude.{refl};

    ghost digest = { λ _. sum_digest };

    ghost size = { λ _ octets. refl };

    fn hash(&self, a: &[u8], b: &[u8], c: &[u8]) -> D32 {
        let mut digest = [0u8; 32];
        digest[31] = add_all(add_all(add_all(0, a), b), c);
        digest
    }
}

// `start` and the sum of the octets, modulo 256.
fn add_all(start: u8, octets: &[u8]) -> u8
    ensures { result ≡ (start + sum octets.now) % 256 }
{
    let mut total = start;
    for octet in octets {
        total = total.wrapping_add(*octet);
    }
    total
}
