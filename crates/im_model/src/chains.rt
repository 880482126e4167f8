ghost use Rattle.std.specs.Prelude.{◌≡◌, ◌+◌, ◌<◌, ◌^◌, length};
ghost use Rattle.im_model.specs.Chains.{chain};

use im_digest::{D32, Hash32};
use im_octet::fields::eight;

/// The Alh that a chain ends with: from the Alh of transaction k, over the inner digests of those
/// behind it. It takes no memory, and hashes once for each inner digest.
pub fn chain_end<H: Hash32>(hash: &H, alh: &D32, k: u64, inners: &[D32]) -> D32
    requires { k + length inners.now < 2 ^ 64 }
    ensures { result ≡ chain (H.digest hash.now) alh.now k inners.now }
{
    let mut end = *alh;
    let mut number = k;
    for inner in inners {
        number += 1;
        end = hash.hash(&eight(number), &end, inner);
    }
    end
}
