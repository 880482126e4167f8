ghost use Rattle.std.specs.Prelude.{◌≡◌, ◌<◌, length};
ghost use Rattle.im_model.specs.Trees.{root};

use crate::frontiers::Frontier;
use im_digest::{D32, Hash32};

/// The root over the digests: MTH of RFC 6962, section 2.1. It goes over the list once, takes no memory,
/// and hashes each leaf and each node once.
pub fn root<H: Hash32>(hash: &H, digests: &[D32]) -> D32
    requires { 0 < length digests.now }
    ensures { result ≡ root (H.digest hash.now) digests.now }
{
    let mut frontier = Frontier::new();
    frontier.extend(hash, digests);
    frontier.root(hash)
}
