ghost use Rattle.std.specs.Prelude.{◌≡◌, ◌≢◌, ◌<◌, IfOk, IfSome, IfNone, OnOk, Some, length, map};
ghost use Rattle.im_octet.specs.Places.{place_in, PutsPlace};
ghost use Rattle.im_hashed.specs.Places.{string_at};

use im_digest::{D32, Hash32};
use im_forge::strings::digest_of;
use im_octet::octets::Octets;
use std::alloc::{AllocError, Global};
use std::collections::BTreeMap;

// The digests of strings, in order.
pub(crate) fn digests_of<H: Hash32>(
    alloc: Global,
    hash: &H,
    strings: &[Octets],
) -> Result<Vec<D32>, AllocError>
    ensures { IfOk result (λ digests. digests.items ≡ map (H.digest hash.now) strings.now) }
{
    let mut digests = Vec::new(alloc);
    for octets in strings {
        digests.push(digest_of(hash, octets))?;
    }
    Ok(digests)
}

// Puts a digest at place k, and gives the place at which it stood.
pub(crate) fn put<'d>(
    places: &mut BTreeMap<&'d [u8], usize>,
    digest: &'d [u8],
    k: usize,
) -> Result<Option<usize>, AllocError>
    ensures earlier { IfOk result (λ earlier. earlier ≡ place_in places.old digest.now) }
    ensures after { OnOk result (PutsPlace places.old places.new digest.now k) }
{
    Ok(places.insert(digest, k)?)
}

// The earlier place, if its string isn't the one at place k.
pub(crate) fn unlike(strings: &[Octets], earlier: Option<usize>, k: usize) -> Option<usize>
    requires earlier { IfSome earlier (λ i. i < length strings.now) }
    requires here { k < length strings.now }
    ensures some { IfSome result (λ i. (earlier ≡ Some i) × (string_at strings.now i ≢ string_at strings.now k)) }
    ensures none { IfNone result (IfSome earlier (λ i. string_at strings.now i ≡ string_at strings.now k)) }
{
    match earlier {
        None => None,
        Some(i) => {
            if strings[i].as_slice() == strings[k].as_slice() {
                return None;
            }
            Some(i)
        }
    }
}
