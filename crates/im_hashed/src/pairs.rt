ghost use Rattle.std.specs.Prelude.{◌≡◌, ◌<◌, IfOk, IfSome, IfNone, length};
ghost use Rattle.im_pairs.specs.Pairs.{IsPair, HasPair};
ghost use Rattle.im_hashed.specs.Places.{string_at};

use crate::places::{digests_of, put, unlike};
use im_digest::Hash32;
use im_octet::octets::Octets;
use std::alloc::{AllocError, Global};
use std::collections::BTreeMap;

/// Two unequal strings of one digest.
#[derive(Drop)]
pub struct Pair {
    /// One of them.
    pub x: Octets,
    /// The other one.
    pub y: Octets,
}

/// Two unequal strings of one digest among these; `None` just where there are none. It hashes each string once, and looks
/// up each digest once among those before it. Its only error is want of memory.
pub fn find_pair<H: Hash32>(
    alloc: Global,
    hash: &H,
    strings: &[Octets],
) -> Result<Option<Pair>, AllocError>
    ensures found { IfOk result (λ found. IfSome found (λ pair. IsPair (H.digest hash.now) pair.x pair.y strings.now)) }
    ensures none { IfOk result (λ found. IfNone found (HasPair (H.digest hash.now) strings.now → ⊥)) }
{
    let digests = digests_of(alloc, hash, strings)?;
    let mut places = BTreeMap::new(alloc);
    for (k, digest) in digests.iter().enumerate() {
        let earlier = put(&mut places, digest.as_slice(), k)?;
        if let Some(i) = unlike(strings, earlier, k) {
            return Ok(Some(pair_at(alloc, strings, i, k)?));
        }
    }
    Ok(None)
}

/// Two unequal strings of one digest among these, where there are such. It costs what `find_pair` does. Its only error is
/// want of memory.
pub fn pair_of<H: Hash32>(alloc: Global, hash: &H, strings: &[Octets]) -> Result<Pair, AllocError>
    requires { HasPair (H.digest hash.now) strings.now }
    ensures { IfOk result (λ pair. IsPair (H.digest hash.now) pair.x pair.y strings.now) }
{
    match find_pair(alloc, hash, strings)? {
        Some(pair) => Ok(pair),
        None => unreachable!(),
    }
}

// Copies of the strings at two places.
fn pair_at(alloc: Global, strings: &[Octets], i: usize, k: usize) -> Result<Pair, AllocError>
    requires one { i < length strings.now }
    requires other { k < length strings.now }
    ensures { IfOk result (λ pair. pair ≡ record { x = string_at strings.now i; y = string_at strings.now k }) }
{
    let x = Octets::from_slice(alloc, strings[i].as_slice())?;
    let y = Octets::from_slice(alloc, strings[k].as_slice())?;
    Ok(Pair { x, y })
}
