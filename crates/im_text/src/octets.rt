//! Octets as bare words or hex, read.

ghost use Rattle.std.specs.Prelude.{◌≡◌, IfOk};
ghost use Rattle.hex.specs.Hex.{decode_of};
ghost use Rattle.im_text.specs.Fields.{IsOctets};
ghost use Rattle.im_text.specs.Finds.{Finds};

use crate::cuts::after;
use crate::words::is_bare;
use hex::FromHexError;
use im_octet::octets::Octets;
use std::alloc::{AllocError, Global};

// The octets that pairs of hex digits say.
fn read_hex(alloc: Global, digits: &[u8]) -> Result<Option<Octets>, AllocError>
    ensures { IfOk result (λ octets. Finds octets (λ o. decode_of digits.now ≡ Ok o)) }
{
    match hex::decode(alloc, digits) {
        Ok(octets) => Ok(Some(Octets::from_vec(octets))),
        Err(FromHexError::OutOfMemory) => Err(AllocError),
        Err(_) => Ok(None),
    }
}

/// The octets that a text says, a bare word, which stands for itself, or `0x` and pairs of hex digits in either
/// case; `None` where it says none.
pub fn read_octets(alloc: Global, text: &[u8]) -> Result<Option<Octets>, AllocError>
    ensures { IfOk result (λ octets. Finds octets (IsOctets text.now)) }
{
    if is_bare(text) {
        return Ok(Some(Octets::from_slice(alloc, text)?));
    }
    match after(text, b"0x") {
        Some(digits) => read_hex(alloc, digits),
        None => Ok(None),
    }
}
