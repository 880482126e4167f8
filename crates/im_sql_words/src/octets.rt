//! Octets as lower-case hex, read.

use hex::FromHexError;
use std::alloc::Global;

/// Why digits say no octets.
#[derive(Clone, Copy)]
pub enum OctetsError {
    /// They aren't pairs of lower-case hex digits.
    Digits,
    /// Memory ran out.
    Memory,
}

/// The octets that pairs of lower-case hex digits say.
pub fn octets(alloc: Global, digits: &str) -> Result<Vec<u8>, OctetsError> {
    if has_capitals(digits.as_bytes()) {
        return Err(OctetsError::Digits);
    }
    match hex::decode(alloc, digits.as_bytes()) {
        Ok(octets) => Ok(octets),
        Err(FromHexError::OutOfMemory) => Err(OctetsError::Memory),
        Err(_) => Err(OctetsError::Digits),
    }
}

fn has_capitals(digits: &[u8]) -> bool {
    for digit in digits {
        if digit.is_ascii_uppercase() {
            return true;
        }
    }
    false
}
