ghost use Rattle.std.specs.Prelude.{◌↔◌, IsTrue, reverse};
ghost use Rattle.im_disk.specs.Records.{files_of, LiesBehind, FitsBehind, AreWithin};

use crate::settled::settled_len;
use im_disk::calls::Call;
use im_octet::octets::Octets;

/// The number of a disk's files.
pub(crate) const FILES: u8 = 16;

// A disk is written at places below this one.
const PLACES: u64 = 1 << 62;

/// Whether a disk takes these calls one after the other, the first one first, where its files were
/// at first `first`: each write, also one that failed, is of one of its files, at a place below 2^62
/// and at most the length that reads gave. It takes no memory, and time quadratic in the number of
/// calls.
pub fn are_within(first: &[Octets], calls: &[Call]) -> bool
    ensures { IsTrue result ↔ AreWithin (files_of first.now) (reverse calls.now) }
{
    for n in 0..calls.len() {
        if !fits_behind(first, &calls[..n], &calls[n]) {
            return false;
        }
    }
    true
}

// Whether a disk takes a call behind these.
fn fits_behind(first: &[Octets], earlier: &[Call], call: &Call) -> bool
    requires { AreWithin (files_of first.now) (reverse earlier.now) }
    ensures { IsTrue result ↔ FitsBehind (files_of first.now) (reverse earlier.now) call.now }
{
    match call {
        Call::Wrote { file, at, .. } | Call::Tore { file, at, .. } => {
            lies_behind(first, earlier, *file, *at)
        }
        Call::Synced | Call::Missed => true,
    }
}

// Whether a disk may write a file at a place behind these calls.
fn lies_behind(first: &[Octets], earlier: &[Call], file: u8, at: u64) -> bool
    requires { AreWithin (files_of first.now) (reverse earlier.now) }
    ensures { IsTrue result ↔ LiesBehind (files_of first.now) (reverse earlier.now) file at }
{
    if file >= FILES || at >= PLACES {
        return false;
    }
    match settled_len(first, earlier, file) {
        Some(len) => at as usize <= len,
        None => true,
    }
}
