ghost use Rattle.std.specs.Prelude.{◌≡◌, ◌<◌, ◌≤◌, ◌↔◌, ℕ, IsTrue, length, reverse, slice_index};
ghost use Rattle.im_disk.specs.Disk.{Images, seen_after};
ghost use Rattle.im_disk.specs.Records.{files_of, told_of, AreWithin};
ghost use Rattle.im_image.specs.Remains.{IsOutside, MayRemain, ranges_of};

use crate::ranges::{Stretch, reaches, stretch_at, synced_calls};
use crate::settled::{settled_len, settled_octets};
use crate::within::FILES;
use im_disk::calls::Call;
use im_octet::octets::Octets;

/// Whether a crash may leave an image of a disk, whose files were at first `first`, and whose
/// changing calls were `calls`, the first one first. Files behind the first ones were empty. An image is the
/// octets of each of its sixteen files.
///
/// Between two syncs each written range, and what lies past the old end up to the furthest written
/// octet, may hold any octets after a crash, and the length may be any between; the octets
/// elsewhere stay. A failed write counts as written. After a sync that succeeds a crash leaves what
/// reads give.
///
/// It takes no memory. Octets of the image are compared once, and the calls are gone through for
/// each file, and again for each stretch of it that lies in one written range or in none: its time
/// is linear in the octets, and quadratic in the number of calls.
pub fn may_leave(first: &[Octets], calls: &[Call], image: &[Octets]) -> bool
    requires first { length first.now ≤ 16 }
    requires image { length image.now ≡ 16 }
    requires within { AreWithin (files_of first.now) (reverse calls.now) }
    ensures { IsTrue result ↔ Images (told_of first.now calls.now) (files_of image.now) }
{
    let (until, since) = calls.split_at(synced_calls(calls));
    for file in 0..FILES {
        if !may_remain(first, until, since, file, image[file as usize].as_slice()) {
            return false;
        }
    }
    true
}

// Whether a file may remain so, which the calls until a sync made durable, and those since wrote.
fn may_remain(first: &[Octets], until: &[Call], since: &[Call], file: u8, left: &[u8]) -> bool
    requires { AreWithin (files_of first.now) (reverse until.now) }
    ensures { IsTrue result ↔ MayRemain (seen_after (files_of first.now) (reverse until.now) file)
        (ranges_of (reverse since.now) file) left.now }
{
    match settled_len(first, until, file) {
        Some(len) if len <= left.len() => {
            reaches(since, file, len, left.len()) && stays(first, until, since, file, len, left)
        }
        _ => false,
    }
}

// Whether the octets of a file that lie in no range since the sync are those that it made durable.
fn stays(
    first: &[Octets],
    until: &[Call],
    since: &[Call],
    file: u8,
    len: usize,
    left: &[u8],
) -> bool
    requires within { AreWithin (files_of first.now) (reverse until.now) }
    requires len { len ≡ length (seen_after (files_of first.now) (reverse until.now) file) }
    requires long { len ≤ length left.now }
    ensures { IsTrue result ↔ ((place : ℕ) → place < len
        → IsOutside (ranges_of (reverse since.now) file) place
        → slice_index left.now place
        ≡ slice_index (seen_after (files_of first.now) (reverse until.now) file) place) }
{
    let mut place = 0;
    while place < len {
        place += match stretch_at(since, file, place, len - place) {
            Stretch::Inside(n) => n,
            Stretch::Outside(n) => {
                let octets = settled_octets(first, until, file, place, n);
                if &left[place..place + octets.len()] != octets {
                    return false;
                }
                octets.len()
            }
        };
    }
    true
}
