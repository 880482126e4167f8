ghost use Rattle.std.specs.Prelude.{◌≡◌, ◌+◌, ◌<◌, ◌≤◌, ◌^◌, ℕ, length, reverse, slice_index};
ghost use Rattle.std.specs.Option.{option_map, SomeIff};
ghost use Rattle.im_disk.specs.Disk.{seen_after};
ghost use Rattle.im_disk.specs.Records.{files_of, AreWithin};
ghost use Rattle.im_image.specs.Pieces.{piece_of};

use im_disk::calls::Call;
use im_octet::octets::Octets;

/// A piece that was written of a file: the place where it begins, and its octets.
#[derive(Clone, Copy)]
pub struct WrittenPiece<'a> {
    /// The place where it begins.
    pub at: usize,
    /// Its octets, which are lent.
    pub octets: &'a [u8],
}

/// The piece of a file that a call wrote.
pub fn piece_of(call: &Call, file: u8) -> Option<WrittenPiece<'_>>
    ensures { option_map (λ piece. record { at = piece.at; octets = piece.octets.now }) result
        ≡ piece_of call.now file }
{
    match call {
        Call::Wrote {
            file: number,
            at,
            piece,
        } if *number == file => Some(WrittenPiece {
            at: *at as usize,
            octets: piece.as_slice(),
        }),
        _ => None,
    }
}

// The octets of a file at first: none where it isn't among those given.
fn octets_of(first: &[Octets], file: u8) -> &[u8]
    ensures { result.now ≡ files_of first.now file }
{
    match first.get(file as usize) {
        Some(octets) => octets.as_slice(),
        None => &[],
    }
}

/// The length that reads give of a file after these calls, or none where it doesn't fit 64 bits.
pub fn settled_len(first: &[Octets], calls: &[Call], file: u8) -> Option<usize>
    requires { AreWithin (files_of first.now) (reverse calls.now) }
    ensures { SomeIff result (length (seen_after (files_of first.now) (reverse calls.now) file) < 2 ^ 64)
        (length (seen_after (files_of first.now) (reverse calls.now) file)) }
{
    let octets = octets_of(first, file);
    let mut len = octets.len();
    let mut rest = calls;
    while let Some((call, earlier)) = rest.split_last() {
        rest = earlier;
        if let Some(piece) = piece_of(call, file) {
            len = len.max(piece.at.checked_add(piece.octets.len())?);
        }
    }
    Some(len)
}

/// Some octets that reads give of a file from a place on after these calls: at least one, and at
/// most `room`, as many as one call wrote, or as stand there from the first.
pub fn settled_octets<'a>(
    first: &'a [Octets],
    calls: &'a [Call],
    file: u8,
    place: usize,
    room: usize,
) -> &'a [u8]
    requires within { AreWithin (files_of first.now) (reverse calls.now) }
    requires some { 0 < room }
    requires room { place + room ≤ length (seen_after (files_of first.now) (reverse calls.now) file) }
    ensures some { 0 < length result.now }
    ensures room { length result.now ≤ room }
    ensures octets { (k : ℕ) → k < length result.now
        → slice_index result.now k
        ≡ slice_index (seen_after (files_of first.now) (reverse calls.now) file) (place + k) }
{
    let mut count = room;
    let mut rest = calls;
    while let Some((call, earlier)) = rest.split_last() {
        rest = earlier;
        if let Some(piece) = piece_of(call, file) {
            if place < piece.at {
                count = count.min(piece.at - place);
            } else if place - piece.at < piece.octets.len() {
                let octets = &piece.octets[place - piece.at..];
                return &octets[..count.min(octets.len())];
            }
        }
    }
    let octets = octets_of(first, file);
    &octets[place..place + count]
}
