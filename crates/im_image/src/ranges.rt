ghost use Rattle.std.specs.Prelude.{◌≡◌, ◌<◌, ◌≤◌, ◌↔◌, IsTrue, length, take, drop, reverse};
ghost use Rattle.im_image.specs.Remains.{since_sync, until_sync, range_of, ranges_of, furthest_end};
ghost use Rattle.im_image.specs.Stretches.{IsStretch};

use im_disk::calls::Call;

/// A range of a file: the place where it begins, and how many octets it has.
#[derive(Clone, Copy)]
pub struct WrittenRange {
    /// The place where it begins.
    pub at: usize,
    /// The number of its octets.
    pub count: usize,
}

/// Octets of a file from a place on, as many as there are in one range, or in none.
#[derive(Clone, Copy)]
pub enum Stretch {
    /// So many lie in one range.
    Inside(usize),
    /// So many lie in no range.
    Outside(usize),
}

/// The range of a file that a call wrote, or failed to write.
pub fn range_of(call: &Call, file: u8) -> Option<WrittenRange>
    ensures { result ≡ range_of call.now file }
{
    match call {
        Call::Wrote {
            file: number,
            at,
            piece,
        } if *number == file => Some(WrittenRange {
            at: *at as usize,
            count: piece.len(),
        }),
        Call::Tore {
            file: number,
            at,
            n,
        } if *number == file => Some(WrittenRange {
            at: *at as usize,
            count: *n as usize,
        }),
        _ => None,
    }
}

/// How many of the calls there are up to the last sync that succeeded.
pub fn synced_calls(calls: &[Call]) -> usize
    ensures bound { result ≤ length calls.now }
    ensures until { until_sync (reverse calls.now) ≡ reverse (take result calls.now) }
    ensures since { since_sync (reverse calls.now) ≡ reverse (drop result calls.now) }
{
    let mut rest = calls;
    while let Some((call, earlier)) = rest.split_last() {
        if let Call::Synced = call {
            return rest.len();
        }
        rest = earlier;
    }
    0
}

/// Whether a file may end here, where none of its octets are durable behind `end` and these calls
/// wrote its ranges since.
pub fn reaches(calls: &[Call], file: u8, end: usize, len: usize) -> bool
    ensures { IsTrue result
        ↔ (len ≤ furthest_end end (ranges_of (reverse calls.now) file)) }
{
    let mut rest = calls;
    while let Some((call, earlier)) = rest.split_last() {
        if let Some(range) = range_of(call, file)
            && len.saturating_sub(range.at) <= range.count
        {
            return true;
        }
        rest = earlier;
    }
    len <= end
}

/// The stretch of at most `room` octets from a place on.
pub fn stretch_at(calls: &[Call], file: u8, place: usize, room: usize) -> Stretch
    requires { 0 < room }
    ensures { IsStretch (ranges_of (reverse calls.now) file) place room result }
{
    let mut free = room;
    let mut rest = calls;
    while let Some((call, earlier)) = rest.split_last() {
        rest = earlier;
        if let Some(range) = range_of(call, file) {
            if place < range.at {
                free = free.min(range.at - place);
            } else if place - range.at < range.count {
                return Stretch::Inside(room.min(range.count - (place - range.at)));
            }
        }
    }
    Stretch::Outside(free)
}
