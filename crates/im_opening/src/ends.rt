ghost use Rattle.std.specs.Prelude.{◌≡◌, ◌-◌, ◌^◌, ◌∷◌, [], map, max, min};
ghost use Rattle.im_format.specs.Places.{log_end, refs_of};

use im_format::records::Record;
use im_format::references::ValueRef;

/// Where each value log ends behind the references of records, at most `u64::MAX`. It goes over the records once, and takes no
/// memory.
pub(crate) fn ends_of(records: &[Record]) -> [u64; 4]
    ensures { result ≡ map (λ log. min (log_end log (refs_of records.now)) (2 ^ 64 - 1)) (0 ∷ 1 ∷ 2 ∷ 3 ∷ []) }
{
    let mut first = 0;
    let mut second = 0;
    let mut third = 0;
    let mut fourth = 0;
    for record in records {
        let refs = record.refs.as_slice();
        first = end_behind(first, 0, refs);
        second = end_behind(second, 1, refs);
        third = end_behind(third, 2, refs);
        fourth = end_behind(fourth, 3, refs);
    }
    [first, second, third, fourth]
}

// Where a value log ends behind references, where it ended at a place before them; at most `u64::MAX`.
fn end_behind(start: u64, log: u8, refs: &[ValueRef]) -> u64
    ensures { result ≡ min (max start (log_end log refs.now)) (2 ^ 64 - 1) }
{
    let mut end = start;
    for value in refs {
        if value.log == log {
            end = end.max(value.at.saturating_add(u64::from(value.len)));
        }
    }
    end
}
