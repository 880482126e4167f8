ghost use Rattle.std.specs.Prelude.{◌≡◌, ◌<◌, ◌≤◌, ◌+◌, length, reverse};
ghost use Rattle.im_model.specs.Growth.{older, newer, growth_length, consistency_length, older_root, newer_root};
ghost use Rattle.im_mtree.specs.Ways.{sides, rise};
ghost use Rattle.im_atree.specs.Grows.{grow_sides, meet_both};

use im_digest::{D32, Hash32};
use im_model::trees::node_digest;
use im_mtree::paths::{meet, terms_of};
use im_mtree::places::{Place, above, is_left, meeting};

/// The roots of one tree at two sizes.
#[derive(Clone, Copy)]
pub struct Roots {
    /// The root at the smaller size.
    pub older: D32,
    /// The root at the greater size.
    pub newer: D32,
}

/// The number of terms of a consistency list from m to n.
pub fn terms_between(m: u64, n: u64) -> u64
    requires some { 0 < m }
    requires grows { m < n }
    ensures { result ≡ consistency_length m n }
{
    let place = first_place(Place {
        index: m - 1,
        last: n - 1,
    });
    terms_of(place.index, place.last + 1) + 1
}

/// The roots that a consistency list of the exact length gives (RFC 9162, section 2.1.4.2, without its
/// prepending, since the first term is always there). `built::consistency` builds the list. It takes no
/// memory, and hashes at most two nodes for each term behind the first.
pub fn roots_between<H: Hash32>(hash: &H, m: u64, n: u64, known: &D32, list: &[D32]) -> Roots
    requires some { 0 < m }
    requires grows { m < n }
    requires exact { length list.now ≡ consistency_length m n }
    ensures older { result.older ≡ older_root (H.digest hash.now) m n known.now list.now }
    ensures newer { result.newer ≡ newer_root (H.digest hash.now) m n known.now list.now }
{
    match list.split_first() {
        None => Roots {
            older: *known,
            newer: *known,
        },
        Some((first, others)) => roots_from(hash, m, n, first, others),
    }
}

// The roots that a first term and those behind it give.
fn roots_from<H: Hash32>(hash: &H, m: u64, n: u64, first: &D32, others: &[D32]) -> Roots
    requires some { 0 < m }
    requires grows { m < n }
    requires exact { length others.now + 1 ≡ consistency_length m n }
    ensures older { result.older ≡ older (H.digest hash.now) m n first.now (reverse others.now) }
    ensures newer { result.newer ≡ newer (H.digest hash.now) m n first.now (reverse others.now) }
{
    let place = first_place(Place {
        index: m - 1,
        last: n - 1,
    });
    let roots = Roots {
        older: *first,
        newer: *first,
    };
    climb_both(hash, roots, place, others)
}

// The lowest place whose subtree the first term is the root of: that of the older tree's last leaf, above
// the levels on which it stands left of the place above (RFC 9162, section 2.1.4.2).
fn first_place(mut place: Place) -> Place
    requires { place.index < place.last }
    ensures within { result.index < result.last }
    ensures lower { result.last ≤ place.last }
    ensures same { sides (result.last + 1) result.index ≡ grow_sides (place.index + 1) (place.last + 1) }
{
    while place.index % 2 == 1 {
        place = above(place);
    }
    place
}

// The roots that a walk from a place up gives, a term at each meeting.
fn climb_both<H: Hash32>(hash: &H, mut roots: Roots, mut place: Place, terms: &[D32]) -> Roots
    requires within { place.index ≤ place.last }
    requires exact { length terms.now ≡ length (sides (place.last + 1) place.index) }
    ensures { result ≡ rise (meet_both (H.digest hash.now)) (sides (place.last + 1) place.index) roots terms.now }
{
    for term in terms {
        let met = meeting(place);
        roots = meet_both(hash, is_left(met), &roots, term);
        place = above(met);
    }
    roots
}

// Both roots and the next term.
fn meet_both<H: Hash32>(hash: &H, left: bool, roots: &Roots, term: &D32) -> Roots
    ensures { result ≡ meet_both (H.digest hash.now) left roots.now term.now }
{
    Roots {
        older: if left {
            node_digest(hash, term, &roots.older)
        } else {
            roots.older
        },
        newer: meet(hash, left, &roots.newer, term),
    }
}
