ghost use Rattle.std.specs.Prelude.{◌≡◌, ◌<◌, ◌≤◌, ◌+◌, ◌/◌, ◌∷◌};
ghost use Rattle.im_mtree.specs.Ways.{sides, Meets, IsPassedTo};

/// A node on the way from a leaf to the root: its index on its level, and that of the level's last node.
#[derive(Clone, Copy)]
pub struct Place {
    /// The node's index on its level, from 0.
    pub index: u64,
    /// The index of the level's last node.
    pub last: u64,
}

/// The lowest place from here up at which a term is met, or else the root: it passes over the levels on
/// which the last node stands alone (RFC 9162, section 2.1.3.2).
#[tactic(auto, using(crate::proofs::WayLemmas::pass_level, crate::proofs::WayLemmas::passed_none, crate::proofs::WayLemmas::passed_on))]
pub fn meeting(mut place: Place) -> Place
    requires { place.index ≤ place.last }
    ensures within { result.index ≤ result.last }
    ensures same { sides (result.last + 1) result.index ≡ sides (place.last + 1) place.index }
    ensures lower { result.last ≤ place.last }
    ensures met { 0 < result.last → Meets result }
    ensures passed { IsPassedTo place result }
{
    while 0 < place.last && place.index == place.last && place.last % 2 == 0 {
        place = Place {
            index: place.index / 2,
            last: place.last / 2,
        };
    }
    place
}

/// Whether the term that is met here stands left.
#[tactic(auto, using(crate::proofs::WayLemmas::meet_level))]
pub fn is_left(place: Place) -> bool
    requires meets { Meets place }
    requires within { place.index ≤ place.last }
    ensures { sides (place.last + 1) place.index ≡ result ∷ sides (place.last / 2 + 1) (place.index / 2) }
{
    place.index % 2 == 1
}

/// The place above.
pub fn above(place: Place) -> Place
    requires { place.index ≤ place.last }
    ensures index { result.index ≡ place.index / 2 }
    ensures last { result.last ≡ place.last / 2 }
    ensures within { result.index ≤ result.last }
{
    Place {
        index: place.index / 2,
        last: place.last / 2,
    }
}
