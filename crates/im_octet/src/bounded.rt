use crate::octets::Octets;
use std::marker::Model;

/// An octet string of at least `LEAST` and at most `MOST` octets. A clause sees the list of them.
#[derive(Drop)]
pub struct Bounded<const LEAST: usize, const MOST: usize> {
    octets: Octets,
}

impl<const LEAST: usize, const MOST: usize> Model for Bounded<LEAST, MOST> {
    ghost use Rattle.std.specs.Prelude.{ℕ, ◌≤◌, List, length};

    ghost Value = { List ℕ };

    ghost view = { λ s. s.octets };

    ghost invariant = { λ s. (LEAST ≤ length s.octets) × (length s.octets ≤ MOST) };
}

impl<const LEAST: usize, const MOST: usize> Bounded<LEAST, MOST> {
    ghost use Rattle.std.specs.Prelude.{◌≡◌, ◌≤◌, length};

    /// The octets, whose number the caller has tested.
    pub fn new(octets: Octets) -> Self
        requires least { LEAST ≤ length octets }
        requires most { length octets ≤ MOST }
        ensures { result ≡ octets }
    {
        Bounded { octets }
    }

    /// Gives the octets back.
    pub fn into_octets(self) -> Octets
        ensures value { result ≡ self.entry }
        ensures least { LEAST ≤ length result }
        ensures most { length result ≤ MOST }
    {
        let Bounded { octets } = self;
        octets
    }

    /// Lends the octets.
    pub fn as_slice(&self) -> &[u8]
        ensures value { result.now ≡ self.now }
        ensures least { LEAST ≤ length result.now }
        ensures most { length result.now ≤ MOST }
    {
        self.octets.as_slice()
    }
}
