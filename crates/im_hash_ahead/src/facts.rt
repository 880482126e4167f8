ghost use Rattle.std.specs.Prelude.{◌≡◌, ◌≤◌, ◌<◌, ◌+◌, ◌++◌, ◌∷◌, [], length, true, List, IfOk, IfSome};
ghost use Rattle.im_digest.specs.Digests.{Hash};
ghost use Rattle.im_hash_ahead.specs.Facts.{AreFacts, IsFact};

use crate::room::room_for;
use arrayvec::ArrayVec;
use im_digest::{D32, Hash32};
use im_octet::buffers::append;
use std::alloc::{AllocError, Global};
use std::cell::Cell;
use std::marker::Model;

/// The octets of the longest string that is kept: of those that are hashed of a record, only a long value and an entry with
/// a long key have more.
pub const MOST_OCTETS: usize = 160;

// The places that are looked at for a fact.
const PROBES: usize = 64;

// Stands in a place that has no fact.
const NO_FACT: u64 = u64::MAX;

// The lower half of what stands in a place: the number of a fact, below this.
const LOWER: u64 = 0xffff_ffff;

// The upper half: that of the fact's mark.
const UPPER: u64 = LOWER << 32;

// An odd factor, which spreads the octets of a mark over all its digits.
const SPREAD: u64 = 0x9e37_79b9_7f4a_7c15;

/// A string that was hashed, and its digest.
#[derive(Drop)]
pub struct Fact {
    /// The string.
    pub octets: ArrayVec<u8, 160>,
    /// Its digest.
    pub digest: D32,
    // A number made of some of its octets: equal for equal parts.
    mark: u64,
}

impl Fact {
    ghost use Rattle.std.specs.Prelude.{◌≡◌, ◌≤◌, ◌+◌, ◌++◌, length};
    ghost use Rattle.im_hash_ahead.specs.Facts.{IsFact};

    /// Hashes three parts, one behind the other.
    pub(crate) fn of<H: Hash32>(hash: &H, a: &[u8], b: &[u8], c: &[u8]) -> Self
        requires { length a.now + length b.now + length c.now ≤ 160 }
        ensures made { IsFact (H.digest hash.now) result }
        ensures digest { result.digest ≡ H.digest hash.now (a.now ++ b.now ++ c.now) }
    {
        let mut octets = ArrayVec::<u8, 160>::new();
        append(&mut octets, a);
        append(&mut octets, b);
        append(&mut octets, c);
        Fact {
            octets,
            digest: hash.hash(a, b, c),
            mark: mark_of(a, b, c),
        }
    }

    // Whether the string is these three parts, one behind the other.
    fn is_of(&self, a: &[u8], b: &[u8], c: &[u8]) -> bool
        ensures { result ≡ true → self.now.octets.items ≡ a.now ++ b.now ++ c.now }
    {
        let octets = self.octets.as_slice();
        if octets.len() < a.len() || octets.len() - a.len() < b.len() {
            return false;
        }
        let (first, rest) = octets.split_at(a.len());
        let (second, third) = rest.split_at(b.len());
        if third != c {
            return false;
        }
        if second != b {
            return false;
        }
        first == a
    }
}

// A number made of a few octets of three parts. Equal parts have equal numbers; that others mostly have other ones makes
// it fast, and no more.
fn mark_of(a: &[u8], b: &[u8], c: &[u8]) -> u64 {
    mixed(mixed(mixed(0, a), b), c)
}

// The same with a part more.
fn mixed(mark: u64, part: &[u8]) -> u64 {
    let (front, _) = part.split_at(part.len() / 3);
    mark.wrapping_add(tail(part))
        .wrapping_mul(SPREAD)
        .wrapping_add(tail(front))
}

// The number of the last four octets, or how many there are.
fn tail(part: &[u8]) -> u64 {
    let n = part.len();
    if n < 4 {
        return n as u64;
    }
    let high = u64::from(part[n - 4]) * 256 + u64::from(part[n - 3]);
    let low = u64::from(part[n - 2]) * 256 + u64::from(part[n - 1]);
    high * 65536 + low
}

// What stands in the place of a fact: its number, behind the upper half of its mark.
fn word_of(mark: u64, number: u64) -> u64 {
    (mark & UPPER) | (number & LOWER)
}

// Places without a fact, two for each of so many facts and one more; no places for no facts, or where memory isn't there.
fn places_for(alloc: Global, room: usize) -> Vec<u64> {
    if room == 0 {
        return Vec::new(alloc);
    }
    let count = room.saturating_mul(2).saturating_add(1);
    match vec![in alloc; NO_FACT; count] {
        Ok(places) => places,
        Err(_) => Vec::new(alloc),
    }
}

// Whether a place may be that of a fact with this mark.
fn is_alike(word: u64, mark: u64) -> bool {
    (word ^ mark) & UPPER == 0
}

/// Facts, most found by their parts in a few steps, and in one where they are looked for in the order in which they were added.
/// It takes memory for 208 octets a fact and 16 octets more. What was found last is kept in a cell, so one thread at a time looks
/// for facts: they may be sent to a thread, but not shared by two. A clause sees the list of them.
#[derive(Drop)]
pub struct Facts {
    facts: Vec<Fact>,
    // The number of the fact behind the one that was found last. It is looked at first.
    next: Cell<usize>,
    // For some places the number of a fact, behind the upper half of its mark: most facts that aren't looked for are passed
    // by without a look at them, which would be one into memory far away.
    places: Vec<u64>,
}

impl Model for Facts {
    ghost use Rattle.std.specs.Prelude.{List};
    ghost use Rattle.im_hash_ahead.specs.declared.facts.Fact.{Fact};

    ghost Value = { List Fact };

    ghost view = { λ s. s.facts.items };
}

impl Facts {
    ghost use Rattle.std.specs.Prelude.{◌≡◌, ◌≤◌, ◌<◌, ◌+◌, ◌++◌, ◌∷◌, [], length, List, IfOk, OnOk, IfSome};
    ghost use Rattle.im_digest.specs.Digests.{Hash};
    ghost use Rattle.im_hash_ahead.specs.Facts.{AreFacts, IsFact};

    /// None yet, with room for so many where memory is there; for none it takes no memory.
    pub(crate) fn with_room(alloc: Global, room: usize) -> Self
        ensures { result ≡ [] }
    {
        Facts {
            facts: room_for(alloc, room),
            next: Cell::new(0),
            places: places_for(alloc, room),
        }
    }

    /// The digest of three parts, one behind the other, where it is among them. It takes no memory.
    pub(crate) fn find(&self, a: &[u8], b: &[u8], c: &[u8]) -> Option<D32>
        ensures { (hash : Hash) → AreFacts hash self.now → IfSome result (λ digest. digest ≡ hash (a.now ++ b.now ++ c.now)) }
    {
        match self.at(self.next.get(), a, b, c) {
            Some(digest) => Some(digest),
            None => self.by_places(a, b, c),
        }
    }

    // The digest of three parts, where the fact of this number is that of them. The one behind it is looked at first then.
    fn at(&self, number: usize, a: &[u8], b: &[u8], c: &[u8]) -> Option<D32>
        ensures { (hash : Hash) → AreFacts hash self.now → IfSome result (λ digest. digest ≡ hash (a.now ++ b.now ++ c.now)) }
    {
        let fact = self.facts.get(number)?;
        if !fact.is_of(a, b, c) {
            return None;
        }
        self.next.set(number.saturating_add(1));
        Some(fact.digest)
    }

    // The same of the fact of any number, by the places: none where there are no places.
    fn by_places(&self, a: &[u8], b: &[u8], c: &[u8]) -> Option<D32>
        ensures { (hash : Hash) → AreFacts hash self.now → IfSome result (λ digest. digest ≡ hash (a.now ++ b.now ++ c.now)) }
    {
        if self.facts.is_empty() {
            return None;
        }
        let mark = mark_of(a, b, c);
        let mut place = self.place_of(mark);
        for _i in 0..PROBES {
            let word = self.word(place);
            if word == NO_FACT {
                return None;
            }
            if is_alike(word, mark) {
                let number = (word & LOWER) as usize;
                if let Some(digest) = self.at(number, a, b, c) {
                    return Some(digest);
                }
            }
            place = self.behind(place);
        }
        None
    }

    /// Adds a fact. Its only error is want of memory; which facts there are then is left open.
    pub(crate) fn add(&mut self, fact: Fact) -> Result<(), AllocError>
        ensures { (hash : Hash) → AreFacts hash self.old → IsFact hash fact → AreFacts hash self.new }
    {
        let place = self.free(fact.mark);
        let number = self.facts.len() as u64;
        if place < self.places.len() && number < LOWER {
            self.places[place] = word_of(fact.mark, number);
        }
        self.facts.push(fact)?;
        Ok(())
    }

    /// Hashes three parts, one behind the other, and adds that where they aren't too long. Its only error is want of
    /// memory.
    pub(crate) fn hash<H: Hash32>(
        &mut self,
        hash: &H,
        a: &[u8],
        b: &[u8],
        c: &[u8],
    ) -> Result<D32, AllocError>
        ensures { AreFacts (H.digest hash.now) self.old → AreFacts (H.digest hash.now) self.new }
    {
        if a.len() > MOST_OCTETS
            || b.len() > MOST_OCTETS - a.len()
            || c.len() > MOST_OCTETS - a.len() - b.len()
        {
            return Ok(hash.hash(a, b, c));
        }
        let fact = Fact::of(hash, a, b, c);
        let digest = fact.digest;
        self.add(fact)?;
        Ok(digest)
    }

    /// Hashes a string where it isn't too long, and adds that. Its only error is want of memory.
    pub(crate) fn note<H: Hash32>(&mut self, hash: &H, octets: &[u8]) -> Result<(), AllocError>
        ensures { AreFacts (H.digest hash.now) self.old → AreFacts (H.digest hash.now) self.new }
    {
        if octets.len() > MOST_OCTETS {
            return Ok(());
        }
        self.add(Fact::of(hash, octets, &[], &[]))
    }

    // What stands in a place; none has what is beyond all.
    fn word(&self, place: usize) -> u64 {
        match self.places.get(place) {
            Some(word) => *word,
            None => NO_FACT,
        }
    }

    // Where the fact of a mark is looked for first: as far on among the places as the lower half of the mark is among its
    // numbers.
    fn place_of(&self, mark: u64) -> usize {
        let places = self.places.len() as u64;
        ((mark & LOWER).wrapping_mul(places) >> 32) as usize
    }

    // The place that is looked at behind this one.
    fn behind(&self, place: usize) -> usize {
        let next = place.saturating_add(1);
        if next < self.places.len() { next } else { 0 }
    }

    // The first place without a fact, of those that are looked at for a mark; one beyond all where there is none, or a fact
    // with the same half of the mark comes before it.
    fn free(&self, mark: u64) -> usize {
        let mut place = self.place_of(mark);
        for _i in 0..PROBES {
            let word = self.word(place);
            if word == NO_FACT {
                return place;
            }
            if is_alike(word, mark) {
                break;
            }
            place = self.behind(place);
        }
        self.places.len()
    }
}
