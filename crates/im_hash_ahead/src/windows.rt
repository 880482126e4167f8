ghost use Rattle.im_digest.specs.Digests.{Hash};
ghost use Rattle.im_hash_ahead.specs.Facts.{AreFacts, IsKnown};

use crate::facts::Facts;
use crate::leads::Lead;
use std::alloc::Global;
use std::mem;

/// What was hashed ahead, of records that follow each other and of the tree over them.
#[derive(Drop)]
pub struct Window {
    /// How many records are before the first.
    pub first: u64,
    /// How many records are before the first behind them; all, where nothing is hashed ahead any more.
    pub until: u64,
    /// How many of them are in a chunk.
    pub size: u64,
    /// What is hashed of the records of each chunk alone.
    pub near: Vec<Facts>,
    /// What is hashed of the tree over their Alh.
    pub far: Facts,
    /// What is hashed of the tree over the Alh of the records behind them.
    pub next: Facts,
}

impl Window {
    ghost use Rattle.std.specs.Prelude.{All};
    ghost use Rattle.im_digest.specs.Digests.{Hash};
    ghost use Rattle.im_hash_ahead.specs.Facts.{AreFacts, IsKnown};

    /// One that has nothing, before the first record. It takes no memory.
    pub fn empty(alloc: Global) -> Self
        ensures { (hash : Hash) → IsKnown hash result }
    {
        Window {
            first: 0,
            until: 0,
            size: 1,
            near: Vec::new(alloc),
            far: Facts::with_room(alloc, 0),
            next: Facts::with_room(alloc, 0),
        }
    }

    /// One that has this of these records, in chunks of this size, and this of the tree over the Alh of those behind them. It
    /// has nothing yet of the tree over their own.
    pub(crate) fn of(
        alloc: Global,
        leads: &[Lead],
        size: usize,
        near: Vec<Facts>,
        next: Facts,
    ) -> Self
        ensures { (hash : Hash) → All (λ facts. AreFacts hash facts) near.items → AreFacts hash next → IsKnown hash result }
    {
        let first = match leads.first() {
            Some(lead) => lead.id.saturating_sub(1),
            None => 0,
        };
        let until = match leads.last() {
            Some(lead) => lead.id,
            None => u64::MAX,
        };
        Window {
            first,
            until,
            size: size as u64,
            near,
            far: Facts::with_room(alloc, 0),
            next,
        }
    }

    /// Takes what the window before has of the tree over the Alh of these records.
    pub fn follow(&mut self, before: &mut Window)
        ensures { (hash : Hash) → IsKnown hash self.old → IsKnown hash before.old → IsKnown hash self.new }
    {
        mem::swap(&mut self.far, &mut before.next);
    }

    /// What was hashed of the record behind so many.
    pub fn near_of(&self, before: u64) -> &Facts
        ensures { (hash : Hash) → IsKnown hash self.now → AreFacts hash result.now }
    {
        let chunk = before.saturating_sub(self.first) / self.size.max(1);
        match self.near.get(chunk as usize) {
            Some(facts) => facts,
            None => &self.far,
        }
    }
}
