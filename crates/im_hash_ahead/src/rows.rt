use crate::chunks::{leaf_facts, pair_facts};
use crate::facts::{Fact, Facts};
use im_digest::{D32, Hash32};
use std::alloc::{AllocError, Global};
use std::thread::Threads;

// The most levels of a tree whose leaves are counted in 64 bits.
const MOST_LEVELS: usize = 64;

/// Digests of subtrees of one size beside each other, and the number of the first, from 0, which is even.
#[derive(Drop)]
struct Row {
    first: u64,
    digests: Vec<D32>,
}

impl Row {
    // The digest of the subtree of this number, where it is among them.
    fn at(&self, number: u64) -> Option<D32> {
        let index = number.checked_sub(self.first)?;
        self.digests.get(index as usize).copied()
    }

    // What later pairs are made of: the last digest, where its number is even, and so the first of a pair; else none. Its only error
    // is want of memory.
    fn rest(&self, alloc: Global) -> Result<Row, AllocError> {
        let count = self.digests.len();
        let kept = count % 2;
        let mut digests = Vec::new(alloc);
        if kept == 1 {
            digests.push(self.digests[count - 1])?;
        }
        let first = self.first.saturating_add((count - kept) as u64);
        Ok(Row { first, digests })
    }
}

/// Digests of the whole subtrees of some leaves beside each other, by their levels from the leaves up, and of those before
/// that a root over the leaves up to one of these is made of. Nothing rests on them, as nothing rests on `Lead`.
#[derive(Drop)]
pub struct Rows {
    rows: Vec<Row>,
}

impl Rows {
    ghost use Rattle.std.specs.Prelude.{◌<◌, All, OnOk};
    ghost use Rattle.im_digest.specs.Digests.{Hash};
    ghost use Rattle.im_hash_ahead.specs.Facts.{AreFacts};

    /// Those of no leaves. It takes no memory.
    pub fn new(alloc: Global) -> Self {
        Rows {
            rows: Vec::new(alloc),
        }
    }

    /// The number of levels.
    pub(crate) fn levels(&self) -> usize {
        self.rows.len()
    }

    /// The digest of a level's subtree of this number, from 0, where it is there.
    pub(crate) fn at(&self, level: usize, number: u64) -> Option<D32> {
        self.rows.get(level)?.at(number)
    }

    /// What the next leaves' subtrees and roots are made of: one digest of each level at most. Its only error is want of memory.
    pub(crate) fn rest(&self, alloc: Global) -> Result<Rows, AllocError> {
        let mut rows = Vec::with_capacity(alloc, self.rows.len())?;
        for row in &self.rows {
            rows.push(row.rest(alloc)?)?;
        }
        Ok(Rows { rows })
    }

    /// Adds leaves behind all others, and hashes each, and a node for each pair, once, by several threads where they are many. The
    /// facts join `far`. Its only error is want of memory.
    pub(crate) fn raise<R: Threads + Sync, H: Hash32 + Sync>(
        &mut self,
        rt: &R,
        alloc: Global,
        hash: &H,
        leaves: &[D32],
        far: &mut Facts,
    ) -> Result<(), AllocError>
        ensures { AreFacts (H.digest hash.now) far.old → OnOk result (AreFacts (H.digest hash.now) far.new) }
    {
        let parts = leaf_facts(rt, alloc, hash, leaves)?;
        self.add(alloc, 0, parts, far)?;
        for level in 0..MOST_LEVELS {
            if !self.pair(rt, alloc, hash, level, far)? {
                break;
            }
        }
        Ok(())
    }

    // Hashes a node for each pair of a level, which join the level above; whether there is a pair.
    fn pair<R: Threads + Sync, H: Hash32 + Sync>(
        &mut self,
        rt: &R,
        alloc: Global,
        hash: &H,
        level: usize,
        far: &mut Facts,
    ) -> Result<bool, AllocError>
        requires { level < 64 }
        ensures { AreFacts (H.digest hash.now) far.old → OnOk result (AreFacts (H.digest hash.now) far.new) }
    {
        let Some(row) = self.rows.get(level) else {
            return Ok(false);
        };
        if row.digests.len() < 2 {
            return Ok(false);
        }
        let parts = pair_facts(rt, alloc, hash, row.digests.as_slice())?;
        self.add(alloc, level + 1, parts, far)?;
        Ok(true)
    }

    // Adds the digests of all parts to a level, and their facts to `far`.
    fn add(
        &mut self,
        alloc: Global,
        level: usize,
        parts: Vec<Vec<Fact>>,
        far: &mut Facts,
    ) -> Result<(), AllocError>
        ensures { (hash : Hash) → All (λ facts. AreFacts hash facts.items) parts.items → AreFacts hash far.old
            → OnOk result (AreFacts hash far.new) }
    {
        if level >= self.rows.len() {
            self.rows.push(Row {
                first: 0,
                digests: Vec::new(alloc),
            })?;
        }
        for part in parts {
            self.add_part(level, part, far)?;
        }
        Ok(())
    }

    // The same of one part.
    fn add_part(&mut self, level: usize, part: Vec<Fact>, far: &mut Facts) -> Result<(), AllocError>
        ensures { (hash : Hash) → AreFacts hash part.items → AreFacts hash far.old → OnOk result (AreFacts hash far.new) }
    {
        for fact in part {
            if level < self.rows.len() {
                self.rows[level].digests.push(fact.digest)?;
            }
            far.add(fact)?;
        }
        Ok(())
    }
}
