ghost use Rattle.std.specs.Prelude.{◌≡◌, ◌≤◌, ◌<◌, length, IfOk, All};
ghost use Rattle.im_hash_ahead.specs.Facts.{AreFacts};

use crate::facts::Fact;
use crate::room::room_for;
use im_digest::{D32, Hash32};
use std::alloc::{AllocError, Global};
use std::thread::{Threads, available_parallelism, map_chunks};

/// The fewest records that are worth a chunk of their own.
pub(crate) const LEAST_RECORDS: usize = 16;

// And the fewest digests, each of which is hashed once: the leaves of a window, 16,384 at most where no more are linked than it has
// records, are raised by one thread, while others hash the records of the window before.
const LEAST_DIGESTS: usize = 16_384;

// How many chunks there are for each processor at most: enough that none waits long for the last.
const SHARES: usize = 64;

/// How many processors there are.
pub(crate) fn hands<R: Threads>(rt: &R) -> usize {
    match available_parallelism(rt) {
        Ok(hands) => hands.get(),
        Err(_) => 1,
    }
}

/// The size of the chunks that `count` items are cut into, an even number, so that as many processors as may be have some: each
/// chunk but the last has at least `least`, and all items are in one where they are fewer than twice that.
pub(crate) fn chunk_of<R: Threads>(rt: &R, count: usize, least: usize) -> usize
    ensures { 0 < result }
{
    let most = count / least.max(1);
    let parts = match most {
        0 | 1 => 1,
        _ => most.min(hands(rt).saturating_mul(SHARES)).max(1),
    };
    (count / parts / 2).saturating_mul(2).saturating_add(2)
}

/// The leaf of each digest, hashed in chunks by several threads. Its only error is want of memory; where a chunk finds none,
/// leaves are missing.
pub(crate) fn leaf_facts<R: Threads + Sync, H: Hash32 + Sync>(
    rt: &R,
    alloc: Global,
    hash: &H,
    leaves: &[D32],
) -> Result<Vec<Vec<Fact>>, AllocError>
    ensures { IfOk result (λ parts. All (λ facts. AreFacts (H.digest hash.now) facts.items) parts.items) }
{
    let size = chunk_of(rt, leaves.len(), LEAST_DIGESTS);
    map_chunks(
        rt,
        alloc,
        leaves,
        size,
        &|_, part| leaves_in(alloc, hash, part),
    )
}

/// The node of each pair, of the first and the second, the third and the fourth, and so on, hashed in chunks by several
/// threads. Its only error is want of memory; where a chunk finds none, nodes are missing.
pub(crate) fn pair_facts<R: Threads + Sync, H: Hash32 + Sync>(
    rt: &R,
    alloc: Global,
    hash: &H,
    row: &[D32],
) -> Result<Vec<Vec<Fact>>, AllocError>
    ensures { IfOk result (λ parts. All (λ facts. AreFacts (H.digest hash.now) facts.items) parts.items) }
{
    let size = chunk_of(rt, row.len(), LEAST_DIGESTS);
    map_chunks(rt, alloc, row, size, &|_, part| pairs_in(alloc, hash, part))
}

// The leaf of each digest of a chunk, as far as there is memory.
fn leaves_in<H: Hash32>(alloc: Global, hash: &H, leaves: &[D32]) -> Vec<Fact>
    ensures { AreFacts (H.digest hash.now) result.items }
{
    let mut facts = room_for(alloc, leaves.len());
    for leaf in leaves {
        if let Err(full) = facts.push(Fact::of(hash, &[0], leaf, &[])) {
            drop(full);
            break;
        }
    }
    facts
}

// The node of each pair of a chunk, as far as there is memory.
fn pairs_in<H: Hash32>(alloc: Global, hash: &H, row: &[D32]) -> Vec<Fact>
    ensures { AreFacts (H.digest hash.now) result.items }
{
    let count = row.len() / 2;
    let mut facts = room_for(alloc, count);
    for k in 0..count {
        if let Err(full) = facts.push(Fact::of(hash, &[1], &row[2 * k], &row[2 * k + 1])) {
            drop(full);
            break;
        }
    }
    facts
}
