ghost use Rattle.std.specs.Prelude.{All, IfOk};
ghost use Rattle.im_digest.specs.Digests.{Hash};
ghost use Rattle.im_hash_ahead.specs.Facts.{AreFacts};

use crate::chunks::hands;
use crate::facts::Facts;
use crate::leads::Lead;
use crate::notes::notes_of;
use crate::plans::Plan;
use crate::rows::Rows;
use im_digest::Hash32;
use std::alloc::{AllocError, Global};
use std::mem;
use std::sync::atomic::{AtomicUsize, Ordering};
use std::thread::{Threads, map_indices};

// How many threads there are for each processor. With one for each, a processor is idle where two threads share another: the
// system may move neither of them for as long as a window takes.
const THREADS: usize = 2;

// What is hashed of the records of a chunk, and the number of the chunk, from 0.
#[derive(Drop)]
struct NearPart {
    number: usize,
    facts: Facts,
}

/// What is hashed of the records of a plan, in chunks of this size, by `notes_of` of each chunk: by two threads for each processor, and no
/// more than there are chunks, of which each takes the next chunk as soon as it is done with one. So all are done at about the same
/// time, however much of its time a processor has for them. Its only error is want of memory; where a thread finds none, less is
/// hashed of its chunk, or nothing, and it may take no more.
pub(crate) fn near_facts<R: Threads + Sync, H: Hash32 + Sync>(
    rt: &R,
    alloc: Global,
    hash: &H,
    log: &[u8],
    plan: &Plan,
    rows: &Rows,
    size: usize,
) -> Result<Vec<Facts>, AllocError>
    ensures { IfOk result (λ near. All (λ facts. AreFacts (H.digest hash.now) facts) near.items) }
{
    let size = size.max(1);
    let mut near = no_facts(alloc, plan.leads.len().div_ceil(size))?;
    let threads = hands(rt).saturating_mul(THREADS).min(near.len());
    let next = AtomicUsize::new(0);
    match map_indices(
        rt,
        alloc,
        threads,
        &|_| parts_in_turn(alloc, hash, log, plan, rows, size, &next),
    ) {
        Ok(lists) => {
            place_each(lists, &mut near);
            Ok(near)
        }
        Err(error) => {
            drop(near);
            Err(error)
        }
    }
}

// So many times no facts. Its only error is want of memory.
fn no_facts(alloc: Global, count: usize) -> Result<Vec<Facts>, AllocError>
    ensures { (hash : Hash) → IfOk result (λ near. All (λ facts. AreFacts hash facts) near.items) }
{
    let mut near = Vec::with_capacity(alloc, count)?;
    for _i in 0..count {
        near.push(Facts::with_room(alloc, 0))?;
    }
    Ok(near)
}

// What one thread hashes: of the chunk that has the next number, as long as there is one, and memory. No chunk is without a record.
fn parts_in_turn<H: Hash32>(
    alloc: Global,
    hash: &H,
    log: &[u8],
    plan: &Plan,
    rows: &Rows,
    size: usize,
    next: &AtomicUsize,
) -> Vec<NearPart>
    ensures { All (λ part. AreFacts (H.digest hash.now) part.facts) result.items }
{
    let leads = plan.leads.as_slice();
    let mut parts = Vec::new(alloc);
    for _i in 0..leads.len() {
        let number = next.fetch_add(1, Ordering::SeqCst);
        let Some(chunk) = chunk_at(leads, size, number) else {
            break;
        };
        let facts = notes_of(alloc, hash, log, &plan.values, rows, chunk);
        if let Err(full) = parts.push(NearPart { number, facts }) {
            drop(full);
            break;
        }
    }
    parts
}

// The chunk of this number, where it has a record.
fn chunk_at(leads: &[Lead], size: usize, number: usize) -> Option<&[Lead]> {
    let start = number.checked_mul(size)?;
    if start >= leads.len() {
        return None;
    }
    let (_, rest) = leads.split_at(start);
    let (chunk, _) = rest.split_at(size.min(rest.len()));
    Some(chunk)
}

// Puts the facts of all parts at the places of their numbers.
fn place_each(lists: Vec<Vec<NearPart>>, near: &mut Vec<Facts>)
    ensures { (hash : Hash) → All (λ parts. All (λ part. AreFacts hash part.facts) parts.items) lists.items
        → All (λ facts. AreFacts hash facts) near.old.items → All (λ facts. AreFacts hash facts) near.new.items }
{
    for parts in lists {
        place(parts, near);
    }
}

// The same of the parts of one thread.
fn place(parts: Vec<NearPart>, near: &mut Vec<Facts>)
    ensures { (hash : Hash) → All (λ part. AreFacts hash part.facts) parts.items
        → All (λ facts. AreFacts hash facts) near.old.items → All (λ facts. AreFacts hash facts) near.new.items }
{
    for part in parts {
        let NearPart { number, facts } = part;
        if number < near.len() {
            drop(mem::replace(&mut near[number], facts));
        } else {
            drop(facts);
        }
    }
}
