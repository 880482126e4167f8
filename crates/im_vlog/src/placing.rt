ghost use Rattle.std.specs.Prelude.{◌≡◌, ◌<◌, ◌≤◌, ◌+◌, ◌^◌, ◌++◌, List, length, slice_index_or, slice_set, IfOk, OnErr};
ghost use Rattle.im_format.specs.Places.{AreAppended};
ghost use Rattle.im_format.specs.Records.{AreReferences};
ghost use Rattle.im_format.specs.declared.references.ValueRef.{ValueRef};
ghost use Rattle.im_vlog.specs.Ends.{reference_of, AreEnds, HaveRoom};

use im_digest::Hash32;
use im_format::references::{Refs, ValueRef};
use im_model::entries::Entry;
use std::alloc::{AllocError, Global};

/// The reference of a value that lies at the place `at` of a value log. One hash, and no memory.
pub fn reference<H: Hash32>(hash: &H, value: &[u8], log: u8, at: u64) -> ValueRef
    requires { length value.now < 2 ^ 32 }
    ensures { result ≡ reference_of (H.digest hash.now) value.now log at }
{
    ValueRef {
        hval: hash.hash(value, &[], &[]),
        len: value.len() as u32,
        log,
        at,
    }
}

/// Places the values of transaction `id` behind the ends of `logs` value logs: value i goes to log
/// `(id + i) mod logs`, at that log's end, and moves that end on by its length. Gives their references, in
/// order. One hash a value, and room for the references; values aren't copied. Its only error is want of memory;
/// then the ends are as they were.
pub fn append_values<H: Hash32>(
    alloc: Global,
    hash: &H,
    logs: u8,
    id: u64,
    ends: &mut [u64; 4],
    entries: &[Entry],
) -> Result<Refs, AllocError>
    requires logs { (1 ≤ logs) × (logs ≤ 4) }
    requires id { (1 ≤ id) × (id ≤ 2 ^ 20) }
    requires few { length entries.now ≤ 1024 }
    requires room { HaveRoom id ends.old }
    ensures appended { (before : List ValueRef) → AreEnds ends.old before
        → IfOk result (λ refs. AreAppended logs id 0 before refs) }
    ensures references { IfOk result (λ refs. AreReferences (H.digest hash.now) id entries.now refs) }
    ensures ends { (before : List ValueRef) → AreEnds ends.old before
        → IfOk result (λ refs. AreEnds ends.new (before ++ refs)) }
    ensures room { HaveRoom (id + 1) ends.new }
    ensures err { OnErr result (ends.new ≡ ends.old) }
{
    let mut next = *ends;
    let mut refs = Vec::with_capacity(alloc, entries.len())?;
    for (i, entry) in entries.iter().enumerate() {
        let log = ((id + i as u64) % u64::from(logs)) as u8;
        refs.push(append_value(hash, log, &mut next, entry.value.as_slice()))?;
    }
    *ends = next;
    Ok(Refs::from_vec(refs))
}

// Places a value at the end of a log, which it moves on.
fn append_value<H: Hash32>(hash: &H, log: u8, ends: &mut [u64; 4], value: &[u8]) -> ValueRef
    requires log { log < 4 }
    requires value { length value.now ≤ 4096 }
    requires room { slice_index_or ends.old log 0 < 2 ^ 62 }
    ensures reference { result ≡ reference_of (H.digest hash.now) value.now log (slice_index_or ends.old log 0) }
    ensures ends { ends.new ≡ slice_set ends.old log (slice_index_or ends.old log 0 + length value.now) }
{
    let end = &mut ends[usize::from(log)];
    let placed = reference(hash, value, log, *end);
    *end += u64::from(placed.len);
    placed
}
