ghost use Rattle.std.specs.Prelude.{◌≡◌, length, IfOk};
ghost use Rattle.im_core.specs.Cores.{IsCore};
ghost use Rattle.im_machine.specs.Machines.{start, Machine};
ghost use Rattle.im_machine.specs.Runs.{Run};

use crate::cores::{Core, begin, step};
use im_digest::Hash32;
use im_machine::events::Event;
use im_machine::outputs::Output;
use std::alloc::{AllocError, Global};

/// Runs events, one after the other, over a book, a tree, an index and a journal on a disk in memory, and gives what each is
/// answered. It begins as behind the opening of empty files, with one value log.
///
/// What it answers is the machine's for every list: an event that isn't allowed where it stands is answered `NotAllowed` and
/// changes nothing, and no other event is.
///
/// It keeps each call of the disk until the next crash, so it is for lists that a test or a proof is about. A placing costs what
/// `Book::place` and the root of the tree cost; the first piece of a batch copies and hashes its values; a crash compares its
/// image once; an opening costs what `im_opening::opening::open` does.
///
/// # Errors
///
/// Want of memory alone; then nothing is answered. A disk in memory fails just where it is told to: if it ever answered otherwise,
/// the run would end so too.
pub fn run_events<H: Hash32>(
    alloc: Global,
    hash: &H,
    events: &[Event],
) -> Result<Vec<Output>, AllocError>
    ensures run { IfOk result (λ outputs. (end : Machine) × Run (H.digest hash.now) start events.now outputs.items end) }
    ensures one_each { IfOk result (λ outputs. length outputs.items ≡ length events.now) }
{
    let mut core = begin(alloc, hash)?;
    let outputs = run_on(alloc, hash, &mut core, events);
    drop(core);
    outputs
}

// Runs events on what is had of the machine.
fn run_on<H: Hash32>(
    alloc: Global,
    hash: &H,
    core: &mut Core,
    events: &[Event],
) -> Result<Vec<Output>, AllocError>
    requires { (m : Machine) × IsCore (H.digest hash.now) core.old m }
    ensures run { (m : Machine) → IsCore (H.digest hash.now) core.old m → IfOk result (λ outputs. (end : Machine) × Run (H.digest hash.now) m events.now outputs.items end) }
    ensures one_each { IfOk result (λ outputs. length outputs.items ≡ length events.now) }
{
    let mut outputs = Vec::with_capacity(alloc, events.len())?;
    for event in events {
        let output = step(core, alloc, hash, event)?;
        outputs.push(output)?;
    }
    Ok(outputs)
}
