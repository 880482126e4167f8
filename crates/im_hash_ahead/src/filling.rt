ghost use Rattle.std.specs.Prelude.{All, IfOk};
ghost use Rattle.im_hash_ahead.specs.Facts.{AreFacts, IsKnown};

use crate::chunks::{LEAST_RECORDS, chunk_of};
use crate::facts::Facts;
use crate::near::near_facts;
use crate::plans::{Plan, Plans};
use crate::rows::Rows;
use crate::windows::Window;
use im_digest::{D32, Hash32};
use std::alloc::{AllocError, Global};
use std::mem;
use std::thread::{Threads, join_mut};

// The most leaves that join the tree at once: what is hashed of them is held, two facts a leaf.
const MOST_LEAVES: usize = 32_768;

/// Before the first window: what is hashed of the tree, which the leaves of the first plan join.
///
/// Its only error is want of memory, behind which `rows` are as `fill` may leave them.
pub fn begin<R: Threads + Sync, H: Hash32 + Sync>(
    rt: &R,
    alloc: Global,
    hash: &H,
    plan: &Plan,
    rows: &mut Rows,
) -> Result<Window, AllocError>
    ensures { IfOk result (λ window. IsKnown (H.digest hash.now) window) }
{
    let next = raised(rt, alloc, hash, plan.leaves.as_slice(), rows)?;
    let mut window = Window::empty(alloc);
    drop(mem::replace(&mut window.next, next));
    Ok(window)
}

/// A window with what is hashed, by several threads, of the records of a plan, whose leaves joined the tree before, and of the
/// tree, which the leaves of the plan behind it join meanwhile. `rows` have the leaves of the first plan, and behind the call those
/// of the second. A spent window is let go first. `log` is the transaction log, whole, in which the records lie.
///
/// Its only error is want of memory. Behind it, and where a chunk of leaves or nodes finds no memory, `rows` may have some of the
/// leaves and not the others, or lack nodes over them: then they aren't those of the leaves, and what is hashed with them is of less use.
pub fn fill<R: Threads + Sync, H: Hash32 + Sync>(
    rt: &R,
    alloc: Global,
    hash: &H,
    log: &[u8],
    plans: &Plans,
    spent: &mut Option<Window>,
    rows: &mut Rows,
) -> Result<Window, AllocError>
    ensures { IfOk result (λ window. IsKnown (H.digest hash.now) window) }
{
    drop(spent.take());
    let mut ahead = rows.rest(alloc)?;
    let leads = plans.filled.leads.as_slice();
    let size = chunk_of(rt, leads.len(), LEAST_RECORDS);
    let (near, next) = near_and_next(rt, alloc, hash, log, plans, size, rows, &mut ahead);
    drop(mem::replace(rows, ahead));
    match (near, next) {
        (Ok(near), Ok(next)) => Ok(Window::of(alloc, leads, size, near, next)),
        (Err(error), next) => {
            drop(next);
            Err(error)
        }
        (near, Err(error)) => {
            drop(near);
            Err(error)
        }
    }
}

// What is hashed of the records of the plan that is filled, in chunks of this size, over these rows, and of the tree as the leaves
// behind them join it, both at once. This thread starts those that hash records before it has work of its own.
fn near_and_next<R: Threads + Sync, H: Hash32 + Sync>(
    rt: &R,
    alloc: Global,
    hash: &H,
    log: &[u8],
    plans: &Plans,
    size: usize,
    rows: &Rows,
    ahead: &mut Rows,
) -> (Result<Vec<Facts>, AllocError>, Result<Facts, AllocError>)
    ensures near { IfOk result.0 (λ near. All (λ facts. AreFacts (H.digest hash.now) facts) near.items) }
    ensures next { IfOk result.1 (λ next. AreFacts (H.digest hash.now) next) }
{
    let plan = &plans.filled;
    let leaves = plans.behind.leaves.as_slice();
    let mut notes = || near_facts(rt, alloc, hash, log, plan, rows, size);
    let mut raises = || raised(rt, alloc, hash, leaves, ahead);
    let (next, near) = join_mut(rt, &mut raises, &mut notes);
    (near, next)
}

// Raises a tree by these leaves, and gives what is hashed of it. Where they are more than many, that is of the last of them
// alone.
fn raised<R: Threads + Sync, H: Hash32 + Sync>(
    rt: &R,
    alloc: Global,
    hash: &H,
    leaves: &[D32],
    rows: &mut Rows,
) -> Result<Facts, AllocError>
    ensures { IfOk result (λ far. AreFacts (H.digest hash.now) far) }
{
    let mut far = Facts::with_room(alloc, 0);
    for part in leaves.chunks(MOST_LEAVES) {
        drop(far);
        far = raised_once(rt, alloc, hash, part, rows)?;
    }
    Ok(far)
}

// The same of leaves that aren't more than many.
fn raised_once<R: Threads + Sync, H: Hash32 + Sync>(
    rt: &R,
    alloc: Global,
    hash: &H,
    leaves: &[D32],
    rows: &mut Rows,
) -> Result<Facts, AllocError>
    ensures { IfOk result (λ far. AreFacts (H.digest hash.now) far) }
{
    let rest = rows.rest(alloc)?;
    drop(mem::replace(rows, rest));
    let mut far = Facts::with_room(alloc, leaves.len().saturating_mul(2));
    match rows.raise(rt, alloc, hash, leaves, &mut far) {
        Ok(()) => Ok(far),
        Err(error) => {
            drop(far);
            Err(error)
        }
    }
}
