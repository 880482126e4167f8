//! What is live of the keys that a transaction writes.

ghost use Rattle.std.specs.Prelude.{◌≡◌, ◌≤◌, ◌++◌, List, length, take, Some, OnOk};
ghost use Rattle.im_model.specs.declared.transactions.Transaction.{Transaction};
ghost use Rattle.im_sqlsound.specs.Stepping as spec;

use im_versions::errors::ViewError;
use im_versions::versions::Version;
use im_versions::view::KvView;
use std::alloc::{AllocError, Global};

// Adds a last version, where it isn't a deletion.
fn push_last(live: &mut Vec<Version>, last: Version) -> Result<(), AllocError>
    ensures { OnOk result (live.new.items ≡ live.old.items ++ spec.live_last (Some last)) }
{
    if last.deleted {
        drop(last);
        return Ok(());
    }
    live.push(last)?;
    Ok(())
}

// Adds the live version of another's key after the first `n` transactions, where that begins with a front.
fn push_live<V: KvView>(
    alloc: Global,
    view: &V,
    live: &mut Vec<Version>,
    version: &Version,
    front: &[u8],
    n: u64,
) -> Result<(), ViewError>
    requires { (history : List Transaction) × V.stands view.now history × (n ≤ length history) }
    ensures { (history : List Transaction) → V.stands view.now history → n ≤ length history
        → OnOk result (live.new.items ≡ live.old.items ++ spec.live_of (take n history) front.now version.now) }
{
    let key = version.key.as_slice();
    if !key.starts_with(front) {
        return Ok(());
    }
    match view.get(alloc, key, n)? {
        Some(last) => {
            push_last(live, last)?;
            Ok(())
        }
        None => Ok(()),
    }
}

/// Adds the live versions after the first `n` transactions of the keys that versions have and that begin with a front,
/// by a `get` for each. Its only error is want of memory.
pub(crate) fn push_own<V: KvView>(
    alloc: Global,
    view: &V,
    live: &mut Vec<Version>,
    own: &[Version],
    front: &[u8],
    n: u64,
) -> Result<(), ViewError>
    requires { (history : List Transaction) × V.stands view.now history × (n ≤ length history) }
    ensures { (history : List Transaction) → V.stands view.now history → n ≤ length history
        → OnOk result (live.new.items ≡ live.old.items ++ spec.live_own (take n history) front.now own.now) }
{
    for version in own {
        push_live(alloc, view, live, version, front, n)?;
    }
    Ok(())
}
