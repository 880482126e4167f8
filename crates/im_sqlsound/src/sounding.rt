//! Whether the live keys that begin with octet 00 are SQL's behind a transaction.

ghost use Rattle.std.specs.Prelude.{◌≡◌, ◌↔◌, ◌≤◌, ◌<◌, ◌+◌, ◌-◌, ℕ, List, [], ◌∷◌, length, take, IfOk, IsTrue};
ghost use Rattle.im_model.specs.declared.transactions.Transaction.{Transaction};
ghost use Rattle.im_versions.specs.Versions.{IsScan};
ghost use Rattle.im_sqlmodel.specs.Kept.{IsSqlSound};
ghost use Rattle.im_sqlsound.specs.Sounding as spec;

use crate::hanging::do_hang;
use crate::said::tables_found;
use crate::settled::is_settled;
use crate::stepping::is_step;
use im_versions::errors::ViewError;
use im_versions::versions::Version;
use im_versions::view::KvView;
use std::alloc::{AllocError, Global};

// Whether the live keys that begin with octet 00 are SQL's behind a transaction: `before` are the last versions of
// those that were live before it, when they were SQL's, `shown` of those that are live behind it, by rising key, and
// `changes` all versions of such keys up to it. It reads each key, and makes the entries of each row anew. Its only
// error is want of memory.
fn is_sound(
    alloc: Global,
    before: &[Version],
    shown: &[Version],
    changes: &[Version],
) -> Result<bool, AllocError>
    requires { (history : List Transaction) × (k : ℕ) × (k < length history) × IsSqlSound (take k history) × IsScan (take k history) (0 ∷ []) before.now
        × IsScan (take (k + 1) history) (0 ∷ []) shown.now × spec.AreByNumber (take (k + 1) history) changes.now }
    ensures { (history : List Transaction) (k : ℕ) → k < length history → IsSqlSound (take k history) → IsScan (take k history) (0 ∷ []) before.now
        → IsScan (take (k + 1) history) (0 ∷ []) shown.now → spec.AreByNumber (take (k + 1) history) changes.now
        → IfOk result (λ sound. IsTrue sound ↔ IsSqlSound (take (k + 1) history)) }
{
    if !is_settled(before, shown) {
        return Ok(false);
    }
    let Some(tables) = tables_found(alloc, shown)? else {
        return Ok(false);
    };
    let sound = do_hang(alloc, shown, changes, tables.as_slice());
    drop(tables);
    sound
}

// The same by two scans of a view.
fn is_sound_whole<V: KvView>(
    alloc: Global,
    view: &V,
    changes: &[Version],
    tx: u64,
) -> Result<bool, ViewError>
    requires { (history : List Transaction) × V.stands view.now history × (1 ≤ tx) × (tx ≤ length history) × IsSqlSound (take (tx - 1) history)
        × spec.AreByNumber (take tx history) changes.now }
    ensures { (history : List Transaction) → V.stands view.now history → 1 ≤ tx → tx ≤ length history → IsSqlSound (take (tx - 1) history)
        → spec.AreByNumber (take tx history) changes.now → IfOk result (λ sound. IsTrue sound ↔ IsSqlSound (take tx history)) }
{
    let before = view.scan(alloc, &[0], tx - 1)?;
    let shown = view.scan(alloc, &[0], tx)?;
    let sound = is_sound(alloc, before.as_slice(), shown.as_slice(), changes)?;
    drop(before);
    drop(shown);
    Ok(sound)
}

/// Whether the keys that begin with octet 00 are SQL's behind transaction `tx`, when they were SQL's before it.
/// `changes` are all versions of such keys up to it, by rising transactions. Where the transaction's own keys say so,
/// as those that a statement writes into a table that was there, no other row is read; else all live keys are read and
/// judged together. Its only error is want of memory.
pub(crate) fn is_sound_behind<V: KvView>(
    alloc: Global,
    view: &V,
    changes: &[Version],
    tx: u64,
) -> Result<bool, ViewError>
    requires { (history : List Transaction) × V.stands view.now history × (1 ≤ tx) × (tx ≤ length history) × IsSqlSound (take (tx - 1) history)
        × spec.AreByNumber (take tx history) changes.now }
    ensures { (history : List Transaction) → V.stands view.now history → 1 ≤ tx → tx ≤ length history → IsSqlSound (take (tx - 1) history)
        → spec.AreByNumber (take tx history) changes.now → IfOk result (λ sound. IsTrue sound ↔ IsSqlSound (take tx history)) }
{
    let step = is_step(alloc, view, changes, tx)?;
    if step {
        return Ok(true);
    }
    is_sound_whole(alloc, view, changes, tx)
}
