//! Whether the keys of a view that begin with octet 00 are SQL's.

ghost use Rattle.std.specs.Prelude.{◌≡◌, ◌≢◌, ◌≤◌, ◌<◌, ◌↔◌, ℕ, List, length, take, slice_index_or, OnOk, IsTrue};
ghost use Rattle.im_model.specs.declared.transactions.Transaction.{Transaction};
ghost use Rattle.im_versions.specs.declared.versions.Version.{Version as TheVersion};
ghost use Rattle.std.specs.Ordering.{nat_cmp};
ghost use Rattle.im_sqlmodel.specs.Kept.{IsSqlKept, IsFirstUnsound};
ghost use Rattle.im_sqlmodel.specs.Sorts.{sorted};
ghost use Rattle.im_sqlmodel.specs.declared.answers.KeptError.TheVariants as error;

use crate::sounding::is_sound_behind;
use im_sqlmodel::answers::KeptError;
use im_versions::changes::ChangesView;
use im_versions::versions::Version;
use std::alloc::{AllocError, Global};

/// Whether the keys that begin with octet 00 are SQL's after each of the first `n` transactions: what
/// docs/SQL.md says of them holds of those that are live, and no table or index changed once it was live. It asks the
/// view for one `changes`, sorted by transaction.
///
/// # Steps
///
/// A transaction that has such a version is judged by its own keys where these say enough, as of each that a statement
/// places to insert, change or delete rows. It reads the catalogue twice, by a `scan` of the tables and one of each
/// table's indexes; it reads what stood and stands under its keys, by at most two `get`s for each, which it compares
/// with the fronts of all tables; and it makes anew, and sorts, the entries that the rows under them gave and give. No
/// other row is read. Behind any other transaction, as one that makes a table or an index, it reads all live keys by
/// two `scan`s more, and makes anew the entries of all rows.
///
/// # Errors
///
/// `NotKept` with the first transaction after which they aren't. `Memory` where memory runs out.
pub fn kept<V: ChangesView>(alloc: Global, view: &V, n: u64) -> Result<(), KeptError>
    requires { (history : List Transaction) × V.stands view.now history × (n ≤ length history) }
    ensures kept { (history : List Transaction) → V.stands view.now history → n ≤ length history → OnOk result (IsSqlKept (take n history)) }
    ensures not_kept { (history : List Transaction) → V.stands view.now history → n ≤ length history
        → (tx : ℕ) → result ≡ Err (error.NotKept tx) → IsFirstUnsound (take n history) tx }
{
    let mut changes = view.changes(alloc, &[0], n)?.into_vec();
    sort_by_number(&mut changes)?;
    let all = changes.as_slice();
    let mut at = 0;
    while at < all.len() {
        let tx = all[at].tx;
        let end = end_of(all, at);
        let sound = is_sound_behind(alloc, view, &all[..end], tx)?;
        if !sound {
            return Err(KeptError::NotKept { tx });
        }
        at = end;
    }
    Ok(())
}

// Sorts versions by the numbers of their transactions. Those of one transaction stay as they stood.
fn sort_by_number(changes: &mut Vec<Version>) -> Result<(), AllocError>
    ensures { OnOk result (changes.new.items ≡ sorted (λ a b. nat_cmp a.tx b.tx) changes.old.items) }
{
    changes.sort_by(|a, b| a.tx.cmp(&b.tx))
}

// The place behind the versions that have the transaction of the one at a place.
fn end_of(changes: &[Version], at: usize) -> usize
    requires { at < length changes.now }
    ensures after { at < result }
    ensures within { result ≤ length changes.now }
    ensures same { (k : ℕ) (d : TheVersion) → at ≤ k → k < result → (slice_index_or changes.now k d).tx ≡ (slice_index_or changes.now at d).tx }
    ensures next { (d : TheVersion) → result < length changes.now → (slice_index_or changes.now result d).tx ≢ (slice_index_or changes.now at d).tx }
{
    let tx = changes[at].tx;
    for end in at + 1..changes.len() {
        if !is_of(&changes[end], tx) {
            return end;
        }
    }
    changes.len()
}

fn is_of(version: &Version, tx: u64) -> bool
    ensures { IsTrue result ↔ (version.now.tx ≡ tx) }
{
    version.tx == tx
}
