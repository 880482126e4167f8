//! The last version of a key: looked up in an index of the keys, or read off the list of transactions from its end
//! back.

ghost use Rattle.std.specs.Prelude.{◌≡◌, ◌≤◌, ◌+◌, ◌*◌, ◌&&◌, ℕ, List, false, find, length, not, option_map, reverse, MatchOption};
ghost use Rattle.im_model.specs.declared.transactions.Transaction.{Transaction as TheTransaction};
ghost use Rattle.im_versions.specs.Versions.{all_versions, is_live, last_number};
ghost use Rattle.im_index.specs.Indexed.{IsIndexOf};
ghost use Rattle.im_index.specs.Runs.{HasDigits};
ghost use Rattle.im_book.specs.Lasts.{is_version_of};

use im_index::index::Index;
use im_index::steps::Steps;
use im_model::entries::Entry;
use im_model::transactions::Transaction;
use im_versions::entries::{is_deletion, is_shown};
use std::sync::ledger::Ledger;

/// The last version of a key: which transaction wrote it, and whether that deleted the key.
#[derive(Clone, Copy)]
pub(crate) struct Last {
    /// The number of the transaction, from 1.
    pub tx: u64,
    /// The key was deleted.
    pub deleted: bool,
}

/// The last version of a key in a history, or `None` where it has none. It looks at the entries from the
/// last one back to that version.
pub(crate) fn last_of(history: &[Transaction], key: &[u8]) -> Option<Last>
    ensures number { MatchOption result (last_number history.now key.now ≡ 0) (λ last. last_number history.now key.now ≡ last.tx) }
    ensures live { MatchOption result (is_live history.now key.now ≡ false) (λ last. is_live history.now key.now ≡ not last.deleted) }
{
    for k in (0..history.len()).rev() {
        let entries = history[k].entries.as_slice();
        if let Some(entry) = last_shown(entries, key) {
            return Some(Last {
                tx: k as u64 + 1,
                deleted: is_deletion(entry),
            });
        }
    }
    None
}

// The last of these entries that is a version of the key.
fn last_shown<'e>(entries: &'e [Entry], key: &[u8]) -> Option<&'e Entry>
    ensures { option_map (λ entry. entry.now) result ≡ find (λ entry. is_version_of entry key.now) (reverse entries.now) }
{
    entries.iter().rev().find(|entry| is_version_of(entry, key))
}

// Whether an entry is a version of this key.
fn is_version_of(entry: &Entry, key: &[u8]) -> bool
    ensures { result ≡ is_version_of entry.now key.now }
{
    is_shown(entry) && entry.key.as_slice() == key
}

/// The last version of a key in the history of an index, or `None` where it has none. It counts the comparisons of keys:
/// with b the number of binary digits of the number of versions, at most b * (b + 1).
pub(crate) fn last_in<L: Ledger>(index: &Index, key: &[u8], steps: &mut Steps<L>) -> Option<Last>
    requires { (history : List TheTransaction) × IsIndexOf index.now history }
    ensures number { (history : List TheTransaction) → IsIndexOf index.now history
        → MatchOption result (last_number history key.now ≡ 0) (λ last. last_number history key.now ≡ last.tx) }
    ensures live { (history : List TheTransaction) → IsIndexOf index.now history
        → MatchOption result (is_live history key.now ≡ false) (λ last. is_live history key.now ≡ not last.deleted) }
    ensures cost { (history : List TheTransaction) (b : ℕ) → IsIndexOf index.now history → HasDigits b (length (all_versions history))
        → steps.new ≤ steps.old + b * (b + 1) }
{
    match index.last_steps(key, steps) {
        Some(version) => Some(Last {
            tx: version.tx,
            deleted: version.deleted,
        }),
        None => None,
    }
}
