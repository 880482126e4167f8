//! Replies that are read off a view of the keys, after a number of transactions that is named or after all of them.

ghost use Rattle.std.specs.Prelude.{◌≡◌, ◌<◌, ◌≤◌, ℕ, List, length, unwrap_or, IfNone, IfOk, IfSome, Some};
ghost use Rattle.im_index.specs.Indexed.{IsSnapshotOf};
ghost use Rattle.im_model.specs.declared.transactions.Transaction.{Transaction};
ghost use Rattle.im_report.specs.Reads.{IsGetAnswer, IsHistoryAnswer, IsReadAt, IsScanAnswer};
ghost use Rattle.im_report.specs.Replies.{beyond_reply};

use im_index::snapshot::Snapshot;
use im_report::reads::{history_text, scan_text, value_text};
use im_report::replies::beyond_text;
use im_versions::errors::ViewError;
use im_versions::view::KvView;
use std::alloc::{AllocError, Global};

// Want of memory is the only error of a view.
fn in_memory(_: ViewError) -> AllocError {
    AllocError
}

// The reply to a number beyond the last transaction, or `None` where it isn't.
fn refused_beyond(alloc: Global, count: u64, at: Option<u64>) -> Result<Option<Vec<u8>>, AllocError>
    ensures refused { IfOk result (λ refused. IfSome refused (λ reply. (n : ℕ) × (at ≡ Some n) × (count < n) × (reply.items ≡ beyond_reply count))) }
    ensures taken { IfOk result (λ refused. IfNone refused (unwrap_or at count ≤ count)) }
{
    match at {
        Some(n) if count < n => Ok(Some(beyond_text(alloc, count)?)),
        _ => Ok(None),
    }
}

/// The reply to `get`, over a view of so many transactions.
pub fn get_text<V: KvView>(
    alloc: Global,
    view: &V,
    count: u64,
    key: &[u8],
    at: Option<u64>,
) -> Result<Vec<u8>, AllocError>
    requires { (history : List Transaction) × V.stands view.now history × (count ≡ length history) }
    ensures { (history : List Transaction) → V.stands view.now history → count ≡ length history → IfOk result (λ reply. IsReadAt history at (IsGetAnswer key.now) reply.items) }
{
    if let Some(refused) = refused_beyond(alloc, count, at)? {
        return Ok(refused);
    }
    let version = view
        .get(alloc, key, at.unwrap_or(count))
        .map_err(in_memory)?;
    value_text(alloc, version.as_ref())
}

/// The reply to `scan`, over a snapshot of so many transactions.
pub fn scan_shown(
    alloc: Global,
    keys: &Snapshot,
    count: u64,
    prefix: &[u8],
    at: Option<u64>,
) -> Result<Vec<u8>, AllocError>
    requires { (history : List Transaction) × IsSnapshotOf keys.now history × (count ≡ length history) }
    ensures { (history : List Transaction) → IsSnapshotOf keys.now history → count ≡ length history → IfOk result (λ reply. IsReadAt history at (IsScanAnswer prefix.now) reply.items) }
{
    if let Some(refused) = refused_beyond(alloc, count, at)? {
        return Ok(refused);
    }
    let shown = keys
        .scan_lent(alloc, prefix, at.unwrap_or(count))
        .map_err(in_memory)?;
    scan_text(alloc, shown.as_slice())
}

/// The reply to `history`, over a view of so many transactions.
pub fn history_shown<V: KvView>(
    alloc: Global,
    view: &V,
    count: u64,
    key: &[u8],
) -> Result<Vec<u8>, AllocError>
    requires { (history : List Transaction) × V.stands view.now history × (count ≡ length history) }
    ensures { (history : List Transaction) → V.stands view.now history → count ≡ length history → IfOk result (λ reply. IsHistoryAnswer key.now history reply.items) }
{
    let versions = view.versions(alloc, key, count).map_err(in_memory)?;
    history_text(alloc, versions.as_slice())
}
