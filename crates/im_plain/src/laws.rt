//! What both forms of the index tell of one history is the same. Each function asks both, and its contract is the law.

ghost use Rattle.std.specs.Prelude.{◌≡◌, ◌≤◌, List, length, IfOk};
ghost use Rattle.im_model.specs.declared.transactions.Transaction.{Transaction};
ghost use Rattle.im_index.specs.Indexed.{IsIndexOf};
ghost use Rattle.im_plain.specs.Listed.{IsListOf};

use crate::index::PlainIndex;
use im_index::index::Index;
use im_versions::errors::ViewError;
use im_versions::versions::{Version, Versions};
use im_versions::view::KvView;
use std::alloc::Global;

/// The last version of a key after the first `n` transactions, by the runs and by the list.
pub fn both_forms_get_the_same(
    alloc: Global,
    index: &Index,
    list: &PlainIndex,
    key: &[u8],
    n: u64,
) -> Result<(Option<Version>, Option<Version>), ViewError>
    requires { (history : List Transaction) × IsIndexOf index.now history × IsListOf list.now history × (n ≤ length history) }
    ensures { IfOk result (λ both. both.0 ≡ both.1) }
{
    let by_runs = index.get(alloc, key, n)?;
    let by_list = list.get(alloc, key, n)?;
    Ok((by_runs, by_list))
}

/// The versions of a key among the first `n` transactions, by the runs and by the list.
pub fn both_forms_have_the_same_versions(
    alloc: Global,
    index: &Index,
    list: &PlainIndex,
    key: &[u8],
    n: u64,
) -> Result<(Versions, Versions), ViewError>
    requires { (history : List Transaction) × IsIndexOf index.now history × IsListOf list.now history × (n ≤ length history) }
    ensures { IfOk result (λ both. both.0 ≡ both.1) }
{
    let by_runs = index.versions(alloc, key, n)?;
    let by_list = list.versions(alloc, key, n)?;
    Ok((by_runs, by_list))
}

/// The live keys that begin with a prefix after the first `n` transactions, by the runs and by the list.
pub fn both_forms_scan_the_same(
    alloc: Global,
    index: &Index,
    list: &PlainIndex,
    prefix: &[u8],
    n: u64,
) -> Result<(Versions, Versions), ViewError>
    requires { (history : List Transaction) × IsIndexOf index.now history × IsListOf list.now history × (n ≤ length history) }
    ensures { IfOk result (λ both. both.0 ≡ both.1) }
{
    let by_runs = index.scan(alloc, prefix, n)?;
    let by_list = list.scan(alloc, prefix, n)?;
    Ok((by_runs, by_list))
}
