//! Whether a transaction's own keys say that the keys are SQL's behind it.

ghost use Rattle.std.specs.Prelude.{◌≡◌, ◌↔◌, ◌≤◌, ◌-◌, List, [], ◌∷◌, length, take, All, AllPairs, IfOk, OnOk, IsTrue};
ghost use Rattle.std.specs.List.{IsAmong};
ghost use Rattle.im_model.specs.declared.transactions.Transaction.{Transaction};
ghost use Rattle.im_versions.specs.Versions.{begins_with};
ghost use Rattle.im_versions.specs.declared.versions.Version.{Version as TheVersion};
ghost use Rattle.im_sqltype.specs.Orders.{octets_cmp};
ghost use Rattle.im_sqlmodel.specs.Keys as keys;
ghost use Rattle.im_sqlmodel.specs.Kept.{IsSqlSound};
ghost use Rattle.im_sqlmodel.specs.Sorts.{sorted};
ghost use Rattle.im_sqlsound.specs.Sounding.{AreByNumber, IsMarkShown};
ghost use Rattle.im_sqlsound.specs.Stepping as spec;
ghost use Rattle.im_sqlsound.specs.declared.found.TableFound.{TableFound as Found};

use crate::entered::{are_said, entries_given, sort_by_key};
use crate::found::TableFound;
use crate::marked::{are_all_marked, are_marks, of_number};
use crate::own::push_own;
use crate::parts::parts_at;
use im_catalog::keys::rows_prefix;
use im_versions::errors::ViewError;
use im_versions::versions::Version;
use im_versions::view::KvView;
use std::alloc::{AllocError, Global};

// ---- entries

// Sorts versions by their keys. Those of one key stay as they stood.
fn sort_versions(versions: &mut Vec<Version>) -> Result<(), AllocError>
    ensures { OnOk result (versions.new.items ≡ sorted (λ a b. octets_cmp a.key b.key) versions.old.items) }
{
    versions.sort_by(|a, b| a.key.as_slice().cmp(b.key.as_slice()))
}

// The live entries whose keys versions have, by rising key.
fn own_entries<V: KvView>(
    alloc: Global,
    view: &V,
    own: &[Version],
    n: u64,
) -> Result<Vec<Version>, ViewError>
    requires { (history : List Transaction) × V.stands view.now history × (n ≤ length history) }
    ensures { (history : List Transaction) → V.stands view.now history → n ≤ length history
        → IfOk result (λ entries. entries.items ≡ spec.own_entries (take n history) own.now) }
{
    let mut entries = Vec::new(alloc);
    push_own(alloc, view, &mut entries, own, &[0, 5], n)?;
    push_own(alloc, view, &mut entries, own, &[0, 6], n)?;
    sort_versions(&mut entries)?;
    Ok(entries)
}

// Whether they are those that the rows of these tables give.
fn are_own_entries<V: KvView>(
    alloc: Global,
    view: &V,
    own: &[Version],
    tables: &[TableFound],
    n: u64,
) -> Result<bool, ViewError>
    requires { (history : List Transaction) × V.stands view.now history × (n ≤ length history) }
    ensures { (history : List Transaction) → V.stands view.now history → n ≤ length history
        → IfOk result (λ are. IsTrue are ↔ spec.AreOwnEntries (take n history) own.now tables.now) }
{
    let mut given = entries_given(alloc, tables)?;
    sort_by_key(&mut given)?;
    let live = own_entries(alloc, view, own, n)?;
    let same = are_said(live.as_slice(), given.as_slice());
    drop(live);
    drop(given);
    Ok(same)
}

// ---- keys

// Whether a key is of a row of one of these tables.
fn is_of_one(alloc: Global, tables: &[TableFound], key: &[u8]) -> Result<bool, AllocError>
    ensures { IfOk result (λ is. IsTrue is ↔ ((f : Found) × IsAmong tables.now f × IsTrue (begins_with (keys.rows_prefix f.table.tid) key.now))) }
{
    for found in tables {
        let front = rows_prefix(alloc, found.table.tid)?;
        if key.starts_with(front.as_slice()) {
            return Ok(true);
        }
    }
    Ok(false)
}

// Whether a key is of a mark, of an entry, or of a row of one of these tables.
fn is_known(alloc: Global, tables: &[TableFound], key: &[u8]) -> Result<bool, AllocError>
    ensures { IfOk result (λ is. IsTrue is ↔ spec.IsKnownKey tables.now key.now) }
{
    if key.starts_with(&[0, 3]) {
        return Ok(true);
    }
    if key.starts_with(&[0, 5]) {
        return Ok(true);
    }
    if key.starts_with(&[0, 6]) {
        return Ok(true);
    }
    is_of_one(alloc, tables, key)
}

// Whether each of these versions has such a key.
fn are_known(alloc: Global, tables: &[TableFound], own: &[Version]) -> Result<bool, AllocError>
    ensures { IfOk result (λ are. IsTrue are ↔ All (λ (v : TheVersion). spec.IsKnownKey tables.now v.key) own.now) }
{
    for version in own {
        let known = is_known(alloc, tables, version.key.as_slice())?;
        if !known {
            return Ok(false);
        }
    }
    Ok(true)
}

// ---- before the transaction

// Whether keys are known, and the entries are those of the rows.
fn are_entered_before<V: KvView>(
    alloc: Global,
    view: &V,
    own: &[Version],
    tables: &[TableFound],
    before: u64,
) -> Result<bool, ViewError>
    requires { (history : List Transaction) × V.stands view.now history × (before ≤ length history) }
    ensures { (history : List Transaction) → V.stands view.now history → before ≤ length history
        → IfOk result (λ are. IsTrue are → All (λ (v : TheVersion). spec.IsKnownKey tables.now v.key) own.now × spec.AreOwnEntries (take before history) own.now tables.now) }
{
    let known = are_known(alloc, tables, own)?;
    if !known {
        return Ok(false);
    }
    are_own_entries(alloc, view, own, tables, before)
}

// Whether before a transaction that has these versions its keys are of marks, rows and entries, and the entries are
// those that the rows give.
fn do_stand_before<V: KvView>(
    alloc: Global,
    view: &V,
    own: &[Version],
    before: u64,
) -> Result<bool, ViewError>
    requires { (history : List Transaction) × V.stands view.now history × (before ≤ length history) × IsSqlSound (take before history) }
    ensures { (history : List Transaction) → V.stands view.now history → before ≤ length history → IsSqlSound (take before history)
        → IfOk result (λ stood. IsTrue stood → spec.StoodOf (take before history) own.now) }
{
    let Some(tables) = parts_at(alloc, view, own, before, before)? else {
        return Ok(false);
    };
    let stood = are_entered_before(alloc, view, own, tables.as_slice(), before)?;
    drop(tables);
    Ok(stood)
}

// ---- behind it

// Whether live marks are of tables and empty.
fn are_own_marks<V: KvView>(
    alloc: Global,
    view: &V,
    own: &[Version],
    tables: &[TableFound],
    n: u64,
) -> Result<bool, ViewError>
    requires { (history : List Transaction) × V.stands view.now history × (n ≤ length history) }
    ensures { (history : List Transaction) → V.stands view.now history → n ≤ length history
        → IfOk result (λ are. IsTrue are ↔ All (IsMarkShown tables.now) (spec.live_own (take n history) (0 ∷ 3 ∷ []) own.now)) }
{
    let mut marks = Vec::new(alloc);
    push_own(alloc, view, &mut marks, own, &[0, 3], n)?;
    let are = are_marks(alloc, tables, marks.as_slice())?;
    drop(marks);
    Ok(are)
}

// Whether marks are, rows are marked, and the entries are those of the rows.
fn are_entered_behind<V: KvView>(
    alloc: Global,
    view: &V,
    own: &[Version],
    changes: &[Version],
    tables: &[TableFound],
    n: u64,
) -> Result<bool, ViewError>
    requires view { (history : List Transaction) × V.stands view.now history × (n ≤ length history) }
    requires rising { AllPairs (λ (a b : TheVersion). a.tx ≤ b.tx) changes.now }
    ensures { (history : List Transaction) → V.stands view.now history → n ≤ length history
        → IfOk result (λ are. IsTrue are → All (IsMarkShown tables.now) (spec.live_own (take n history) (0 ∷ 3 ∷ []) own.now)
        × All (spec.AreMarked changes.now) tables.now × spec.AreOwnEntries (take n history) own.now tables.now) }
{
    let marks = are_own_marks(alloc, view, own, tables, n)?;
    if !marks {
        return Ok(false);
    }
    let marked = are_all_marked(alloc, tables, changes)?;
    if !marked {
        return Ok(false);
    }
    are_own_entries(alloc, view, own, tables, n)
}

// Whether behind it, where the catalogue is as it was, live marks are such, each row was written with its table's mark,
// and again the entries are those that the rows give.
fn do_stand_behind<V: KvView>(
    alloc: Global,
    view: &V,
    own: &[Version],
    changes: &[Version],
    before: u64,
    n: u64,
) -> Result<bool, ViewError>
    requires view { (history : List Transaction) × V.stands view.now history × (n ≤ length history) × (before ≤ length history) × IsSqlSound (take before history) }
    requires rising { AllPairs (λ (a b : TheVersion). a.tx ≤ b.tx) changes.now }
    ensures { (history : List Transaction) → V.stands view.now history → n ≤ length history → before ≤ length history → IsSqlSound (take before history)
        → IfOk result (λ stand. IsTrue stand → spec.StandsOf (take before history) (take n history) own.now changes.now) }
{
    let Some(tables) = parts_at(alloc, view, own, before, n)? else {
        return Ok(false);
    };
    let stand = are_entered_behind(alloc, view, own, changes, tables.as_slice(), n)?;
    drop(tables);
    Ok(stand)
}

/// Whether the own keys of transaction `tx` say that the keys that begin with octet 00 are SQL's behind it, when they
/// were SQL's before it. So do those that a statement writes into a table that was there: none is of the catalogue,
/// rows come with their table's mark, and the entries are all those that the rows gave and give. Where it says no, the
/// keys may be SQL's or not. `changes` are all versions of such keys up to it, by rising transactions. It asks the view
/// for the catalogue, and for what stood and stands under these keys. Its only error is want of memory.
pub(crate) fn is_step<V: KvView>(
    alloc: Global,
    view: &V,
    changes: &[Version],
    tx: u64,
) -> Result<bool, ViewError>
    requires { (history : List Transaction) × V.stands view.now history × (1 ≤ tx) × (tx ≤ length history) × IsSqlSound (take (tx - 1) history)
        × AreByNumber (take tx history) changes.now }
    ensures { (history : List Transaction) → V.stands view.now history → 1 ≤ tx → tx ≤ length history → IsSqlSound (take (tx - 1) history)
        → AreByNumber (take tx history) changes.now → IfOk result (λ is. IsTrue is → IsSqlSound (take tx history)) }
{
    let own = of_number(changes, tx);
    let before = tx - 1;
    let stood = do_stand_before(alloc, view, own, before)?;
    if !stood {
        return Ok(false);
    }
    do_stand_behind(alloc, view, own, changes, before, tx)
}
