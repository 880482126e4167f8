//! Whether live marks are of tables, and each row was written with the mark of its table.

ghost use Rattle.std.specs.Prelude.{◌≡◌, ◌↔◌, ◌≤◌, All, AllPairs, IfOk, IsTrue};
ghost use Rattle.std.specs.List.{IsAmong};
ghost use Rattle.im_versions.specs.declared.versions.Version.{Version as TheVersion};
ghost use Rattle.im_sqlmodel.specs.Keys as keys;
ghost use Rattle.im_sqlsound.specs.Sounding as spec;
ghost use Rattle.im_sqlsound.specs.Stepping.{AreMarked};
ghost use Rattle.im_sqlsound.specs.declared.found.TableFound.{TableFound as Found};

use crate::found::TableFound;
use crate::numbered::are_gapless;
use crate::said::are_same;
use im_catalog::keys::mark_key;
use im_versions::versions::Version;
use std::alloc::{AllocError, Global};

// Whether a key is that of the mark of one of these tables.
fn is_mark_of_one(alloc: Global, tables: &[TableFound], key: &[u8]) -> Result<bool, AllocError>
    ensures { IfOk result (λ is. IsTrue is ↔ ((f : Found) × IsAmong tables.now f × (key.now ≡ keys.mark_key f.table.tid))) }
{
    for found in tables {
        let mark = mark_key(alloc, found.table.tid)?;
        if are_same(mark.as_slice(), key) {
            return Ok(true);
        }
    }
    Ok(false)
}

// Whether a live mark is empty, and of a table that is there.
fn is_mark(alloc: Global, tables: &[TableFound], mark: &Version) -> Result<bool, AllocError>
    ensures { IfOk result (λ is. IsTrue is ↔ spec.IsMarkShown tables.now mark.now) }
{
    if !mark.value.is_empty() {
        return Ok(false);
    }
    is_mark_of_one(alloc, tables, mark.key.as_slice())
}

/// Whether each live mark is.
pub(crate) fn are_marks(
    alloc: Global,
    tables: &[TableFound],
    marks: &[Version],
) -> Result<bool, AllocError>
    ensures { IfOk result (λ are. IsTrue are ↔ All (spec.IsMarkShown tables.now) marks.now) }
{
    for mark in marks {
        let stands = is_mark(alloc, tables, mark)?;
        if !stands {
            return Ok(false);
        }
    }
    Ok(true)
}

/// The versions of a transaction, where they stand by rising transactions. It halves what is left at each look.
pub(crate) fn of_number(changes: &[Version], tx: u64) -> &[Version]
    requires { AllPairs (λ (a b : TheVersion). a.tx ≤ b.tx) changes.now }
    ensures { (v : TheVersion) → IsAmong result.now v ↔ (IsAmong changes.now v × (v.tx ≡ tx)) }
{
    let from = changes.partition_point(|version| version.tx < tx);
    let behind = &changes[from..];
    let count = behind.partition_point(|version| version.tx <= tx);
    &behind[..count]
}

// Whether one of these versions is of a key.
fn has_key(versions: &[Version], key: &[u8]) -> bool
    ensures { IsTrue result ↔ ((v : TheVersion) × IsAmong versions.now v × (v.key ≡ key.now)) }
{
    for version in versions {
        if are_same(version.key.as_slice(), key) {
            return true;
        }
    }
    false
}

// Whether a transaction has a version of a key. Versions stand by rising transactions.
fn has_change(changes: &[Version], key: &[u8], tx: u64) -> bool
    requires { AllPairs (λ (a b : TheVersion). a.tx ≤ b.tx) changes.now }
    ensures { IsTrue result ↔ ((v : TheVersion) × IsAmong changes.now v × (v.key ≡ key.now) × (v.tx ≡ tx)) }
{
    has_key(of_number(changes, tx), key)
}

// Whether the transaction that wrote each row wrote the mark of its table, or deleted it.
fn are_marked(alloc: Global, found: &TableFound, changes: &[Version]) -> Result<bool, AllocError>
    requires { AllPairs (λ (a b : TheVersion). a.tx ≤ b.tx) changes.now }
    ensures { IfOk result (λ are. IsTrue are ↔ All (spec.IsMarked changes.now found.now.table) found.now.rows) }
{
    let mark = mark_key(alloc, found.table.tid)?;
    let rows = found.rows.as_slice();
    for row in rows {
        if !has_change(changes, mark.as_slice(), row.tx) {
            return Ok(false);
        }
    }
    Ok(true)
}

/// Whether those of each table did. Its only error is want of memory.
pub(crate) fn are_all_marked(
    alloc: Global,
    tables: &[TableFound],
    changes: &[Version],
) -> Result<bool, AllocError>
    requires { AllPairs (λ (a b : TheVersion). a.tx ≤ b.tx) changes.now }
    ensures { IfOk result (λ are. IsTrue are ↔ All (AreMarked changes.now) tables.now) }
{
    for found in tables {
        let marked = are_marked(alloc, found, changes)?;
        if !marked {
            return Ok(false);
        }
    }
    Ok(true)
}

// Whether a table's indexes run from 1, and its rows are marked.
fn is_sound_alone(
    alloc: Global,
    found: &TableFound,
    changes: &[Version],
) -> Result<bool, AllocError>
    requires { AllPairs (λ (a b : TheVersion). a.tx ≤ b.tx) changes.now }
    ensures { IfOk result (λ is. IsTrue is ↔ spec.IsSoundAlone changes.now found.now) }
{
    if !are_gapless(found.indexes.as_slice()) {
        return Ok(false);
    }
    are_marked(alloc, found, changes)
}

/// Whether each table's do.
pub(crate) fn are_each_sound(
    alloc: Global,
    tables: &[TableFound],
    changes: &[Version],
) -> Result<bool, AllocError>
    requires { AllPairs (λ (a b : TheVersion). a.tx ≤ b.tx) changes.now }
    ensures { IfOk result (λ are. IsTrue are ↔ All (spec.IsSoundAlone changes.now) tables.now) }
{
    for found in tables {
        let stands = is_sound_alone(alloc, found, changes)?;
        if !stands {
            return Ok(false);
        }
    }
    Ok(true)
}
