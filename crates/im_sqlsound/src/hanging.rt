//! Whether what live keys say hangs together.

ghost use Rattle.std.specs.Prelude.{◌≡◌, ◌↔◌, ◌≤◌, ◌<◌, ◌+◌, ℕ, List, length, sum, sum_by, AllPairs, IfOk, IsTrue, IfNone, IfSome};
ghost use Rattle.im_model.specs.declared.transactions.Transaction.{Transaction};
ghost use Rattle.im_versions.specs.Versions.{IsScan};
ghost use Rattle.im_versions.specs.declared.versions.Version.{Version as TheVersion};
ghost use Rattle.im_sqlsound.specs.Sounding as spec;
ghost use Rattle.im_sqlsound.specs.declared.found.TableFound.{TableFound as Found};

use crate::entered::are_entered;
use crate::found::TableFound;
use crate::marked::{are_each_sound, are_marks};
use crate::numbered::are_numbered;
use crate::said::under;
use im_catalog::keys::tables_key;
use im_versions::versions::Version;
use std::alloc::{AllocError, Global};

// What is left of a number without these; none where they are more.
fn without(number: usize, counts: &[usize]) -> Option<usize>
    ensures some { IfSome result (λ rest. rest + sum counts.now ≡ number) }
    ensures none { IfNone result (number < sum counts.now) }
{
    let mut left = number;
    for count in counts {
        if left < *count {
            return None;
        }
        left -= *count;
    }
    Some(left)
}

// What is left of it without the indexes and rows of tables; none where these are more.
fn left_of(tables: &[TableFound], number: usize) -> Option<usize>
    ensures some { IfSome result (λ rest. rest + sum_by (λ (f : Found). length f.indexes) tables.now + sum_by (λ (f : Found). length f.rows) tables.now ≡ number) }
    ensures none { IfNone result (number < sum_by (λ (f : Found). length f.indexes) tables.now + sum_by (λ (f : Found). length f.rows) tables.now) }
{
    let mut left = number;
    for found in tables {
        let indexes = found.indexes.len();
        let rows = found.rows.len();
        if left < indexes {
            return None;
        }
        left -= indexes;
        if left < rows {
            return None;
        }
        left -= rows;
    }
    Some(left)
}

// Whether no key stands beside those of the catalogue, the rows, the marks and the entries.
fn is_all(shown: &[Version], tables: &[TableFound]) -> bool
    requires { (history : List Transaction) × (prefix : List ℕ) × IsScan history prefix shown.now }
    ensures { IsTrue result ↔ spec.IsAll shown.now tables.now }
{
    let others = [
        under(shown, &tables_key()).len(),
        tables.len(),
        under(shown, &[0, 3]).len(),
        under(shown, &[0, 5]).len(),
        under(shown, &[0, 6]).len(),
    ];
    let Some(left) = without(shown.len(), &others) else {
        return false;
    };
    match left_of(tables, left) {
        Some(rest) => rest == 0,
        None => false,
    }
}

/// Whether all keys hang together, by the tables that they say. Its only error is want of memory.
pub(crate) fn do_hang(
    alloc: Global,
    shown: &[Version],
    changes: &[Version],
    tables: &[TableFound],
) -> Result<bool, AllocError>
    requires scan { (history : List Transaction) × (prefix : List ℕ) × IsScan history prefix shown.now }
    requires rising { AllPairs (λ (a b : TheVersion). a.tx ≤ b.tx) changes.now }
    ensures { IfOk result (λ are. IsTrue are ↔ spec.Hang shown.now changes.now tables.now) }
{
    if !are_numbered(shown, tables) {
        return Ok(false);
    }
    if !is_all(shown, tables) {
        return Ok(false);
    }
    let marks = are_marks(alloc, tables, under(shown, &[0, 3]))?;
    if !marks {
        return Ok(false);
    }
    let each = are_each_sound(alloc, tables, changes)?;
    if !each {
        return Ok(false);
    }
    are_entered(alloc, shown, tables)
}
