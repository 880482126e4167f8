//! Whether what was live of tables and indexes stands as it stood.

ghost use Rattle.std.specs.Prelude.{◌≡◌, ◌↔◌, ℕ, List, All, IsTrue};
ghost use Rattle.std.specs.List.{IsAmong};
ghost use Rattle.im_model.specs.declared.transactions.Transaction.{Transaction};
ghost use Rattle.im_versions.specs.Versions.{IsScan};
ghost use Rattle.im_sqlsound.specs.Sounding as spec;

use crate::said::{is_before, under};
use im_versions::versions::Version;

// Whether a version is one of these, whose keys rise. It halves what is left at each look.
fn is_among(shown: &[Version], version: &Version) -> bool
    requires { (history : List Transaction) × (prefix : List ℕ) × IsScan history prefix shown.now }
    ensures { IsTrue result ↔ IsAmong shown.now version.now }
{
    let key = version.key.as_slice();
    let at = shown.partition_point(|other| is_before(other, key));
    if at < shown.len() {
        return is_same(&shown[at], version);
    }
    false
}

fn is_same(a: &Version, b: &Version) -> bool
    ensures { IsTrue result ↔ (a.now ≡ b.now) }
{
    a.tx == b.tx
        && a.deleted == b.deleted
        && a.key.as_slice() == b.key.as_slice()
        && a.value.as_slice() == b.value.as_slice()
}

// Whether what was live of tables and indexes, under a front, stands as it stood.
fn are_settled(before: &[Version], shown: &[Version]) -> bool
    requires { (history : List Transaction) × (prefix : List ℕ) × IsScan history prefix shown.now }
    ensures { IsTrue result ↔ All (IsAmong shown.now) before.now }
{
    for version in before {
        if !is_among(shown, version) {
            return false;
        }
    }
    true
}

/// Whether what was live of tables and indexes stands as it stood.
pub(crate) fn is_settled(before: &[Version], shown: &[Version]) -> bool
    requires old { (history : List Transaction) × (prefix : List ℕ) × IsScan history prefix before.now }
    requires new { (history : List Transaction) × (prefix : List ℕ) × IsScan history prefix shown.now }
    ensures { IsTrue result ↔ spec.AreSettled before.now shown.now }
{
    if !are_settled(under(before, &[0, 1]), shown) {
        return false;
    }
    are_settled(under(before, &[0, 2]), shown)
}
