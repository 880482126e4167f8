ghost use Rattle.std.specs.Prelude.{◌≡◌, ◌<◌, ◌≤◌};
ghost use Rattle.im_mtree.specs.Checks.{first_fail};
ghost use Rattle.im_proof.specs.TreeChecks.{inclusion_checks, consistency_checks, last_checks};

use crate::growths::{roots_between, terms_between};
use im_digest::{D32, Hash32};
use im_mtree::paths::{root_by_path, terms_of};
use im_proof::faults::DualFault;

/// Whether a path, its terms from the leaf up, leads from the Alh of transaction s, from 1, to the root of
/// a tree of `size` leaves, where s is below the tree's end; else it is empty. `Tree::inclusion` is its twin,
/// which builds one. It takes no memory, and hashes at most a leaf, and a node for each term.
///
/// # Errors
///
/// The first of these that is so: the path hasn't the exact length, or it leads to another root.
pub fn check_inclusion<H: Hash32>(
    hash: &H,
    s: u64,
    size: u64,
    root: &D32,
    alh: &D32,
    path: &[D32],
) -> Result<(), DualFault>
    requires { 1 ≤ s }
    ensures { result ≡ first_fail (inclusion_checks (H.digest hash.now) s size root.now alh.now path.now) }
{
    let due = s < size;
    let want = if due { terms_of(s - 1, size) } else { 0 };
    let got = path.len() as u64;
    if got != want {
        return Err(DualFault::InclusionLength { want, got });
    }
    if due {
        let got = root_by_path(hash, alh, s - 1, size, path);
        if got != *root {
            return Err(DualFault::InclusionRoot { want: *root, got });
        }
    }
    Ok(())
}

/// Whether a consistency list leads from the root of m leaves to that of n, where m is above 0 and below
/// n; else it is empty, and both are one root where m is above 0 (RFC 9162, section 2.1.4.2, with the first
/// term always there). `Tree::consistency` is its twin, which builds one. It takes no memory, and hashes at
/// most two nodes for each term behind the first.
///
/// # Errors
///
/// The first of these that is so: the list hasn't the exact length, or it gives another older root, or
/// another newer one.
pub fn check_consistency<H: Hash32>(
    hash: &H,
    m: u64,
    n: u64,
    older: &D32,
    newer: &D32,
    list: &[D32],
) -> Result<(), DualFault>
    ensures { result ≡ first_fail (consistency_checks (H.digest hash.now) m n older.now newer.now list.now) }
{
    if 0 < m && m < n {
        return check_growth(hash, m, n, older, newer, list);
    }
    let got = list.len() as u64;
    if got != 0 {
        return Err(DualFault::ConsistencyLength { want: 0, got });
    }
    if 0 < m && older != newer {
        return Err(DualFault::ConsistencyNew {
            want: *newer,
            got: *older,
        });
    }
    Ok(())
}

// Whether a consistency list leads from one root to another, where it is due.
fn check_growth<H: Hash32>(
    hash: &H,
    m: u64,
    n: u64,
    older: &D32,
    newer: &D32,
    list: &[D32],
) -> Result<(), DualFault>
    requires some { 0 < m }
    requires grows { m < n }
    ensures { result ≡ first_fail (consistency_checks (H.digest hash.now) m n older.now newer.now list.now) }
{
    let want = terms_between(m, n);
    let got = list.len() as u64;
    if got != want {
        return Err(DualFault::ConsistencyLength { want, got });
    }
    let roots = roots_between(hash, m, n, older, list);
    if roots.older != *older {
        return Err(DualFault::ConsistencyOld {
            want: *older,
            got: roots.older,
        });
    }
    if roots.newer != *newer {
        return Err(DualFault::ConsistencyNew {
            want: *newer,
            got: roots.newer,
        });
    }
    Ok(())
}

/// Whether a path leads from an Alh to the root of a tree of `size` leaves, as that of the last leaf; it is
/// empty where there is no leaf. `Tree::inclusion` of the last leaf is its twin, which builds one. It takes no
/// memory, and hashes at most a leaf, and a node for each term.
///
/// # Errors
///
/// The first of these that is so: the path hasn't the exact length, or it leads to another root.
pub fn check_last<H: Hash32>(
    hash: &H,
    size: u64,
    root: &D32,
    alh: &D32,
    path: &[D32],
) -> Result<(), DualFault>
    ensures { result ≡ first_fail (last_checks (H.digest hash.now) size root.now alh.now path.now) }
{
    let due = 0 < size;
    let want = if due { terms_of(size - 1, size) } else { 0 };
    let got = path.len() as u64;
    if got != want {
        return Err(DualFault::LastLength { want, got });
    }
    if due {
        let got = root_by_path(hash, alh, size - 1, size, path);
        if got != *root {
            return Err(DualFault::LastRoot { want: *root, got });
        }
    }
    Ok(())
}
