ghost use Rattle.std.specs.Prelude.{◌≡◌, ◌∷◌, [], IfOk, OnOk, reverse};
ghost use Rattle.im_model.specs.Growth.{older, newer, grow_strings};
ghost use Rattle.im_model.specs.Trees.{node, node_string};
ghost use Rattle.im_carried.specs.Hashed.{grown_strings};
ghost use Rattle.im_hashed.specs.Added.{AddsStrings};

use crate::added::add_node;
use im_digest::{D32, Hash32};
use im_model::trees::split;
use im_octet::octets::Octets;
use im_pairs::strings::Children;
use im_pathmove::roots::Roots;
use std::alloc::{AllocError, Global};

// Adds the strings of a consistency list from m to n, where one is due.
pub(crate) fn add_consistency<H: Hash32>(
    alloc: Global,
    hash: &H,
    out: &mut Vec<Octets>,
    m: u64,
    n: u64,
    list: &[D32],
) -> Result<(), AllocError>
    ensures { OnOk result (AddsStrings out.old.items out.new.items (grown_strings (H.digest hash.now) m n list.now)) }
{
    if m == 0 || m >= n {
        return Ok(());
    }
    match list.split_first() {
        None => Ok(()),
        Some((first, others)) => {
            add_growth(alloc, hash, out, m as usize, n as usize, first, others)?;
            Ok(())
        }
    }
}

// Adds the strings of a first term of a list from m to n and of those behind it, and gives both roots. Each is hashed
// once.
fn add_growth<H: Hash32>(
    alloc: Global,
    hash: &H,
    out: &mut Vec<Octets>,
    m: usize,
    n: usize,
    first: &D32,
    terms: &[D32],
) -> Result<Roots, AllocError>
    ensures older { IfOk result (λ roots. roots.older ≡ older (H.digest hash.now) m n first.now (reverse terms.now)) }
    ensures newer { IfOk result (λ roots. roots.newer ≡ newer (H.digest hash.now) m n first.now (reverse terms.now)) }
    ensures strings { OnOk result (AddsStrings out.old.items out.new.items (grow_strings (H.digest hash.now) m n first.now (reverse terms.now))) }
{
    match terms.split_last() {
        None => Ok(Roots {
            older: *first,
            newer: *first,
        }),
        Some((term, front)) => {
            let k = split(n);
            if m <= k {
                let roots = add_growth(alloc, hash, out, m, k, first, front)?;
                return add_beside(alloc, hash, out, &roots, term);
            }
            let rest = n.saturating_sub(k);
            let roots = add_growth(alloc, hash, out, m - k, rest, first, front)?;
            add_below(alloc, hash, out, &roots, term)
        }
    }
}

// Adds the newer node over two roots, whose right child is the next term. The older root stays.
fn add_beside<H: Hash32>(
    alloc: Global,
    hash: &H,
    out: &mut Vec<Octets>,
    roots: &Roots,
    term: &D32,
) -> Result<Roots, AllocError>
    ensures roots { IfOk result (λ over. over ≡ record { older = roots.now.older; newer = node (H.digest hash.now) roots.now.newer term.now }) }
    ensures strings { OnOk result (AddsStrings out.old.items out.new.items (node_string roots.now.newer term.now ∷ [])) }
{
    let children = Children {
        left: roots.newer,
        right: *term,
    };
    let newer = add_node(alloc, hash, out, &children)?;
    Ok(Roots {
        older: roots.older,
        newer,
    })
}

// Adds both nodes over two roots, whose left child is the next term.
fn add_below<H: Hash32>(
    alloc: Global,
    hash: &H,
    out: &mut Vec<Octets>,
    roots: &Roots,
    term: &D32,
) -> Result<Roots, AllocError>
    ensures roots { IfOk result (λ over. over ≡ record { older = node (H.digest hash.now) term.now roots.now.older; newer = node (H.digest hash.now) term.now roots.now.newer }) }
    ensures strings { OnOk result (AddsStrings out.old.items out.new.items (node_string term.now roots.now.older ∷ node_string term.now roots.now.newer ∷ [])) }
{
    let children = Children {
        left: *term,
        right: roots.older,
    };
    let older = add_node(alloc, hash, out, &children)?;
    let children = Children {
        left: *term,
        right: roots.newer,
    };
    let newer = add_node(alloc, hash, out, &children)?;
    Ok(Roots { older, newer })
}
