ghost use Rattle.std.specs.Prelude.{◌≡◌, ◌<◌, ◌++◌, ◌∷◌, [], IfOk, length, reverse};
ghost use Rattle.im_model.specs.Trees.{leaf, leaf_string};
ghost use Rattle.im_forge.specs.Parted.{ArePaths, IsParted, IsOver};
ghost use Rattle.im_forge.specs.declared.same.Same.TheVariants.{Pair};

use crate::same::Same;
use crate::strings::leaf_octets;
use im_digest::{D32, Hash32};
use im_model::trees::{leaf_digest, node_digest, split};
use im_octet::octets::Octets;
use im_pairs::strings::{Children, node_octets};
use std::alloc::{AllocError, Global};

/// What two paths of one leaf number give: the roots of both, and the strings at which they part, which are a
/// pair where the roots are one.
#[derive(Drop)]
pub struct Parted {
    /// The root of the first path.
    pub ours: D32,
    /// The root of the second one.
    pub theirs: D32,
    /// The string of the first path's leaf or node.
    pub x: Octets,
    /// That of the second one's.
    pub y: Octets,
}

impl Parted {
    ghost use Rattle.std.specs.Prelude.{◌≡◌};
    ghost use Rattle.im_forge.specs.declared.same.Same.TheVariants.{Pair};

    /// The strings at which they part.
    pub fn into_pair(self) -> Same
        ensures { result ≡ Pair self.x self.y }
    {
        let Parted { x, y, .. } = self;
        Same::Pair { x, y }
    }
}

/// Where two paths of leaf i, from 0, of n, their terms from the leaf up, part that lead from the leaves of two
/// unequal digests. It hashes both leaves, and two nodes for each term. The only error is want of memory.
pub fn part<H: Hash32>(
    alloc: Global,
    hash: &H,
    n: usize,
    i: usize,
    leaf: &D32,
    path: &[D32],
    leaf2: &D32,
    path2: &[D32],
) -> Result<Parted, AllocError>
    requires { ArePaths n i leaf.now leaf2.now (reverse path.now) (reverse path2.now) }
    ensures { IfOk result (IsParted (H.digest hash.now) n i leaf.now leaf2.now (reverse path.now) (reverse path2.now)) }
{
    match path.split_last() {
        None => leaves(alloc, hash, leaf, leaf2),
        Some((term, front)) => {
            let (term2, front2) = last_of(path2);
            let k = split(n);
            if i < k {
                let below = part(alloc, hash, k, i, leaf, front, leaf2, front2)?;
                return over_left(alloc, hash, below, term, term2);
            }
            let below = part(alloc, hash, n - k, i - k, leaf, front, leaf2, front2)?;
            over_right(alloc, hash, below, term, term2)
        }
    }
}

// The leaves of two digests.
fn leaves<H: Hash32>(
    alloc: Global,
    hash: &H,
    digest: &D32,
    digest2: &D32,
) -> Result<Parted, AllocError>
    ensures { IfOk result (λ parted. parted ≡ record { ours = leaf (H.digest hash.now) digest.now; theirs = leaf (H.digest hash.now) digest2.now; x = leaf_string digest.now; y = leaf_string digest2.now }) }
{
    let x = leaf_octets(alloc, digest)?;
    let y = leaf_octets(alloc, digest2)?;
    Ok(Parted {
        ours: leaf_digest(hash, digest),
        theirs: leaf_digest(hash, digest2),
        x,
        y,
    })
}

// The nodes whose right children are the next terms.
fn over_left<H: Hash32>(
    alloc: Global,
    hash: &H,
    below: Parted,
    term: &D32,
    term2: &D32,
) -> Result<Parted, AllocError>
    ensures { IfOk result (IsOver (H.digest hash.now) below.ours term.now below.theirs term2.now below) }
{
    let (left, left2) = (below.ours, below.theirs);
    let ours = Children { left, right: *term };
    let theirs = Children {
        left: left2,
        right: *term2,
    };
    over(alloc, hash, below, ours, theirs)
}

// The nodes whose left children are the next terms.
fn over_right<H: Hash32>(
    alloc: Global,
    hash: &H,
    below: Parted,
    term: &D32,
    term2: &D32,
) -> Result<Parted, AllocError>
    ensures { IfOk result (IsOver (H.digest hash.now) term.now below.ours term2.now below.theirs below) }
{
    let (right, right2) = (below.ours, below.theirs);
    let ours = Children { left: *term, right };
    let theirs = Children {
        left: *term2,
        right: right2,
    };
    over(alloc, hash, below, ours, theirs)
}

// The two nodes over what was parted.
fn over<H: Hash32>(
    alloc: Global,
    hash: &H,
    below: Parted,
    ours: Children,
    theirs: Children,
) -> Result<Parted, AllocError>
    ensures { IfOk result (IsOver (H.digest hash.now) ours.left ours.right theirs.left theirs.right below) }
{
    let root = node_digest(hash, &ours.left, &ours.right);
    let root2 = node_digest(hash, &theirs.left, &theirs.right);
    if below.ours == below.theirs {
        let Parted { x, y, .. } = below;
        return Ok(Parted {
            ours: root,
            theirs: root2,
            x,
            y,
        });
    }
    drop(below);
    let x = node_octets(alloc, &ours)?;
    let y = node_octets(alloc, &theirs)?;
    Ok(Parted {
        ours: root,
        theirs: root2,
        x,
        y,
    })
}

// The last term of a path, and those before it.
fn last_of(path: &[D32]) -> (&D32, &[D32])
    requires { 0 < length path.now }
    ensures value { path.now ≡ result.1.now ++ result.0.now ∷ [] }
    ensures shorter { length result.1.now < length path.now }
{
    (&path[path.len() - 1], &path[..path.len() - 1])
}
