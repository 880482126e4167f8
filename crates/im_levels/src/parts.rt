ghost use Rattle.std.specs.Prelude.{◌≡◌, ◌<◌, ◌≤◌, ◌+◌, ◌-◌, ◌^◌, ℕ, List, length, count_ones};
ghost use Rattle.im_digest.specs.Digests.{Hash};
ghost use Rattle.im_model.specs.Trees.{node, root, split_of};
ghost use Rattle.im_levels.specs.Counts.{whole};
ghost use Rattle.im_levels.specs.Leveled.{leaves_of, IsPart, IsSubtree};

/// Leaves beside each other.
#[derive(Clone, Copy)]
pub struct Part {
    /// The first leaf, from 0.
    pub at: usize,
    /// The number of leaves.
    pub width: usize,
}

/// The largest power of two below n, as `im_model::trees::split` gives it, but in a few steps however large n is.
pub fn split(n: usize) -> usize
    requires { 1 < n }
    ensures value { result ≡ split_of n }
    ensures left { 0 < result }
    ensures right { 1 < n → result < n }
{
    1 << (n - 1).ilog2()
}

/// The number of leaves of the largest whole subtree that a part begins with.
pub fn front(part: Part) -> usize
    requires some { 0 < part.width }
    requires fits { part.width + 1 < 2 ^ 64 }
    requires aligned { IsPart part.at part.width }
    ensures some { 0 < result }
    ensures within { result ≤ part.width }
    ensures tree { IsSubtree part.at result }
    ensures rest { IsPart (part.at + result) (part.width - result) }
    ensures inside { whole (part.at + result) ≤ whole (part.at + part.width) }
    ensures end { whole (part.at + result + (part.width - result)) ≡ whole (part.at + part.width) }
    ensures digits { count_ones part.width ≡ count_ones (part.width - result) + 1 }
    ensures node { (hash : Hash) (leaves : List (List ℕ)) → result < part.width → part.at + part.width ≤ length leaves
        → root hash (leaves_of leaves part.at part.width)
        ≡ node hash (root hash (leaves_of leaves part.at result)) (root hash (leaves_of leaves (part.at + result) (part.width - result))) }
{
    split(part.width + 1)
}

/// The number of whole subtrees of so many leaves: with the ones in its binary digits it is twice the number.
pub fn whole(leaves: usize) -> usize
    requires { whole leaves < 2 ^ 64 }
    ensures { result ≡ whole leaves }
{
    let ones = leaves.count_ones() as usize;
    leaves + (leaves - ones)
}
