use crate::parts::{Part, whole};
use crate::steps::Steps;
use im_digest::D32;
use std::alloc::{AllocError, Global};
use std::marker::Model;
use std::sync::ledger::Ledger;

/// Stored digests, whose only way out is `read`, which counts a step: no other call gives one. A clause sees their
/// list.
#[derive(Drop)]
pub struct Nodes {
    digests: Vec<D32>,
}

impl Model for Nodes {
    ghost use Rattle.std.specs.Prelude.{ℕ, List};

    ghost Value = { List (List ℕ) };

    ghost view = { λ s. s.digests.items };
}

impl Nodes {
    ghost use Rattle.std.specs.Prelude.{◌≡◌, ◌<◌, ◌≤◌, ℕ, ◌+◌, ◌^◌, List, [], ◌++◌, length, take, OnOk, OnErr};
    ghost use Rattle.im_digest.specs.Digests.{Hash};
    ghost use Rattle.im_model.specs.Trees.{root};
    ghost use Rattle.im_levels.specs.Counts.{whole};
    ghost use Rattle.im_levels.specs.Leveled.{leaves_of, AreStored, IsSubtree};

    /// No digests. It takes no memory.
    pub fn new(alloc: Global) -> Self
        ensures { result ≡ [] }
    {
        Nodes {
            digests: Vec::new(alloc),
        }
    }

    /// The number of digests.
    pub fn count(&self) -> usize
        ensures { result ≡ length self.now }
    {
        self.digests.len()
    }

    /// Does nothing. The digests of so many leaves are counted in 64 bits, and so is one leaf more.
    pub fn next_fits(&self, size: usize)
        requires { length self.now ≡ whole size }
        ensures { size + 1 < 2 ^ 64 }
    {
        self.count();
    }

    /// The stored digest of a whole subtree, which is the root over its leaves. It takes one step.
    pub fn read<L: Ledger>(&self, tree: Part, steps: &mut Steps<L>) -> D32
        requires aligned { IsSubtree tree.at tree.width }
        requires inside { whole (tree.at + tree.width) ≤ length self.now }
        ensures value { (hash : Hash) (leaves : List (List ℕ)) → tree.at + tree.width ≤ length leaves
            → AreStored hash leaves self.now → result ≡ root hash (leaves_of leaves tree.at tree.width) }
        ensures fits { tree.at + tree.width < 2 ^ 64 }
        ensures cost { steps.new ≡ steps.old + 1 }
    {
        steps.tick();
        let digests = self.digests.as_slice();
        let before = whole(tree.at);
        let place = before + 2 * (tree.width - 1);
        digests[place]
    }

    /// Adds digests behind the others. Its only error is want of memory, and none was added then.
    pub fn add(&mut self, more: &[D32]) -> Result<(), AllocError>
        ensures ok { OnOk result (self.new ≡ self.old ++ more.now) }
        ensures err { OnErr result (self.new ≡ self.old) }
    {
        self.digests.extend_from_slice(more)?;
        Ok(())
    }

    /// Goes back to the first so many digests.
    pub fn cut(&mut self, count: usize)
        ensures { self.new ≡ take count self.old }
    {
        self.digests.truncate(count);
    }
}
