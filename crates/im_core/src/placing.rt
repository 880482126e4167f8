// Placing a transaction.
ghost use Rattle.std.specs.Prelude.{◌≡◌, ℕ, IfOk, OnOk};
ghost use Rattle.im_core.specs.Parts.{Answers, IsUp};
ghost use Rattle.im_machine.specs.Machines.{Machine};
ghost use Rattle.im_machine.specs.declared.events.Event.TheVariants as on;
ghost use Rattle.im_machine.specs.declared.outputs.Output.TheVariants as says;

use crate::store::OpenStore;
use im_atree::roots::root_of;
use im_digest::Hash32;
use im_machine::outputs::Output;
use im_tx::prepared::Prepared;
use im_versions::refusals::PlaceError;
use std::alloc::{AllocError, Global};

impl OpenStore {
    /// Places what is asked for, over the tree of what is linked. It copies what is asked for, and hashes the entries and the
    /// header.
    pub(crate) fn place<H: Hash32>(
        &mut self,
        alloc: Global,
        hash: &H,
        ts: i64,
        prepared: &Prepared,
    ) -> Result<Output, AllocError>
        requires { (m : Machine) × IsUp (H.digest hash.now) self.old m }
        ensures { (m : Machine) (session : ℕ) → IsUp (H.digest hash.now) self.old m
            → IfOk result (λ output. Answers (H.digest hash.now) m (on.Place session ts prepared.now) output self.new) }
    {
        let at = self.book.len();
        let bl = self.tree.size();
        let root = root_of(hash, &self.tree);
        let copy = prepared.try_clone(alloc)?;
        match self.book.place(alloc, hash, copy, ts, bl, root) {
            Ok(header) => Ok(Output::Placed { header }),
            Err(why) => refused(why, at),
        }
    }
}

// A refusal is told, and want of memory isn't one.
fn refused(why: PlaceError, at: u64) -> Result<Output, AllocError>
    ensures told { IfOk result (λ output. output ≡ says.Refused why at) }
    ensures memory { why ≡ PlaceError.Memory → OnOk result ⊥ }
{
    match why {
        PlaceError::Memory => Err(AllocError),
        why => Ok(Output::Refused { why, at }),
    }
}
