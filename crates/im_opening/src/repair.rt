ghost use Rattle.std.specs.Prelude.{◌≡◌, ◌≤◌, ◌<◌, ◌^◌, length, List, Some, OnOk, IfErr, IfSome};
ghost use Rattle.std.specs.Option.{option_map};
ghost use Rattle.im_digest.specs.Digests.{Hash};
ghost use Rattle.im_disk.specs.Causes.{HasCause};
ghost use Rattle.im_alog.specs.Holding.{IsDurable};
ghost use Rattle.im_disk.specs.Disk.{LiesWithin, Told, seen};
ghost use Rattle.im_disk.specs.Grown.{Grows};
ghost use Rattle.im_format.specs.Batches.{gate_of};
ghost use Rattle.im_format.specs.Reading.{history_in};
ghost use Rattle.im_opening.specs.Opening.{HasEnds, IsRead, IsThere};
ghost use Rattle.im_opening.specs.Parts.{batches_in};
ghost use Rattle.im_disk.specs.Moments.{Leaves, LeavesNow};
ghost use Rattle.im_format.specs.Standing.{Stands};
ghost use Rattle.im_model.specs.declared.transactions.Transaction.{Transaction};
ghost use Rattle.im_opening.specs.Cut.{IsCutOff, IsHalfRepaired, IsHalfShut, IsHeldThroughout, IsShut, repaired, shut_at};

use crate::reading::Opened;
use im_alog::laying::sync;
use im_clog::marks::Uncounted;
use im_disk::disk::{Disk, DiskError};

/// Closes the gate behind the batches that count, where the commit log ends before the next gate, and makes it
/// stay: one write and one sync.
pub(crate) fn shut_gate<D: Disk>(disk: &mut D, gate: u64) -> Result<(), DiskError>
    requires within { LiesWithin (D.told disk.old) 1 gate 0 }
    requires end { gate < 2 ^ 62 }
    ensures leaves { (hash : Hash) (history : List Transaction)
        → LeavesNow (IsCutOff hash history gate) (D.told disk.old) → IfSome (D.told disk.old) (λ t. IsCutOff hash history gate (seen t))
        → Leaves (λ image. Stands hash image history) (D.told disk.old) (D.told disk.new) }
    ensures shut { OnOk result (IfSome (D.told disk.new) (λ t. IsShut (seen t) gate)) }
    ensures written { OnOk result (D.told disk.new ≡ option_map (shut_at gate) (D.told disk.old)) }
    ensures half { (t : Told) → D.told disk.old ≡ Some t → IfErr result (λ error. IsHalfShut error gate t (D.told disk.new)) }
    ensures grows { Grows (D.told disk.old) (D.told disk.new) }
    ensures cause { HasCause (D.faults disk.old) (D.faults disk.new) result }
{
    disk.write_at(1, gate, &[0])?;
    sync(disk)
}

/// Closes the gate behind the batches that count, where no octet stands at it, or it is open and octets up to the
/// next gate are missing: one `write_at` and one `sync`. Else nothing is done. Behind a call that fails no other is made.
pub(crate) fn repair<D: Disk>(disk: &mut D, opened: &Opened) -> Result<(), DiskError>
    requires within { IfSome (D.told disk.old) (λ t. gate_of opened.now.batches ≤ length (seen t 1)) }
    requires ends { HasEnds opened.now }
    ensures leaves { (hash : Hash) (t : Told) → D.told disk.old ≡ Some t → IsDurable t → IsRead hash (seen t) opened.now
        → Leaves (λ image. Stands hash image (history_in (seen t))) (D.told disk.old) (D.told disk.new) }
    ensures shut { (hash : Hash) (t : Told) → D.told disk.old ≡ Some t → IsRead hash (seen t) opened.now
        → OnOk result (IfSome (D.told disk.new) (λ t. IsShut (seen t) (gate_of opened.now.batches))) }
    ensures kept { (hash : Hash) (t : Told) → D.told disk.old ≡ Some t → IsDurable t → IsRead hash (seen t) opened.now
        → IsThere (seen t) opened.now
        → OnOk result (IfSome (D.told disk.new) (IsHeldThroughout (batches_in (seen t)) opened.now.ends)) }
    ensures calls { OnOk result (D.told disk.new ≡ option_map (repaired opened.now.behind (gate_of opened.now.batches)) (D.told disk.old)) }
    ensures half { (t : Told) → D.told disk.old ≡ Some t → IfErr result (λ error. IsHalfRepaired opened.now.behind error (gate_of opened.now.batches) t (D.told disk.new)) }
    ensures grows { Grows (D.told disk.old) (D.told disk.new) }
    ensures cause { HasCause (D.faults disk.old) (D.faults disk.new) result }
{
    match opened.behind {
        Uncounted::Closed { .. } => Ok(()),
        Uncounted::Missing | Uncounted::Short { .. } => shut_gate(disk, opened.ends.commits),
    }
}
