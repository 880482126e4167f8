ghost use Rattle.std.specs.Prelude.{◌≡◌, ◌⊎◌, ℕ, ◌+◌, ◌≤◌, IfSome};
ghost use Rattle.im_counts.specs.Counts.{Rose};
ghost use Rattle.im_verify.specs.Judged.{StopsHeld};
ghost use Rattle.im_verify.specs.Shows.{Shows, ShowsPart};
ghost use Rattle.im_status.specs.Fates.{HasShow};
ghost use Rattle.im_status.specs.Statuses.{EndsShow, status_shown};

use crate::status::Status;
use im_digest::Hash32;
use im_edge::keeper::Keeper;
use im_edge::sink::Sink;
use im_verify::show::{ShowEnd, show};
use std::alloc::Global;

/// Takes the lines that the keeper holds, and writes the state and the facts behind them.
pub fn shown<H: Hash32, K: Sink, P: Keeper>(
    alloc: Global,
    hash: &H,
    sink: &mut K,
    keeper: &mut P,
) -> Status
    ensures ok { result ≡ Status.Ok → Shows (H.digest hash.now) (P.kept keeper.old) (K.written sink.old) (K.written sink.new) }
    ensures part { result ≡ Status.WriteFault → ShowsPart (H.digest hash.now) (P.kept keeper.old) (K.written sink.old) (K.written sink.new) }
    ensures nothing { (result ≡ Status.KeeperFault) ⊎ ((result ≡ Status.Memory) ⊎ ((k : ℕ) × (result ≡ Status.Kept k))) → sink.new ≡ sink.old }
    ensures stops { (k : ℕ) → result ≡ Status.Kept k → StopsHeld (H.digest hash.now) (P.kept keeper.old) k }
    ensures kept { P.kept keeper.new ≡ P.kept keeper.old }
    ensures ends { EndsShow result }
    ensures never { result ≡ Status.Usage → ⊥ }
    ensures write { result ≡ Status.WriteFault → Rose (K.faults sink.old) (K.faults sink.new) }
    ensures keep { result ≡ Status.KeeperFault → Rose (P.faults keeper.old) (P.faults keeper.new) }
    ensures sink_count { (result ≡ Status.WriteFault → ⊥) → K.faults sink.new ≡ K.faults sink.old }
    ensures keeper_count { (result ≡ Status.KeeperFault → ⊥) → P.faults keeper.new ≡ P.faults keeper.old }
    ensures sink_once { K.faults sink.new ≤ K.faults sink.old + 1 }
    ensures keeper_once { P.faults keeper.new ≤ P.faults keeper.old + 1 }
    ensures fate { (Rose (K.faults sink.old) (K.faults sink.new) → ⊥) → (Rose (P.faults keeper.old) (P.faults keeper.new) → ⊥)
        → IfSome (P.kept keeper.old) (HasShow (H.digest hash.now) result) }
{
    let end = show(alloc, hash, sink, keeper);
    status_of(end)
}

// The status of an end.
fn status_of(end: ShowEnd) -> Status
    ensures { result ≡ status_shown end }
{
    match end {
        ShowEnd::Ok => Status::Ok,
        ShowEnd::WriteFault => Status::WriteFault,
        ShowEnd::KeeperFault => Status::KeeperFault,
        ShowEnd::Memory => Status::Memory,
        ShowEnd::Kept { line } => Status::Kept { line },
    }
}
