ghost use Rattle.std.specs.Prelude.{◌≡◌, ◌⊎◌, ℕ, ◌+◌, ◌<◌, ◌≤◌, [], length, IfSome, Some};
ghost use Rattle.im_counts.specs.Counts.{Rose};
ghost use Rattle.im_edge.specs.Sources.{TakesAtMost};
ghost use Rattle.im_verify.specs.Judged.{StopsHeld};
ghost use Rattle.im_verify.specs.Runs.{BreaksAt, BreaksInto, BreaksOff, Verifies};
ghost use Rattle.im_verify.specs.declared.ended.Ended.TheVariants as ended;
ghost use Rattle.im_status.specs.Fates.{HasVerdict};
ghost use Rattle.im_status.specs.Statuses.{EndsVerify, status_ended};

use crate::status::Status;
use im_digest::Hash32;
use im_edge::keeper::Keeper;
use im_edge::sink::Sink;
use im_edge::source::Source;
use im_verify::ended::Ended;
use im_verify::verify::verify;
use std::alloc::Global;

/// Reads a stream to its end, judges its lines behind the kept ones up to the first that is forked, keeps what is accepted,
/// and tells what became of each.
pub fn verdict<H: Hash32, S: Source, K: Sink, P: Keeper>(
    alloc: Global,
    hash: &H,
    source: &mut S,
    sink: &mut K,
    keeper: &mut P,
) -> Status
    ensures accepted { result ≡ Status.Ok →
        Verifies (H.digest hash.now) ended.Ok (S.left source.old) (K.written sink.old) (K.written sink.new) (P.kept keeper.old) (P.kept keeper.new) }
    ensures refused { result ≡ Status.Refused →
        Verifies (H.digest hash.now) ended.Refused (S.left source.old) (K.written sink.old) (K.written sink.new) (P.kept keeper.old) (P.kept keeper.new) }
    ensures forked { result ≡ Status.Forked →
        Verifies (H.digest hash.now) ended.Forked (S.left source.old) (K.written sink.old) (K.written sink.new) (P.kept keeper.old) (P.kept keeper.new) }
    ensures into { result ≡ Status.WriteFault →
        BreaksInto (H.digest hash.now) (S.left source.old) (K.written sink.old) (K.written sink.new) (P.kept keeper.old) (P.kept keeper.new) }
    ensures off { result ≡ Status.Memory →
        ((K.written sink.new ≡ K.written sink.old) × (P.kept keeper.new ≡ P.kept keeper.old))
        ⊎ BreaksOff (H.digest hash.now) (S.left source.old) (K.written sink.old) (K.written sink.new) (P.kept keeper.old) (P.kept keeper.new) }
    ensures fault { result ≡ Status.KeeperFault →
        ((K.written sink.new ≡ K.written sink.old) × (P.kept keeper.new ≡ P.kept keeper.old))
        ⊎ BreaksAt (H.digest hash.now) (S.left source.old) (K.written sink.old) (K.written sink.new) (P.kept keeper.old) (P.kept keeper.new) }
    ensures nothing { (result ≡ Status.ReadFault) ⊎ ((result ≡ Status.Long) ⊎ ((k : ℕ) × (result ≡ Status.Kept k))) →
        (sink.new ≡ sink.old) × (P.kept keeper.new ≡ P.kept keeper.old) }
    ensures idle { (result ≡ Status.ReadFault) ⊎ (result ≡ Status.Long) → keeper.new ≡ keeper.old }
    ensures kept { (k : ℕ) → result ≡ Status.Kept k → StopsHeld (H.digest hash.now) (P.kept keeper.old) k }
    ensures ends { EndsVerify result }
    ensures never { result ≡ Status.Usage → ⊥ }
    ensures too_long { IfSome (S.left source.old) (λ stream. 67108864 < length stream → (sink.new ≡ sink.old) × (keeper.new ≡ keeper.old)) }
    ensures long { result ≡ Status.Long → IfSome (S.left source.old) (λ stream. 67108864 < length stream) }
    ensures emptied { (result ≡ Status.Ok) ⊎ ((result ≡ Status.WriteFault) ⊎ ((result ≡ Status.KeeperFault) ⊎ ((result ≡ Status.Refused) ⊎ ((result ≡ Status.Forked) ⊎ ((k : ℕ) × (result ≡ Status.Kept k)))))) →
        IfSome (S.left source.old) (λ _. S.left source.new ≡ Some []) }
    ensures taken { TakesAtMost 67112960 (S.left source.old) (S.left source.new) }
    ensures read { result ≡ Status.ReadFault → Rose (S.faults source.old) (S.faults source.new) }
    ensures write { result ≡ Status.WriteFault → Rose (K.faults sink.old) (K.faults sink.new) }
    ensures keep { result ≡ Status.KeeperFault → Rose (P.faults keeper.old) (P.faults keeper.new) }
    ensures source_count { (result ≡ Status.ReadFault → ⊥) → S.faults source.new ≡ S.faults source.old }
    ensures sink_count { (result ≡ Status.WriteFault → ⊥) → K.faults sink.new ≡ K.faults sink.old }
    ensures keeper_count { (result ≡ Status.KeeperFault → ⊥) → P.faults keeper.new ≡ P.faults keeper.old }
    ensures source_once { S.faults source.new ≤ S.faults source.old + 1 }
    ensures sink_once { K.faults sink.new ≤ K.faults sink.old + 1 }
    ensures keeper_once { P.faults keeper.new ≤ P.faults keeper.old + 1 }
    ensures fate { (Rose (S.faults source.old) (S.faults source.new) → ⊥) → (Rose (K.faults sink.old) (K.faults sink.new) → ⊥)
        → (Rose (P.faults keeper.old) (P.faults keeper.new) → ⊥)
        → IfSome (S.left source.old) (λ stream. IfSome (P.kept keeper.old) (HasVerdict (H.digest hash.now) result stream)) }
{
    let ended = verify(alloc, hash, source, sink, keeper);
    status_of(ended)
}

// The status of an end.
fn status_of(ended: Ended) -> Status
    ensures { result ≡ status_ended ended }
{
    match ended {
        Ended::Ok => Status::Ok,
        Ended::Refused => Status::Refused,
        Ended::Forked => Status::Forked,
        Ended::ReadFault => Status::ReadFault,
        Ended::WriteFault => Status::WriteFault,
        Ended::KeeperFault => Status::KeeperFault,
        Ended::Memory => Status::Memory,
        Ended::Long => Status::Long,
        Ended::Kept { line } => Status::Kept { line },
    }
}
