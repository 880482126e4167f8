ghost use Rattle.std.specs.Prelude.{◌≡◌, ◌⊎◌, ℕ, ◌+◌, ◌<◌, ◌≤◌, List, [], length, IfSome, Option, Some};
ghost use Rattle.im_counts.specs.Counts.{Rose};
ghost use Rattle.im_edge.specs.Sources.{TakesAtMost};
ghost use Rattle.im_verify.specs.Ends.{HasFate};
ghost use Rattle.im_verify.specs.Judged.{StopsHeld};
ghost use Rattle.im_verify.specs.Runs.{BreaksAt, BreaksInto, BreaksOff, Verifies};
ghost use Rattle.im_verify.specs.Stops.{ended_by};

use crate::ended::Ended;
use crate::kept::{KeptError, take_kept};
use crate::lines::{LineEnd, take_lines};
use crate::stops::Stop;
use im_digest::Hash32;
use im_edge::keeper::{Keeper, KeeperError};
use im_edge::sink::Sink;
use im_edge::source::{Source, SourceError, read_all};
use im_model::limits::MOST_INPUT_OCTETS;
use im_octet::octets::Octets;
use std::alloc::Global;

// Takes the lines that the keeper holds, which are these where it tells them, and then those of a stream. The client keeps places
// in both.
fn verify_behind<H: Hash32, K: Sink, P: Keeper>(
    alloc: Global,
    hash: &H,
    sink: &mut K,
    keeper: &mut P,
    lines: &[Octets],
    stream: &[u8],
) -> Ended
    requires { IfSome (P.kept keeper.old) (λ xs. lines.now ≡ xs) }
    ensures ok { (source : Option (List ℕ)) → IfSome source (λ octets. octets ≡ stream.now) → (result ≡ Ended.Ok) ⊎ (result ≡ Ended.Refused) ⊎ (result ≡ Ended.Forked) →
        Verifies (H.digest hash.now) result source (K.written sink.old) (K.written sink.new) (P.kept keeper.old) (P.kept keeper.new) }
    ensures into { (source : Option (List ℕ)) → IfSome source (λ octets. octets ≡ stream.now) → result ≡ Ended.WriteFault →
        BreaksInto (H.digest hash.now) source (K.written sink.old) (K.written sink.new) (P.kept keeper.old) (P.kept keeper.new) }
    ensures off { (source : Option (List ℕ)) → IfSome source (λ octets. octets ≡ stream.now) → result ≡ Ended.Memory →
        ((K.written sink.new ≡ K.written sink.old) × (P.kept keeper.new ≡ P.kept keeper.old))
        ⊎ BreaksOff (H.digest hash.now) source (K.written sink.old) (K.written sink.new) (P.kept keeper.old) (P.kept keeper.new) }
    ensures fault { (source : Option (List ℕ)) → IfSome source (λ octets. octets ≡ stream.now) → result ≡ Ended.KeeperFault →
        ((K.written sink.new ≡ K.written sink.old) × (P.kept keeper.new ≡ P.kept keeper.old))
        ⊎ BreaksAt (H.digest hash.now) source (K.written sink.old) (K.written sink.new) (P.kept keeper.old) (P.kept keeper.new) }
    ensures kept { (k : ℕ) → result ≡ Ended.Kept k → StopsHeld (H.digest hash.now) (P.kept keeper.old) k }
    ensures nothing { (k : ℕ) → result ≡ Ended.Kept k → (sink.new ≡ sink.old) × (P.kept keeper.new ≡ P.kept keeper.old) }
    ensures never { (result ≡ Ended.ReadFault) ⊎ (result ≡ Ended.Long) → ⊥ }
    ensures write { result ≡ Ended.WriteFault → Rose (K.faults sink.old) (K.faults sink.new) }
    ensures keep { result ≡ Ended.KeeperFault → Rose (P.faults keeper.old) (P.faults keeper.new) }
    ensures sink_count { (result ≡ Ended.WriteFault → ⊥) → K.faults sink.new ≡ K.faults sink.old }
    ensures keeper_count { (result ≡ Ended.KeeperFault → ⊥) → P.faults keeper.new ≡ P.faults keeper.old }
    ensures sink_once { K.faults sink.new ≤ K.faults sink.old + 1 }
    ensures keeper_once { P.faults keeper.new ≤ P.faults keeper.old + 1 }
{
    let mut client = match take_kept(alloc, hash, lines) {
        Ok(client) => client,
        Err(KeptError::Memory) => return Ended::Memory,
        Err(KeptError::Line(line)) => return Ended::Kept { line },
    };
    let took = take_lines(alloc, &mut client, sink, keeper, stream);
    drop(client);
    ended_by(took)
}

// How a run ends whose stream's lines were taken so.
fn ended_by(took: Result<LineEnd, Stop>) -> Ended
    ensures { result ≡ ended_by took }
{
    match took {
        Ok(LineEnd::Fine) => Ended::Ok,
        Ok(LineEnd::Refused) => Ended::Refused,
        Ok(LineEnd::Forked) => Ended::Forked,
        Err(Stop::WriteFault) => Ended::WriteFault,
        Err(Stop::KeeperFault) => Ended::KeeperFault,
        Err(Stop::Memory) => Ended::Memory,
    }
}

// Takes the lines that the keeper holds, which are held till the end, and then those of a stream.
fn verify_octets<H: Hash32, K: Sink, P: Keeper>(
    alloc: Global,
    hash: &H,
    sink: &mut K,
    keeper: &mut P,
    stream: &[u8],
) -> Ended
    ensures ok { (source : Option (List ℕ)) → IfSome source (λ octets. octets ≡ stream.now) → (result ≡ Ended.Ok) ⊎ (result ≡ Ended.Refused) ⊎ (result ≡ Ended.Forked) →
        Verifies (H.digest hash.now) result source (K.written sink.old) (K.written sink.new) (P.kept keeper.old) (P.kept keeper.new) }
    ensures into { (source : Option (List ℕ)) → IfSome source (λ octets. octets ≡ stream.now) → result ≡ Ended.WriteFault →
        BreaksInto (H.digest hash.now) source (K.written sink.old) (K.written sink.new) (P.kept keeper.old) (P.kept keeper.new) }
    ensures off { (source : Option (List ℕ)) → IfSome source (λ octets. octets ≡ stream.now) → result ≡ Ended.Memory →
        ((K.written sink.new ≡ K.written sink.old) × (P.kept keeper.new ≡ P.kept keeper.old))
        ⊎ BreaksOff (H.digest hash.now) source (K.written sink.old) (K.written sink.new) (P.kept keeper.old) (P.kept keeper.new) }
    ensures fault { (source : Option (List ℕ)) → IfSome source (λ octets. octets ≡ stream.now) → result ≡ Ended.KeeperFault →
        ((K.written sink.new ≡ K.written sink.old) × (P.kept keeper.new ≡ P.kept keeper.old))
        ⊎ BreaksAt (H.digest hash.now) source (K.written sink.old) (K.written sink.new) (P.kept keeper.old) (P.kept keeper.new) }
    ensures kept { (k : ℕ) → result ≡ Ended.Kept k → StopsHeld (H.digest hash.now) (P.kept keeper.old) k }
    ensures nothing { (k : ℕ) → result ≡ Ended.Kept k → (sink.new ≡ sink.old) × (P.kept keeper.new ≡ P.kept keeper.old) }
    ensures never { (result ≡ Ended.ReadFault) ⊎ (result ≡ Ended.Long) → ⊥ }
    ensures write { result ≡ Ended.WriteFault → Rose (K.faults sink.old) (K.faults sink.new) }
    ensures keep { result ≡ Ended.KeeperFault → Rose (P.faults keeper.old) (P.faults keeper.new) }
    ensures sink_count { (result ≡ Ended.WriteFault → ⊥) → K.faults sink.new ≡ K.faults sink.old }
    ensures keeper_count { (result ≡ Ended.KeeperFault → ⊥) → P.faults keeper.new ≡ P.faults keeper.old }
    ensures sink_once { K.faults sink.new ≤ K.faults sink.old + 1 }
    ensures keeper_once { P.faults keeper.new ≤ P.faults keeper.old + 1 }
{
    match keeper.lines(alloc) {
        Ok(lines) => verify_behind(alloc, hash, sink, keeper, lines.as_slice(), stream),
        Err(KeeperError::Failed) => Ended::KeeperFault,
        Err(KeeperError::Memory) => Ended::Memory,
    }
}

/// Reads a stream to its end, takes the lines that the keeper holds, and then judges each line of the
/// stream, by what is known behind the lines before it: a state, and each header and entry that an accepted message showed.
///
/// What became of a line is written to the sink at once, behind its number, from 1; a line that is passed over
/// writes nothing. The text of an accepted message is kept before its line is written. A refused line
/// changes nothing that is known, and the run goes on. A forked one, which passes every check but shows a fact that is
/// unlike a kept one, is told with two unequal strings of one digest, and ends the run. Nothing is written and nothing
/// kept before the stream was read and the kept lines were taken.
///
/// The stream and the kept lines are held in memory, and the client beside them: the facts, and a place in these octets for each
/// accepted message that showed something new or moved the state. No message is. Each line is read and checked once, and costs what
/// `FactClient::take_line` says; at a fork the lines of these places are read once more, and the keeper isn't asked again. The
/// sink gets the text of each line that isn't passed over, and the keeper one line for each accepted message.
pub fn verify<H: Hash32, S: Source, K: Sink, P: Keeper>(
    alloc: Global,
    hash: &H,
    source: &mut S,
    sink: &mut K,
    keeper: &mut P,
) -> Ended
    // In these records the stream is what the source held and the kept lines are those that the keeper held, where they
    // tell it, and else some.

    // Done: each line of the stream was told, up to the first fork, and each accepted message kept.
    ensures ok { (result ≡ Ended.Ok) ⊎ (result ≡ Ended.Refused) ⊎ (result ≡ Ended.Forked) →
        Verifies (H.digest hash.now) result (S.left source.old) (K.written sink.old) (K.written sink.new) (P.kept keeper.old) (P.kept keeper.new) }

    // The sink failed: the first lines were told, and the next one in part, never whole; the messages of them all are kept.
    ensures into { result ≡ Ended.WriteFault →
        BreaksInto (H.digest hash.now) (S.left source.old) (K.written sink.old) (K.written sink.new) (P.kept keeper.old) (P.kept keeper.new) }

    // Memory ran out: nothing was done, or the first lines were told and kept.
    ensures off { result ≡ Ended.Memory →
        ((K.written sink.new ≡ K.written sink.old) × (P.kept keeper.new ≡ P.kept keeper.old))
        ⊎ BreaksOff (H.digest hash.now) (S.left source.old) (K.written sink.old) (K.written sink.new) (P.kept keeper.old) (P.kept keeper.new) }

    // The keeper failed: nothing was done, or the first lines were told and kept, before one that is accepted.
    ensures fault { result ≡ Ended.KeeperFault →
        ((K.written sink.new ≡ K.written sink.old) × (P.kept keeper.new ≡ P.kept keeper.old))
        ⊎ BreaksAt (H.digest hash.now) (S.left source.old) (K.written sink.old) (K.written sink.new) (P.kept keeper.old) (P.kept keeper.new) }

    // Else nothing was done.
    ensures nothing { (result ≡ Ended.ReadFault) ⊎ (result ≡ Ended.Long) ⊎ ((k : ℕ) × (result ≡ Ended.Kept k)) →
        (sink.new ≡ sink.old) × (P.kept keeper.new ≡ P.kept keeper.old) }
    ensures idle { (result ≡ Ended.ReadFault) ⊎ (result ≡ Ended.Long) → keeper.new ≡ keeper.old }

    // A stream past its limit touches neither the sink nor the keeper, at any end.
    ensures too_long { IfSome (S.left source.old) (λ stream. 67108864 < length stream → (sink.new ≡ sink.old) × (keeper.new ≡ keeper.old)) }

    // The first kept line that is refused or forked.
    ensures kept { (k : ℕ) → result ≡ Ended.Kept k → StopsHeld (H.digest hash.now) (P.kept keeper.old) k }

    // The stream is read to its end, within its limit, before anything else is done.
    ensures long { result ≡ Ended.Long → IfSome (S.left source.old) (λ stream. 67108864 < length stream) }
    ensures short { (result ≡ Ended.ReadFault → ⊥) → (result ≡ Ended.Long → ⊥) → (result ≡ Ended.Memory → ⊥) →
        IfSome (S.left source.old) (λ stream. length stream ≤ 67108864) }
    ensures emptied { (result ≡ Ended.ReadFault → ⊥) → (result ≡ Ended.Long → ⊥) → (result ≡ Ended.Memory → ⊥) →
        IfSome (S.left source.old) (λ _. S.left source.new ≡ Some []) }

    // At every end a front part of the stream was taken, at most one take (4096 octets) past the limit.
    ensures part { TakesAtMost 67112960 (S.left source.old) (S.left source.new) }

    // A fault comes only where its count rose, and no count rises otherwise.
    ensures read { result ≡ Ended.ReadFault → Rose (S.faults source.old) (S.faults source.new) }
    ensures write { result ≡ Ended.WriteFault → Rose (K.faults sink.old) (K.faults sink.new) }
    ensures keep { result ≡ Ended.KeeperFault → Rose (P.faults keeper.old) (P.faults keeper.new) }
    ensures source_count { (result ≡ Ended.ReadFault → ⊥) → S.faults source.new ≡ S.faults source.old }
    ensures sink_count { (result ≡ Ended.WriteFault → ⊥) → K.faults sink.new ≡ K.faults sink.old }
    ensures keeper_count { (result ≡ Ended.KeeperFault → ⊥) → P.faults keeper.new ≡ P.faults keeper.old }

    // At every end each of the three counts rose by at most one.
    ensures source_once { S.faults source.new ≤ S.faults source.old + 1 }
    ensures sink_once { K.faults sink.new ≤ K.faults sink.old + 1 }
    ensures keeper_once { P.faults keeper.new ≤ P.faults keeper.old + 1 }

    // No fault: what the source and the keeper hold decides, or memory is wanted.
    ensures complete { (Rose (S.faults source.old) (S.faults source.new) → ⊥)
        → (Rose (K.faults sink.old) (K.faults sink.new) → ⊥) → (Rose (P.faults keeper.old) (P.faults keeper.new) → ⊥)
        → IfSome (S.left source.old) (λ stream. IfSome (P.kept keeper.old) (HasFate (H.digest hash.now) result stream)) }
{
    match read_all(alloc, source, MOST_INPUT_OCTETS) {
        Ok(stream) => verify_octets(alloc, hash, sink, keeper, stream.as_slice()),
        Err(SourceError::Memory) => Ended::Memory,
        Err(SourceError::Failed) => Ended::ReadFault,
        Err(SourceError::Long) => Ended::Long,
    }
}
