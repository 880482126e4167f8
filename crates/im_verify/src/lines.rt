ghost use Rattle.std.specs.Prelude.{◌≡◌, ◌⊎◌, ◌↔◌, ◌++◌, ◌+◌, ◌≤◌, Err, IfOk, OnOk, OnErr, IsTrue, option_copied};
ghost use Rattle.std.specs.Option.{option_map};
ghost use Rattle.im_counts.specs.Counts.{Rose};
ghost use Rattle.im_facts.specs.Facts.{Known};
ghost use Rattle.im_facts.specs.Folds.{IsVerdict};
ghost use Rattle.im_facts.specs.Keeping.{IsLed, Knows};
ghost use Rattle.im_facts.specs.Texts.{taken_line};
ghost use Rattle.im_facts.specs.Verdicts.{Accepted};
ghost use Rattle.im_wire.specs.declared.messages.Message.{Message as TheMessage};
ghost use Rattle.im_verify.specs.Turns.{done, end_by, end_of, message_text, WritesAndKeeps, AddsPart, HalfTurn, TakesAll, TakesAt, TakesInto, TakesSome, LineTurn};

use crate::stops::Stop;
use im_digest::Hash32;
use im_edge::keeper::Keeper;
use im_edge::sink::{Sink, write_all};
use im_facts::clients::FactClient;
use im_facts::taken::{LineTaking, Taken};
use im_facts::texts::taken_text;
use im_text::cuts::first_line;
use im_wire::messages::Message;
use im_wire::writing::write;
use std::alloc::Global;

/// How a line ended, or all lines of a stream.
#[derive(Clone, Copy)]
pub(crate) enum LineEnd {
    /// It was passed over or accepted; of a stream, each line was.
    Fine,
    /// It was refused; of a stream, some line was, and none forked.
    Refused,
    /// It was forked; of a stream, a line was, and those behind it weren't looked at.
    Forked,
}

// How a line ends, by the client's answer to it.
fn end_of(taken: &Option<Taken>) -> LineEnd
    ensures { result ≡ end_of taken.now }
{
    match taken {
        None | Some(Taken::Accepted { .. }) => LineEnd::Fine,
        Some(Taken::Refused { .. }) => LineEnd::Refused,
        Some(Taken::Forked { .. }) => LineEnd::Forked,
    }
}

// Whether it is a fork.
fn is_forked(end: LineEnd) -> bool
    ensures { IsTrue result ↔ (end ≡ LineEnd.Forked) }
{
    matches!(end, LineEnd::Forked)
}

// Whether it is a refusal.
fn is_refused(end: LineEnd) -> bool
    ensures { IsTrue result ↔ (end ≡ LineEnd.Refused) }
{
    matches!(end, LineEnd::Refused)
}

// How lines end of which none was forked, by whether one was refused.
fn end_by(refused: bool) -> LineEnd
    ensures { result ≡ end_by refused }
{
    if refused {
        LineEnd::Refused
    } else {
        LineEnd::Fine
    }
}

// Keeps the text of an accepted message, if there is one. A failure of the keeper comes only where there is.
fn keep<P: Keeper>(alloc: Global, keeper: &mut P, message: Option<&Message>) -> Result<(), Stop>
    ensures ok { OnOk result (P.kept keeper.new ≡ option_map (λ xs. xs ++ message_text (option_copied message.entry)) (P.kept keeper.old)) }
    ensures err { OnErr result (P.kept keeper.new ≡ P.kept keeper.old) }
    ensures sink { result ≡ Err Stop.WriteFault → ⊥ }
    ensures accepted { result ≡ Err Stop.KeeperFault → (next : TheMessage) × (option_copied message.entry ≡ Some next) }
    ensures fault { result ≡ Err Stop.KeeperFault → Rose (P.faults keeper.old) (P.faults keeper.new) }
    ensures count { (result ≡ Err Stop.KeeperFault → ⊥) → P.faults keeper.new ≡ P.faults keeper.old }
    ensures once { P.faults keeper.new ≤ P.faults keeper.old + 1 }
{
    let Some(message) = message else {
        return Ok(());
    };
    let text = write(alloc, message)?;
    keeper.append(text.as_slice())?;
    Ok(())
}

// Keeps the text of an accepted message, if there is one, then tells the client's answer, and says how the line ended. An
// error of the keeper or of memory comes before anything is done.
fn keep_and_tell<K: Sink, P: Keeper>(
    alloc: Global,
    sink: &mut K,
    keeper: &mut P,
    number: u64,
    taken: &Option<Taken>,
    message: Option<&Message>,
) -> Result<LineEnd, Stop>
    ensures end { IfOk result (λ end. end ≡ end_of taken.now) }
    ensures ok { OnOk result (WritesAndKeeps (taken_line number taken.now) (message_text (option_copied message.entry))
        (done (K.written sink.old) (P.kept keeper.old)) (done (K.written sink.new) (P.kept keeper.new))) }
    ensures part { result ≡ Err Stop.WriteFault → AddsPart (taken_line number taken.now) (message_text (option_copied message.entry))
        (done (K.written sink.old) (P.kept keeper.old)) (done (K.written sink.new) (P.kept keeper.new)) }
    ensures nothing { (result ≡ Err Stop.KeeperFault) ⊎ (result ≡ Err Stop.Memory) →
        (K.written sink.new ≡ K.written sink.old) × (P.kept keeper.new ≡ P.kept keeper.old) }
    ensures accepted { result ≡ Err Stop.KeeperFault → (next : TheMessage) × (option_copied message.entry ≡ Some next) }
    ensures write { result ≡ Err Stop.WriteFault → Rose (K.faults sink.old) (K.faults sink.new) }
    ensures keep { result ≡ Err Stop.KeeperFault → Rose (P.faults keeper.old) (P.faults keeper.new) }
    ensures sink_count { (result ≡ Err Stop.WriteFault → ⊥) → K.faults sink.new ≡ K.faults sink.old }
    ensures keeper_count { (result ≡ Err Stop.KeeperFault → ⊥) → P.faults keeper.new ≡ P.faults keeper.old }
    ensures sink_once { K.faults sink.new ≤ K.faults sink.old + 1 }
    ensures keeper_once { P.faults keeper.new ≤ P.faults keeper.old + 1 }
{
    let told = taken_text(alloc, number, taken)?;
    keep(alloc, keeper, message)?;
    write_all(sink, told.as_slice())?;
    Ok(end_of(taken))
}

// Takes a line, keeps and tells what became of it, and says how it ended. Where memory runs out or the keeper fails, the
// client may have taken the message by then.
fn take_line<'l, H: Hash32, K: Sink, P: Keeper>(
    alloc: Global,
    client: &mut FactClient<'_, 'l, H>,
    sink: &mut K,
    keeper: &mut P,
    number: u64,
    line: &'l [u8],
) -> Result<LineEnd, Stop>
    requires { IsLed (H.digest client.old.hash) client.old.kept }
    ensures ok { IfOk result (λ end. (known : Known) → Knows client.old.kept known → (next : Known) × Knows client.new.kept next
        × LineTurn (H.digest client.old.hash) number line.now end known next
        (done (K.written sink.old) (P.kept keeper.old)) (done (K.written sink.new) (P.kept keeper.new))) }
    ensures led { IsLed (H.digest client.new.hash) client.new.kept }
    ensures hash { client.new.hash ≡ client.old.hash }
    ensures part { result ≡ Err Stop.WriteFault → (known : Known) → Knows client.old.kept known → HalfTurn (H.digest client.old.hash) number line.now known
        (done (K.written sink.old) (P.kept keeper.old)) (done (K.written sink.new) (P.kept keeper.new)) }
    ensures nothing { (result ≡ Err Stop.KeeperFault) ⊎ (result ≡ Err Stop.Memory) →
        (K.written sink.new ≡ K.written sink.old) × (P.kept keeper.new ≡ P.kept keeper.old) }
    ensures accepted { result ≡ Err Stop.KeeperFault → (known : Known) → Knows client.old.kept known →
        (next : TheMessage) × IsVerdict (H.digest client.old.hash) known line.now (Accepted next) }
    ensures write { result ≡ Err Stop.WriteFault → Rose (K.faults sink.old) (K.faults sink.new) }
    ensures keep { result ≡ Err Stop.KeeperFault → Rose (P.faults keeper.old) (P.faults keeper.new) }
    ensures sink_count { (result ≡ Err Stop.WriteFault → ⊥) → K.faults sink.new ≡ K.faults sink.old }
    ensures keeper_count { (result ≡ Err Stop.KeeperFault → ⊥) → P.faults keeper.new ≡ P.faults keeper.old }
    ensures sink_once { K.faults sink.new ≤ K.faults sink.old + 1 }
    ensures keeper_once { P.faults keeper.new ≤ P.faults keeper.old + 1 }
{
    let taking = client.take_line_out(alloc, line)?;
    let LineTaking { taken, accepted } = taking;
    let end = keep_and_tell(alloc, sink, keeper, number, &taken, accepted.as_ref());
    drop(taken);
    drop(accepted);
    end
}

/// Takes the lines of a stream in order, up to the first that is forked, keeps and tells what became of each, and says how
/// they ended. Lines are numbered from 1, and empty ones count. The client keeps places in the stream.
pub(crate) fn take_lines<'l, H: Hash32, K: Sink, P: Keeper>(
    alloc: Global,
    client: &mut FactClient<'_, 'l, H>,
    sink: &mut K,
    keeper: &mut P,
    stream: &'l [u8],
) -> Result<LineEnd, Stop>
    requires { IsLed (H.digest client.old.hash) client.old.kept }
    ensures ok { IfOk result (λ end. (known : Known) → Knows client.old.kept known → TakesAll (H.digest client.old.hash) known stream.now end
        (done (K.written sink.old) (P.kept keeper.old)) (done (K.written sink.new) (P.kept keeper.new))) }
    ensures into { result ≡ Err Stop.WriteFault → (known : Known) → Knows client.old.kept known → TakesInto (H.digest client.old.hash) known stream.now
        (done (K.written sink.old) (P.kept keeper.old)) (done (K.written sink.new) (P.kept keeper.new)) }
    ensures some { result ≡ Err Stop.Memory → (known : Known) → Knows client.old.kept known → TakesSome (H.digest client.old.hash) known stream.now
        (done (K.written sink.old) (P.kept keeper.old)) (done (K.written sink.new) (P.kept keeper.new)) }
    ensures accepted { result ≡ Err Stop.KeeperFault → (known : Known) → Knows client.old.kept known → TakesAt (H.digest client.old.hash) known stream.now
        (done (K.written sink.old) (P.kept keeper.old)) (done (K.written sink.new) (P.kept keeper.new)) }
    ensures write { result ≡ Err Stop.WriteFault → Rose (K.faults sink.old) (K.faults sink.new) }
    ensures keep { result ≡ Err Stop.KeeperFault → Rose (P.faults keeper.old) (P.faults keeper.new) }
    ensures sink_count { (result ≡ Err Stop.WriteFault → ⊥) → K.faults sink.new ≡ K.faults sink.old }
    ensures keeper_count { (result ≡ Err Stop.KeeperFault → ⊥) → P.faults keeper.new ≡ P.faults keeper.old }
    ensures sink_once { K.faults sink.new ≤ K.faults sink.old + 1 }
    ensures keeper_once { P.faults keeper.new ≤ P.faults keeper.old + 1 }
{
    let mut rest = stream;
    let mut number = 0;
    let mut refused = false;
    while !rest.is_empty() {
        let (line, behind) = first_line(rest);
        number += 1;
        let end = take_line(alloc, client, sink, keeper, number, line)?;
        if is_forked(end) {
            return Ok(LineEnd::Forked);
        }
        refused |= is_refused(end);
        rest = behind;
    }
    Ok(end_by(refused))
}
