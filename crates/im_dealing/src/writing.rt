//! The replies of a phase are written, in the script's order.

ghost use Rattle.std.specs.Prelude.{◌≡◌, ◌<◌, ◌≤◌, ◌+◌, ℕ, [], length, take, OnErr, OnOk, slice_index_or, List};
ghost use Rattle.std.specs.List.{All, flat_map};
ghost use Rattle.std.specs.Io.KnownBytes.{Appends};
ghost use Rattle.im_counts.specs.Counts.{Rose};
ghost use Rattle.im_dealing.specs.Phases.{EndsPhase};
ghost use Rattle.im_dealing.specs.Scripts.{EndsBy, WritesPhase};
ghost use Rattle.im_dealing.specs.Written.{first_texts, stop_of};
ghost use Rattle.im_report.specs.Outcomes.{Outcome};
ghost use Rattle.im_report.specs.Sessions.{phase_text};

use crate::errors::{LineError, Stopped};
use crate::sessions::{Ended, Played};
use im_edge::sink::{Sink, WriteFault, write_all};

/// How far the replies of a phase go, in the script's order.
#[derive(Drop)]
pub(crate) struct Front {
    /// How many lines stand before the first without a reply.
    pub(crate) count: usize,
    /// Why that line has none, where there is one.
    pub(crate) why: Option<LineError>,
}

/// How far the replies of the sessions go: up to the first line, in the script's order, whose session has no more.
pub(crate) fn front_of(order: &[u8], ended: &[Ended]) -> Front
    requires few { All (λ number. number < length ended.now) order.now × (length ended.now ≤ 8) }
    ensures within { result.count ≤ length order.now }
    ensures many { length (first_texts order.now ended.now) ≡ result.count }
    ensures why { result.why ≡ stop_of order.now ended.now }
{
    let mut next = [0usize; 8];
    for (count, number) in order.iter().enumerate() {
        let at = *number as usize;
        if next[at] >= ended[at].texts.as_slice().len() {
            return Front {
                count,
                why: ended[at].why,
            };
        }
        next[at] += 1;
    }
    Front {
        count: order.len(),
        why: None,
    }
}

/// Writes the texts of the first lines, in the script's order. Nothing is copied.
pub(crate) fn write_front<K: Sink>(
    sink: &mut K,
    order: &[u8],
    ended: &[Ended],
) -> Result<(), WriteFault>
    requires few { All (λ number. number < length ended.now) order.now × (length ended.now ≤ 8) }
    requires many { length (first_texts order.now ended.now) ≡ length order.now }
    ensures whole { OnOk result (Appends (K.written sink.old) (K.written sink.new) (flat_map (λ text. text) (first_texts order.now ended.now))) }
    ensures unfinished { OnErr result ((n : ℕ) × (n < length (flat_map (λ text. text) (first_texts order.now ended.now)))
        × Appends (K.written sink.old) (K.written sink.new) (take n (flat_map (λ text. text) (first_texts order.now ended.now)))) }
    ensures failed { OnErr result (Rose (K.faults sink.old) (K.faults sink.new)) }
    ensures once { K.faults sink.new ≤ K.faults sink.old + 1 }
    ensures later { K.faults sink.old ≤ K.faults sink.new }
    ensures same { OnOk result (K.faults sink.new ≡ K.faults sink.old) }
{
    let mut next = [0usize; 8];
    for number in order {
        let at = *number as usize;
        write_all(sink, text_at(&ended[at], next[at]))?;
        next[at] += 1;
    }
    Ok(())
}

// The text of a session's reply, by its number from 0.
fn text_at(ended: &Ended, number: usize) -> &[u8]
    requires { number < length ended.now.texts }
    ensures { result.now ≡ slice_index_or ended.now.texts number [] }
{
    ended.texts.as_slice()[number].as_slice()
}

/// Writes what a phase was answered, up to the first line without a reply, which ends the script.
pub fn tell<K: Sink>(sink: &mut K, played: Played) -> Result<(), Stopped>
    requires few { All (λ number. number < length played.ended.items) played.order.items × (length played.ended.items ≤ 8) }
    ensures wrote { (outcomes : List Outcome) → flat_map (λ text. text) (first_texts played.order.items played.ended.items) ≡ phase_text outcomes
        → EndsPhase outcomes (stop_of played.order.items played.ended.items)
        → WritesPhase outcomes (K.written sink.old) (K.written sink.new) (K.faults sink.old) (K.faults sink.new) result }
    ensures by { EndsBy (stop_of played.order.items played.ended.items) result }
{
    let Played { order, ended } = played;
    let lines = order.as_slice();
    let sessions = ended.as_slice();
    let Front { count, why } = front_of(lines, sessions);
    let wrote = write_front(sink, &lines[..count], sessions);
    drop(order);
    drop(ended);
    match why {
        Some(why) => Err(Stopped::Line(why)),
        None => match wrote {
            Ok(()) => Ok(()),
            Err(WriteFault) => Err(Stopped::Write),
        },
    }
}
