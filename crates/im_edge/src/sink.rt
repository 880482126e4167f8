ghost use Rattle.std.specs.Prelude.{◌≡◌, ℕ, ◌<◌, ◌≤◌, ◌+◌, List, length, take, OnOk, OnErr, Option};
ghost use Rattle.std.specs.Io.KnownBytes.{Appends};
ghost use Rattle.im_counts.specs.Counts.{Rose};
ghost use Rattle.im_edge.specs.Sinks.{Gives, GiveCause, AddsPart};

use std::io::Write;

/// What a give answers.
#[derive(Clone, Copy, Debug, PartialEq, Eq)]
pub enum Given {
    /// So many octets of the piece were taken, at least one where there is one.
    Gave(usize),
    /// The sink failed, and was counted.
    Failed,
}

/// A sink of octets, which are added at the end.
///
/// # Thread safety
///
/// None is claimed. Each call takes the sink by `&mut`, so one caller at a time holds it.
///
/// # Invariants
///
/// Where what was written is told (`written`), no call changes or drops an octet of it. The count of failures
/// (`faults`) never falls.
pub trait Sink {
    /// The octets that were written, where the sink tells them.
    ghost written: { Self → Option (List ℕ) };

    /// How often it has failed.
    ghost faults: { Self → ℕ };

    /// Gives the sink octets from the front of `piece`, and says how many it took. `Failed` gives
    /// it nothing.
    fn give(&mut self, piece: &[u8]) -> Given
        ensures octets { Gives result piece.now (written self.old) (written self.new) }
        ensures cause { GiveCause result (faults self.old) (faults self.new) };
}

/// A sink failed.
#[derive(Clone, Copy, Debug, PartialEq, Eq)]
pub struct WriteFault;

/// Writes a text. After a fault a front part of it is written. It copies nothing: each give
/// gets all that is left.
pub fn write_all<K: Sink>(sink: &mut K, text: &[u8]) -> Result<(), WriteFault>
    ensures whole { OnOk result (Appends (K.written sink.old) (K.written sink.new) text.now) }
    ensures part { AddsPart text.now (K.written sink.old) (K.written sink.new) }
    ensures unfinished { OnErr result ((n : ℕ) × (n < length text.now) × Appends (K.written sink.old) (K.written sink.new) (take n text.now)) }

    ensures failed { OnErr result (Rose (K.faults sink.old) (K.faults sink.new)) }
    ensures once { K.faults sink.new ≤ K.faults sink.old + 1 }
    ensures later { K.faults sink.old ≤ K.faults sink.new }
    ensures same { OnOk result (K.faults sink.new ≡ K.faults sink.old) }
{
    let mut at = 0;
    while at < text.len() {
        match sink.give(&text[at..]) {
            Given::Gave(n) => at += n,
            Given::Failed => return Err(WriteFault),
        }
    }
    Ok(())
}

/// A writer of std as a sink. Each error of the writer is a failure, an interrupted write too, and
/// so is a write that takes nothing of a piece that isn't empty.
#[derive(Drop)]
pub struct Writing<W> {
    /// The writer.
    pub inner: W,
    /// How often it has failed, at most `u64::MAX`.
    pub failures: u64,
}

impl<W: Write> Writing<W> {
    ghost use Rattle.std.specs.Prelude.{◌≡◌};

    /// A writer that hasn't failed yet.
    pub fn new(inner: W) -> Self
        ensures inner { result.inner ≡ inner }
        ensures failures { result.failures ≡ 0 }
    {
        Writing { inner, failures: 0 }
    }
}

impl<W: Write> Sink for Writing<W> {
    ghost written = { λ sink. W.contents sink.inner };

    ghost faults = { λ sink. sink.failures };

    fn give(&mut self, piece: &[u8]) -> Given {
        if piece.is_empty() {
            return Given::Gave(0);
        }
        match self.inner.write(piece) {
            Ok(n) if n > 0 => Given::Gave(n),
            _ => {
                self.failures = self.failures.saturating_add(1);
                Given::Failed
            }
        }
    }
}
