ghost use Rattle.std.specs.Prelude.{◌≡◌, length};
ghost use Rattle.im_journal.specs.Kept.{step_behind};

use crate::ends::Ends;
use im_format::spans::Span;

/// How far a batch is.
///
/// A crash before `Gated` leaves the disk without the batch; from `Gated` on, without it or with it, until the
/// second sync is done and the journal is `Idle` again.
#[derive(Clone, Copy, Debug, PartialEq, Eq)]
pub enum Step {
    /// No batch is in progress.
    Idle,
    /// Its pieces are being written, behind a closed gate.
    Staging,
    /// Its pieces are written.
    Staged,
    /// Its pieces are durable.
    Sealed,
    /// Its gate is open, which is not yet durable.
    Gated,
}

/// The batch in progress, if any.
#[derive(Drop)]
pub(crate) struct Batch {
    /// How far it is.
    pub(crate) step: Step,
    /// Its writes but for the gate's, in order.
    pub(crate) pieces: Vec<Span>,
    /// How many of them are done.
    pub(crate) written: usize,
    /// Where each file ends behind it.
    pub(crate) ends: Ends,
    /// The number of its transactions.
    pub(crate) count: u64,
}

/// How far a batch is by its pieces that are written.
pub(crate) fn step_behind(batch: &Batch) -> Step
    ensures { result ≡ step_behind batch.now.written (length batch.now.pieces.items) }
{
    if batch.written < batch.pieces.len() {
        Step::Staging
    } else {
        Step::Staged
    }
}
