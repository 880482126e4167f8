// The device calls of a batch, one a function.
ghost use Rattle.std.specs.Prelude.{◌≡◌, ◌<◌, ◌≤◌, ◌+◌, ◌^◌, ◌++◌, ◌∷◌, [], ℕ, List, length, OnErr, OnOk, IfSome, IsErrOf, All, take, drop};
ghost use Rattle.im_disk.specs.Disk.{LiesWithin};
ghost use Rattle.im_disk.specs.Causes.{HasCause};
ghost use Rattle.im_disk.specs.Moments.{Leaves};
ghost use Rattle.im_format.specs.declared.spans.Span.{Span};
ghost use Rattle.im_disk.specs.declared.calls.Call.TheVariants.{Wrote, Synced};
ghost use Rattle.im_journal.specs.Made.{Makes, writes_of};
ghost use Rattle.im_journal.specs.Phases.{FitsDisk, IsSafe, IsStaging, IsSealed, IsEither, IsGated, IsDone, ReadsAll};

use im_alog::laying::{put, sync};
use im_disk::disk::{Disk, DiskError};
use im_format::files::COMMIT_LOG;
use im_format::spans::Span;

/// Writes the next piece of a batch.
fn put_piece<D: Disk>(disk: &mut D, piece: &Span) -> Result<(), DiskError>
    requires file { piece.now.file < 16 }
    requires within { LiesWithin (D.told disk.old) piece.now.file piece.now.at 0 }
    requires end { piece.now.at < 2 ^ 62 }
    ensures ok { (ends : ℕ → ℕ) (spans : List Span) (gate : ℕ) (pieces left : List Span)
        → IfSome (D.told disk.old) (IsStaging ends spans gate pieces (piece.now ∷ left))
        → OnOk result (IfSome (D.told disk.new) (IsStaging ends spans gate (pieces ++ piece.now ∷ []) left)) }
    ensures any_moment { (ends : ℕ → ℕ) (spans : List Span) (gate : ℕ) (pieces left : List Span)
        → IfSome (D.told disk.old) (IsStaging ends spans gate pieces (piece.now ∷ left))
        → Leaves (IsSafe ends spans gate) (D.told disk.old) (D.told disk.new) }
    ensures here { (ends : ℕ → ℕ) (spans : List Span) (gate : ℕ) (pieces left : List Span)
        → IfSome (D.told disk.old) (IsStaging ends spans gate pieces (piece.now ∷ left)) → IfSome (D.told disk.new) (ReadsAll spans) }
    ensures memory { IsErrOf result DiskError.Memory → D.told disk.new ≡ D.told disk.old }
    ensures calls { Makes DiskError.Failed DiskError.Memory (writes_of (piece.now ∷ [])) (writes_of (piece.now ∷ [])) (D.told disk.old) (D.told disk.new) result }
    ensures cause { HasCause (D.faults disk.old) (D.faults disk.new) result }
{
    put(disk, piece)
}

/// Writes the next piece of a batch, and counts it.
pub(crate) fn put_next<D: Disk>(
    disk: &mut D,
    pieces: &[Span],
    written: &mut usize,
) -> Result<(), DiskError>
    requires left { written.old < length pieces.now }
    requires fit { All FitsDisk pieces.now }
    requires staging { (ends : ℕ → ℕ) × (spans : List Span) × (gate : ℕ)
        × IfSome (D.told disk.old) (IsStaging ends spans gate (take written.old pieces.now) (drop written.old pieces.now)) }
    ensures ok { (ends : ℕ → ℕ) (spans : List Span) (gate : ℕ)
        → IfSome (D.told disk.old) (IsStaging ends spans gate (take written.old pieces.now) (drop written.old pieces.now))
        → OnOk result (IfSome (D.told disk.new) (IsStaging ends spans gate (take (written.old + 1) pieces.now) (drop (written.old + 1) pieces.now))) }
    ensures again { (ends : ℕ → ℕ) (spans : List Span) (gate : ℕ)
        → IfSome (D.told disk.old) (IsStaging ends spans gate (take written.old pieces.now) (drop written.old pieces.now))
        → IsErrOf result DiskError.Memory
        → IfSome (D.told disk.new) (IsStaging ends spans gate (take written.new pieces.now) (drop written.new pieces.now)) }
    ensures any_moment { (ends : ℕ → ℕ) (spans : List Span) (gate : ℕ)
        → IfSome (D.told disk.old) (IsStaging ends spans gate (take written.old pieces.now) (drop written.old pieces.now))
        → Leaves (IsSafe ends spans gate) (D.told disk.old) (D.told disk.new) }
    ensures here { (ends : ℕ → ℕ) (spans : List Span) (gate : ℕ)
        → IfSome (D.told disk.old) (IsStaging ends spans gate (take written.old pieces.now) (drop written.old pieces.now))
        → IfSome (D.told disk.new) (ReadsAll spans) }
    ensures one { OnOk result (written.new ≡ written.old + 1) }
    ensures none { OnErr result (written.new ≡ written.old) }
    ensures within { written.new ≤ length pieces.now }
    ensures calls { Makes DiskError.Failed DiskError.Memory (writes_of (take 1 (drop written.old pieces.now))) (writes_of (take 1 (drop written.old pieces.now))) (D.told disk.old) (D.told disk.new) result }
    ensures cause { HasCause (D.faults disk.old) (D.faults disk.new) result }
{
    match put_piece(disk, &pieces[*written]) {
        Ok(()) => {
            *written += 1;
            Ok(())
        }
        Err(error) => Err(error),
    }
}

/// Writes what is left of the pieces of a batch.
pub(crate) fn put_pieces<D: Disk>(
    disk: &mut D,
    pieces: &[Span],
    written: &mut usize,
) -> Result<(), DiskError>
    requires start { written.old ≤ length pieces.now }
    requires fit { All FitsDisk pieces.now }
    requires staging { (ends : ℕ → ℕ) × (spans : List Span) × (gate : ℕ)
        × IfSome (D.told disk.old) (IsStaging ends spans gate (take written.old pieces.now) (drop written.old pieces.now)) }
    ensures ok { (ends : ℕ → ℕ) (spans : List Span) (gate : ℕ)
        → IfSome (D.told disk.old) (IsStaging ends spans gate (take written.old pieces.now) (drop written.old pieces.now))
        → OnOk result (IfSome (D.told disk.new) (IsStaging ends spans gate pieces.now [])) }
    ensures again { (ends : ℕ → ℕ) (spans : List Span) (gate : ℕ)
        → IfSome (D.told disk.old) (IsStaging ends spans gate (take written.old pieces.now) (drop written.old pieces.now))
        → IsErrOf result DiskError.Memory
        → IfSome (D.told disk.new) (IsStaging ends spans gate (take written.new pieces.now) (drop written.new pieces.now)) }
    ensures any_moment { (ends : ℕ → ℕ) (spans : List Span) (gate : ℕ)
        → IfSome (D.told disk.old) (IsStaging ends spans gate (take written.old pieces.now) (drop written.old pieces.now))
        → Leaves (IsSafe ends spans gate) (D.told disk.old) (D.told disk.new) }
    ensures here { (ends : ℕ → ℕ) (spans : List Span) (gate : ℕ)
        → IfSome (D.told disk.old) (IsStaging ends spans gate (take written.old pieces.now) (drop written.old pieces.now))
        → IfSome (D.told disk.new) (ReadsAll spans) }
    ensures forth { written.old ≤ written.new }
    ensures within { written.new ≤ length pieces.now }
    ensures all { OnOk result (written.new ≡ length pieces.now) }
    ensures calls { Makes DiskError.Failed DiskError.Memory (writes_of (drop written.old pieces.now)) (writes_of (drop written.new pieces.now)) (D.told disk.old) (D.told disk.new) result }
    ensures cause { HasCause (D.faults disk.old) (D.faults disk.new) result }
{
    while *written < pieces.len() {
        match put_piece(disk, &pieces[*written]) {
            Ok(()) => {}
            Err(error) => return Err(error),
        }
        *written += 1;
    }
    Ok(())
}

/// Makes the pieces of a batch durable.
pub(crate) fn seal_pieces<D: Disk>(disk: &mut D) -> Result<(), DiskError>
    ensures ok { (ends : ℕ → ℕ) (spans : List Span) (gate : ℕ) (pieces : List Span)
        → IfSome (D.told disk.old) (IsStaging ends spans gate pieces [])
        → OnOk result (IfSome (D.told disk.new) (IsSealed ends spans gate pieces)) }
    ensures any_moment { (ends : ℕ → ℕ) (spans : List Span) (gate : ℕ) (pieces : List Span)
        → IfSome (D.told disk.old) (IsStaging ends spans gate pieces [])
        → Leaves (IsSafe ends spans gate) (D.told disk.old) (D.told disk.new) }
    ensures here { (ends : ℕ → ℕ) (spans : List Span) (gate : ℕ) (pieces : List Span)
        → IfSome (D.told disk.old) (IsStaging ends spans gate pieces []) → IfSome (D.told disk.new) (ReadsAll spans) }
    ensures memory { IsErrOf result DiskError.Memory → D.told disk.new ≡ D.told disk.old }
    ensures calls { Makes DiskError.Failed DiskError.Memory (Synced ∷ []) (Synced ∷ []) (D.told disk.old) (D.told disk.new) result }
    ensures cause { HasCause (D.faults disk.old) (D.faults disk.new) result }
{
    sync(disk)
}

/// Opens the gate of a batch.
pub(crate) fn open_gate<D: Disk>(disk: &mut D, gate: u64) -> Result<(), DiskError>
    requires within { LiesWithin (D.told disk.old) 1 gate 0 }
    requires end { gate < 2 ^ 62 }
    ensures ok { (ends : ℕ → ℕ) (spans pieces : List Span)
        → IfSome (D.told disk.old) (IsSealed ends spans gate pieces)
        → OnOk result (IfSome (D.told disk.new) (IsGated ends spans gate pieces)) }
    ensures any_moment { (ends : ℕ → ℕ) (spans pieces : List Span)
        → IfSome (D.told disk.old) (IsSealed ends spans gate pieces)
        → Leaves (IsEither ends spans gate pieces) (D.told disk.old) (D.told disk.new) }
    ensures here { (ends : ℕ → ℕ) (spans pieces : List Span)
        → IfSome (D.told disk.old) (IsSealed ends spans gate pieces) → IfSome (D.told disk.new) (ReadsAll spans) }
    ensures memory { IsErrOf result DiskError.Memory → D.told disk.new ≡ D.told disk.old }
    ensures calls { Makes DiskError.Failed DiskError.Memory (Wrote 1 gate (1 ∷ []) ∷ []) (Wrote 1 gate (1 ∷ []) ∷ []) (D.told disk.old) (D.told disk.new) result }
    ensures cause { HasCause (D.faults disk.old) (D.faults disk.new) result }
{
    disk.write_at(COMMIT_LOG, gate, &[1])
}

/// Makes the gate of a batch durable.
pub(crate) fn settle_gate<D: Disk>(disk: &mut D) -> Result<(), DiskError>
    ensures ok { (ends : ℕ → ℕ) (spans : List Span) (gate : ℕ) (pieces : List Span)
        → IfSome (D.told disk.old) (IsGated ends spans gate pieces)
        → OnOk result (IfSome (D.told disk.new) (IsDone ends spans gate pieces)) }
    ensures any_moment { (ends : ℕ → ℕ) (spans : List Span) (gate : ℕ) (pieces : List Span)
        → IfSome (D.told disk.old) (IsGated ends spans gate pieces)
        → Leaves (IsEither ends spans gate pieces) (D.told disk.old) (D.told disk.new) }
    ensures here { (ends : ℕ → ℕ) (spans : List Span) (gate : ℕ) (pieces : List Span)
        → IfSome (D.told disk.old) (IsGated ends spans gate pieces) → IfSome (D.told disk.new) (ReadsAll spans) }
    ensures memory { IsErrOf result DiskError.Memory → D.told disk.new ≡ D.told disk.old }
    ensures calls { Makes DiskError.Failed DiskError.Memory (Synced ∷ []) (Synced ∷ []) (D.told disk.old) (D.told disk.new) result }
    ensures cause { HasCause (D.faults disk.old) (D.faults disk.new) result }
{
    sync(disk)
}
