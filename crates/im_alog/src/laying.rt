ghost use Rattle.std.specs.Prelude.{◌≡◌, ◌<◌, ◌^◌, ℕ, List, length, All, OnOk, IfSome, IsErrOf};
ghost use Rattle.std.specs.Option.{option_map};
ghost use Rattle.im_disk.specs.Causes.{HasCause};
ghost use Rattle.im_disk.specs.Disk.{LiesWithin, seen, after};
ghost use Rattle.im_disk.specs.Moments.{Leaves, LeavesNow, LeavesOnly};
ghost use Rattle.im_disk.specs.declared.calls.Call.TheVariants.{Wrote, Tore, Synced, Missed};
ghost use Rattle.im_format.specs.Spans.{Misses, Reads};
ghost use Rattle.im_format.specs.declared.spans.Span.{Span};
ghost use Rattle.im_alog.specs.Holding.{Holds, IsDurable, IsLong, IsOldOrSeen};

use im_disk::disk::{Disk, DiskError};
use im_format::spans::Span;

/// Writes a span over what stands at its place: one `write_at`. It takes no memory of its own. Whatever the
/// answer is, spans that it misses stay, in what reads give and in all that a crash may leave.
pub fn put<D: Disk>(disk: &mut D, span: &Span) -> Result<(), DiskError>
    requires file { span.now.file < 16 }
    requires within { LiesWithin (D.told disk.old) span.now.file span.now.at 0 }
    requires end { span.now.at < 2 ^ 62 }
    ensures ok { OnOk result (D.told disk.new
        ≡ option_map (after (Wrote span.now.file span.now.at span.now.octets)) (D.told disk.old)) }
    ensures failed { IsErrOf result DiskError.Failed → D.told disk.new
        ≡ option_map (after (Tore span.now.file span.now.at (length span.now.octets))) (D.told disk.old) }
    ensures memory { IsErrOf result DiskError.Memory → D.told disk.new ≡ D.told disk.old }
    ensures reads { OnOk result (IfSome (D.told disk.new) (λ t. Reads (seen t) span.now)) }
    ensures stays { (spans : List Span) → All (Misses span.now.file span.now.at (length span.now.octets)) spans
        → IfSome (D.told disk.old) (λ t. Holds spans (seen t)) → IfSome (D.told disk.new) (λ t. Holds spans (seen t)) }
    ensures leaves { (spans : List Span) → All (Misses span.now.file span.now.at (length span.now.octets)) spans
        → LeavesNow (Holds spans) (D.told disk.old) → Leaves (Holds spans) (D.told disk.old) (D.told disk.new) }
    ensures longer { (ends : ℕ → ℕ) → IfSome (D.told disk.old) (IsLong ends) → IfSome (D.told disk.new) (IsLong ends) }
    ensures cause { HasCause (D.faults disk.old) (D.faults disk.new) result }
{
    disk.write_at(span.file, span.at, span.octets.as_slice())
}

/// Makes what reads give durable, in all files: one `sync`. What reads give stays, whatever the answer is.
pub fn sync<D: Disk>(disk: &mut D) -> Result<(), DiskError>
    ensures ok { OnOk result (D.told disk.new ≡ option_map (after Synced) (D.told disk.old)) }
    ensures failed { IsErrOf result DiskError.Failed → D.told disk.new ≡ option_map (after Missed) (D.told disk.old) }
    ensures memory { IsErrOf result DiskError.Memory → D.told disk.new ≡ D.told disk.old }
    ensures durable { OnOk result (IfSome (D.told disk.new) IsDurable) }
    ensures holds { (spans : List Span) → IfSome (D.told disk.old) (λ t. Holds spans (seen t))
        → OnOk result (LeavesNow (Holds spans) (D.told disk.new)) }
    ensures stays { (spans : List Span) → IfSome (D.told disk.old) (λ t. Holds spans (seen t))
        → IfSome (D.told disk.new) (λ t. Holds spans (seen t)) }
    ensures leaves { Leaves (IsOldOrSeen (D.told disk.old)) (D.told disk.old) (D.told disk.new) }
    ensures longer { (ends : ℕ → ℕ) → IfSome (D.told disk.old) (IsLong ends) → IfSome (D.told disk.new) (IsLong ends) }
    ensures cause { HasCause (D.faults disk.old) (D.faults disk.new) result }
{
    disk.sync()
}
