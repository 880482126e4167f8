//! What holds of the definitions. Each function does nothing, and its contract is the law.

ghost use Rattle.std.specs.Prelude.{◌≡◌, ◌↔◌, ℕ, IsTrue};
ghost use Rattle.im_disk.specs.declared.calls.Call.TheVariants.{Synced};
ghost use Rattle.im_disk.specs.Disk.{Files, Told, Images, ImagesSince, seen, time, after};
ghost use Rattle.im_disk.specs.Recorded.{Recorded, failing_next, fails_next};
ghost use Rattle.im_disk.specs.Records.{AreWithin};

/// What reads give is one of the images that a crash may leave, where each write lay within what
/// reads gave.
pub fn reads_give_an_image()
    ensures { (t : Told) → AreWithin t.first t.calls → Images t (seen t) }
{}

/// After a sync that succeeds a crash leaves what reads give, and nothing else. A sync changes
/// nothing that reads give.
pub fn a_sync_is_durable()
    ensures images { (t : Told) (image : Files) →
        Images (after Synced t) image ↔ ((file : ℕ) → image file ≡ seen (after Synced t) file) }
    ensures seen { (t : Told) (file : ℕ) → seen (after Synced t) file ≡ seen t file }
{}

/// The images of the moments since now are those of now.
pub fn moments_end_now()
    ensures { (t : Told) (image : Files) → ImagesSince t (time t) image ↔ Images t image }
{}

/// The next changing call of a disk in memory that was told that it is to fail is one that fails.
pub fn a_disk_told_to_fail_fails_next()
    ensures { (d : Recorded) → IsTrue (fails_next (failing_next d)) }
{}
