//! What holds of the definitions. Each function does nothing, and its contract is the law.

ghost use Rattle.std.specs.Prelude.{◌≡◌, ◌↔◌, ℕ, List, ◌∷◌};
ghost use Rattle.im_disk.specs.Disk.{Files, seen_after, IsImage};
ghost use Rattle.im_disk.specs.Records.{AreWithin};
ghost use Rattle.im_disk.specs.declared.calls.Call.{Call};
ghost use Rattle.im_disk.specs.declared.calls.Call.TheVariants.{Tore};
ghost use Rattle.im_image.specs.Remains.{EachMayRemain};

/// A failed write leaves what reads give.
pub fn a_failed_write_changes_no_read()
    ensures { (first : Files) (calls : List Call) (file at n k : ℕ)
        → seen_after first (Tore file at n ∷ calls) k ≡ seen_after first calls k }
{}

/// A crash leaves of each file what the ranges written since the last sync allow, and no file
/// depends on another.
pub fn an_image_is_what_may_remain_of_each_file()
    ensures { (first : Files) (calls : List Call) (image : Files) → AreWithin first calls
        → IsImage first calls image ↔ EachMayRemain first calls image }
{}
