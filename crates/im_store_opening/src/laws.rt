//! What holds of the definitions. The function does nothing, and its contract is the law.

ghost use Rattle.std.specs.Prelude.{ℤ, List, length, Option, Some};
ghost use Rattle.im_disk.specs.Disk.{Told, after};
ghost use Rattle.im_disk.specs.Moments.{Leaves};
ghost use Rattle.im_disk.specs.declared.calls.Call.TheVariants.{Synced};
ghost use Rattle.im_format.specs.Standing.{StandsFrom};
ghost use Rattle.im_table.specs.Histories.{history_of};
ghost use Rattle.im_table.specs.Known.{KnownPass};
ghost use Rattle.im_store.specs.Closing.{ClosesStore};
ghost use Rattle.im_store.specs.Names.{Naming};
ghost use Rattle.im_store_opening.specs.Opened.{OpensAs};

use im_disk::disk::Disk;
use im_table::law::Law;

/// At each moment from the opening's first sync to the closing each image stood for a front part of the one list, not shorter than what was
/// found.
pub fn moments_from_opening_to_closing<D: Disk, L: Law>()
    ensures { (n : Naming) (t : Told) (passes : List KnownPass) (disk : D)
        (constant : Option ℤ) (now : Option (List ℤ)) (closed : ClosesStore L.allows D.told D.faults n.digest n.logs n.found n.synced n.faults n.time n.given passes disk constant now)
        → OpensAs (Some t) n.faults n
        → Leaves (StandsFrom n.digest (length n.found) (history_of closed.items)) (Some (after Synced t)) (D.told disk) }
{}
