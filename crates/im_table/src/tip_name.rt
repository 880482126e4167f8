use std::marker::Brand;

/// Names one tip, and with it how its store was opened, in contracts alone. A value that lies under a lock is known by
/// its type's facts alone: so the type of such a value, and of a store, takes an `N: TipName`, and says that its pass is
/// of `N.table`. Only a function without an `N` in its signature picks one, as it calls one that has an `N` at `Brand`.
pub trait TipName {
    ghost use Rattle.std.specs.Prelude.{ℕ, ℤ, List, Option};
    ghost use Rattle.atomic_table.specs.Seated.{TableId};
    ghost use Rattle.im_digest.specs.Digests.{Hash};
    ghost use Rattle.im_disk.specs.Disk.{Told};
    ghost use Rattle.im_table.specs.declared.items.LogItem.{LogItem};

    // The tip.
    ghost table: { TableId };

    // What was found when it was opened.
    ghost found: { List LogItem };

    // The number of value logs with which it was opened.
    ghost logs: { ℕ };

    // The hash under which it was opened.
    ghost digest: { Hash };

    // What the disk told as `open` returned, where it tells.
    ghost synced: { Option Told };

    // How often the disk had failed when it was opened.
    ghost faults: { ℕ };

    // The time that its clock always gives, where it tells one.
    ghost time: { Option ℤ };

    // The times that the clock had given when it was opened, where it tells them.
    ghost given: { Option (List ℤ) };
}

impl TipName for Brand {
    ghost use Rattle.std.specs.Prelude.{[], None};
    ghost use Rattle.im_table.specs.Known.{no_table};

    ghost table = { no_table };

    ghost found = { [] };

    ghost logs = { 0 };

    ghost digest = { λ _. [] };

    ghost synced = { None };

    ghost faults = { 0 };

    ghost time = { None };

    ghost given = { None };
}
