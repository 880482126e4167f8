ghost use Rattle.std.specs.Prelude.{◌≡◌};
ghost use Rattle.im_store.specs.Found.{HoldsFound};

use crate::opened::parts::Parts;
use im_digest::Hash32;
use im_disk::disk::Disk;
use im_edge::clock::Clock;
use im_journal::journal::Journal;
use im_table::law::Law;
use im_table::tip::Tip;
use std::marker::Model;

mod found;
mod naming;
pub mod parts;
mod seats;

/// A store that was opened and has no name yet: `named` gives it. A clause sees what names it (`Unnamed`): the tip, what was found, the
/// number of value logs, the hash function, the disk as it was opened, and the clock.
///
/// Threads share a store under locks, and of a value under a lock only its type's facts are known. So the type of a store has a
/// parameter `N: TipName`, which names one opened store in contracts alone. A function that opens a store calls one that is generic in `N`
/// at `Brand`, hands it the opened store, and picks there what names it: of `fn serve<N: TipName, ..>(opened: Opened<..>, ..)`, called
/// as `serve::<Brand, ..>(opened, ..)`, the caller's `Invariants.antt` says
/// `ghosts-serve g a = record { table = a.opened.table; digest = g.H.Hash32.digest a.opened.hash; .. }`, field by field.
///
/// # Invariants
///
/// The journal is at rest and holds what was found, no call of its disk has failed since it was opened, and book, index and tree are those of
/// all that was found (`HoldsFound`). Its pass has each role and the whole weight.
#[derive(Drop)]
pub struct Opened<'h, H: Hash32, D: Disk, C: Clock, L: Law> {
    hash: &'h H,
    tip: Tip<L>,
    journal: Journal<D>,
    clock: C,
    logs: u8,
    parts: Parts,
}

impl<'h, H: Hash32, D: Disk, C: Clock, L: Law> Model for Opened<'h, H, D, C, L> {
    ghost use Rattle.im_store.specs.Found.{HoldsFound};
    ghost use Rattle.im_store.specs.Names.{Unnamed};

    ghost Value = { Unnamed H D C };

    ghost view = { λ o. record {
      table = o.tip.table;
      found = o.tip.found;
      logs = o.logs;
      hash = o.hash.now;
      disk = o.journal.disk;
      clock = o.clock;
    } };

    ghost invariant = { λ o. HoldsFound D.told (H.digest o.hash.now) o.logs o.tip o.journal o.parts };
}

impl<'h, H: Hash32, D: Disk, C: Clock, L: Law> Opened<'h, H, D, C, L> {
    /// An opened store of these: a journal at rest that holds what was found, and words and parts made of it. im_store_opening makes them of a
    /// disk. It takes no memory.
    pub fn of(
        hash: &'h H,
        tip: Tip<L>,
        journal: Journal<D>,
        clock: C,
        logs: u8,
        parts: Parts,
    ) -> Self
        requires { HoldsFound D.told (H.digest hash.now) logs tip journal parts }
        ensures found { result.found ≡ tip.found }
        ensures given { (result.hash ≡ hash.now) × (result.logs ≡ logs) }
        ensures disk { result.disk ≡ journal.disk }
        ensures clock { result.clock ≡ clock }
    {
        Opened {
            hash,
            tip,
            journal,
            clock,
            logs,
            parts,
        }
    }
}
