use crate::copies::{copy_of_entries, copy_of_pres};
use im_draft::preconditions::{Pre, Pres};
use im_model::entries::{Entries, Entry};
use std::alloc::{AllocError, Global};
use std::marker::Model;

/// What may be placed: 1 to 1024 entries within the limits with distinct keys, and preconditions.
#[derive(Drop)]
pub struct Prepared {
    entries: Entries,
    pres: Pres,
}

impl Model for Prepared {
    ghost use Rattle.im_tx.specs.Asked.{Asked, IsAsked};

    ghost Value = { Asked };

    ghost view = { λ p. record { entries = p.entries; pres = p.pres } };

    ghost invariant = { λ p. IsAsked (record { entries = p.entries; pres = p.pres }) };
}

impl Prepared {
    ghost use Rattle.std.specs.Prelude.{◌≡◌, IfOk};
    ghost use Rattle.im_tx.specs.Asked.{IsAsked};

    // These entries and preconditions, which the caller has tested.
    pub(crate) fn new(entries: Entries, pres: Pres) -> Self
        requires { IsAsked (record { entries = entries; pres = pres }) }
        ensures { result ≡ record { entries = entries; pres = pres } }
    {
        Prepared { entries, pres }
    }

    /// Lends the entries, in order.
    pub fn entries(&self) -> &[Entry]
        ensures value { result.now ≡ self.now.entries }
        ensures asked { IsAsked self.now }
    {
        self.entries.as_slice()
    }

    /// Lends the preconditions, in the order in which they are judged.
    pub fn pres(&self) -> &[Pre]
        ensures value { result.now ≡ self.now.pres }
        ensures asked { IsAsked self.now }
    {
        self.pres.as_slice()
    }

    /// A copy, of the entries and the preconditions. Its only error is want of memory.
    pub fn try_clone(&self, alloc: Global) -> Result<Self, AllocError>
        ensures { IfOk result (λ prepared. prepared ≡ self.now) }
    {
        let entries = copy_of_entries(alloc, self.entries())?;
        let pres = copy_of_pres(alloc, self.pres())?;
        Ok(Prepared::new(entries, pres))
    }

    /// Gives the entries and the preconditions back. It takes no memory.
    pub fn into_parts(self) -> (Entries, Pres)
        ensures entries { result.0 ≡ self.entries }
        ensures pres { result.1 ≡ self.pres }
        ensures asked { IsAsked self }
    {
        let Prepared { entries, pres } = self;
        (entries, pres)
    }
}
