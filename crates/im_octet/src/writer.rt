use crate::fields::{eight, four, signed_eight, two};
use std::alloc::{AllocError, Global};
use std::marker::Model;

/// Collects big-endian fields and octet strings, which `Reader`, its twin, reads back. A clause sees the list
/// of the octets written.
///
/// # Invariants
///
/// What was written stays: a call adds at the end, or, where memory is short, nothing.
#[derive(Drop)]
pub struct Writer {
    octets: Vec<u8>,
}

impl Model for Writer {
    ghost use Rattle.std.specs.Prelude.{ℕ, List};

    ghost Value = { List ℕ };

    ghost view = { λ w. w.octets.items };
}

impl Writer {
    ghost use Rattle.std.specs.Prelude.{◌≡◌, [], ◌∷◌, ◌++◌, OnOk, OnErr};
    ghost use Rattle.im_octet.specs.Fields.{field2, field4, field8, signed_field8};

    /// A writer of nothing so far. It takes no memory.
    pub fn new(alloc: Global) -> Self
        ensures { result ≡ [] }
    {
        Writer {
            octets: Vec::new(alloc),
        }
    }

    /// Gives the vector of what was written. It takes no memory.
    pub fn into_vec(self) -> Vec<u8>
        ensures { result.items ≡ self }
    {
        let Writer { octets } = self;
        octets
    }

    /// Lends what was written.
    pub fn as_slice(&self) -> &[u8]
        ensures { result.now ≡ self.now }
    {
        self.octets.as_slice()
    }

    /// Writes octets as they are. Where memory is short, nothing is written.
    pub fn octets(&mut self, octets: &[u8]) -> Result<(), AllocError>
        ensures ok { OnOk result (self.new ≡ self.old ++ octets.now) }
        ensures err { OnErr result (self.new ≡ self.old) }
    {
        self.octets.extend_from_slice(octets)
    }

    /// Writes one octet. Where memory is short, nothing is written.
    pub fn u8(&mut self, n: u8) -> Result<(), AllocError>
        ensures ok { OnOk result (self.new ≡ self.old ++ n ∷ []) }
        ensures err { OnErr result (self.new ≡ self.old) }
    {
        self.octets(&[n])
    }

    /// Writes a number as two octets, the high one first. Where memory is short, nothing is
    /// written.
    pub fn u16(&mut self, n: u16) -> Result<(), AllocError>
        ensures ok { OnOk result (self.new ≡ self.old ++ field2 n) }
        ensures err { OnErr result (self.new ≡ self.old) }
    {
        self.octets(&two(n))
    }

    /// Writes a number as four octets, the highest first. Where memory is short, nothing is
    /// written.
    pub fn u32(&mut self, n: u32) -> Result<(), AllocError>
        ensures ok { OnOk result (self.new ≡ self.old ++ field4 n) }
        ensures err { OnErr result (self.new ≡ self.old) }
    {
        self.octets(&four(n))
    }

    /// Writes a number as eight octets, the highest first. Where memory is short, nothing is
    /// written.
    pub fn u64(&mut self, n: u64) -> Result<(), AllocError>
        ensures ok { OnOk result (self.new ≡ self.old ++ field8 n) }
        ensures err { OnErr result (self.new ≡ self.old) }
    {
        self.octets(&eight(n))
    }

    /// Writes a signed number as eight octets in two's complement, the highest first. Where
    /// memory is short, nothing is written.
    pub fn i64(&mut self, n: i64) -> Result<(), AllocError>
        ensures ok { OnOk result (self.new ≡ self.old ++ signed_field8 n) }
        ensures err { OnErr result (self.new ≡ self.old) }
    {
        self.octets(&signed_eight(n))
    }
}
