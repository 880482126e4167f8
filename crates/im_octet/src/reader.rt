ghost use Rattle.std.specs.Prelude.{◌≡◌};
ghost use Rattle.im_octet.specs.Fields.{field2, field4, field8, signed_field8};

use std::marker::Model;
use thiserror::Error;

/// Too few octets are left for what was to be read.
#[derive(Clone, Copy, Debug, PartialEq, Eq, Error)]
#[error("too few octets are left at octet {at}")]
pub struct Short {
    /// The place, counted in octets from the front, at which too few are left.
    pub at: usize,
}

/// Reads big-endian fields from the front of an octet string, as `Writer`, its twin, writes them. It takes no
/// memory, and copies a field's octets alone. A clause sees how many octets were read, and those that are left.
///
/// # Invariants
///
/// The octets read and those left are together fewer than 2^64. A call that fails leaves both as they were.
#[derive(Drop)]
pub struct Reader<'a> {
    at: usize,
    left: &'a [u8],
}

impl<'a> Model for Reader<'a> {
    ghost use Rattle.std.specs.Prelude.{◌+◌, ◌<◌, ◌^◌, length};
    ghost use Rattle.im_octet.specs.Unread.{Unread};

    ghost Value = { Unread };

    ghost view = { λ r. record { at = r.at; left = r.left.now } };

    ghost invariant = { λ r. r.at + length r.left.now < 2 ^ 64 };
}

// The number that two octets are, the high one first.
#[tactic(auto, using(std::proofs::lemmas::Nat::be_bytes_2), unfolding(crate::specs::Fields::field2))]
fn number2(octets: [u8; 2]) -> u16
    ensures { field2 result ≡ octets }
{
    u16::from_be_bytes(octets)
}

// The number that four octets are, the highest first.
#[tactic(auto, using(std::proofs::lemmas::Nat::be_bytes_4), unfolding(crate::specs::Fields::field4))]
fn number4(octets: [u8; 4]) -> u32
    ensures { field4 result ≡ octets }
{
    u32::from_be_bytes(octets)
}

// The number that eight octets are, the highest first.
fn number8(octets: [u8; 8]) -> u64
    ensures { field8 result ≡ octets }
{
    u64::from_be_bytes(octets)
}

// The signed number that eight octets are in two's complement, the highest first.
#[tactic(auto, unfolding(crate::specs::Fields::signed_field8, crate::specs::Fields::field8))]
fn signed_number8(octets: [u8; 8]) -> i64
    ensures { signed_field8 result ≡ octets }
{
    number8(octets).cast_signed()
}

impl<'a> Reader<'a> {
    ghost use Rattle.std.specs.Prelude.{◌≡◌, ◌==◌, ◌+◌, ◌<◌, ◌↔◌, ◌++◌, ◌∷◌, length, take, drop, IsErr, OnOk, IfOk, IfErr, OnErr};
    ghost use Rattle.im_octet.specs.Fields.{field2, field4, field8, signed_field8};

    /// A reader before the first of these octets.
    pub fn new(octets: &'a [u8]) -> Self
        ensures at { result.at ≡ 0 }
        ensures left { result.left ≡ octets.now }
    {
        Reader {
            at: 0,
            left: octets,
        }
    }

    /// How many octets were read.
    pub fn at(&self) -> usize
        ensures { result ≡ self.now.at }
    {
        self.at
    }

    /// The octets that are left.
    pub fn rest(&self) -> &'a [u8]
        ensures { result.now ≡ self.now.left }
    {
        self.left
    }

    /// Whether no octet is left.
    pub fn is_empty(&self) -> bool
        ensures { result ≡ (length self.now.left == 0) }
    {
        self.left.is_empty()
    }

    /// Reads `n` octets, which are not copied. Where fewer are left, nothing is read.
    pub fn take(&mut self, n: usize) -> Result<&'a [u8], Short>
        ensures octets { IfOk result (λ octets. octets.now ≡ take n self.old.left) }
        ensures left { OnOk result (self.new.left ≡ drop n self.old.left) }
        ensures at { OnOk result (self.new.at ≡ self.old.at + n) }

        ensures short { IsErr result ↔ (length self.old.left < n) }
        ensures place { IfErr result (λ short. short.at ≡ self.old.at) }
        ensures unmoved { OnErr result (self.new ≡ self.old) }
    {
        if self.left.len() < n {
            return Err(Short { at: self.at });
        }
        let (octets, left) = self.left.split_at(n);
        self.at += n;
        self.left = left;
        Ok(octets)
    }

    // Reads `N` octets as an array.
    fn field<const N: usize>(&mut self) -> Result<[u8; N], Short>
        ensures left { IfOk result (λ octets. self.old.left ≡ octets ++ self.new.left) }
        ensures at { OnOk result (self.new.at ≡ self.old.at + N) }

        ensures short { IsErr result ↔ (length self.old.left < N) }
        ensures place { IfErr result (λ short. short.at ≡ self.old.at) }
        ensures unmoved { OnErr result (self.new ≡ self.old) }
    {
        let Some((octets, left)) = self.left.split_first_chunk::<N>() else {
            return Err(Short { at: self.at });
        };
        self.at += N;
        self.left = left;
        Ok(*octets)
    }

    /// Reads one octet. Where none is left, nothing is read.
    pub fn u8(&mut self) -> Result<u8, Short>
        ensures left { IfOk result (λ n. self.old.left ≡ n ∷ self.new.left) }
        ensures at { OnOk result (self.new.at ≡ self.old.at + 1) }

        ensures short { IsErr result ↔ (length self.old.left < 1) }
        ensures place { IfErr result (λ short. short.at ≡ self.old.at) }
        ensures unmoved { OnErr result (self.new ≡ self.old) }
    {
        let [octet] = self.field::<1>()?;
        Ok(octet)
    }

    /// Reads a number of two octets. Where fewer are left, nothing is read.
    pub fn u16(&mut self) -> Result<u16, Short>
        ensures left { IfOk result (λ n. self.old.left ≡ field2 n ++ self.new.left) }
        ensures at { OnOk result (self.new.at ≡ self.old.at + 2) }

        ensures short { IsErr result ↔ (length self.old.left < 2) }
        ensures place { IfErr result (λ short. short.at ≡ self.old.at) }
        ensures unmoved { OnErr result (self.new ≡ self.old) }
    {
        Ok(number2(self.field::<2>()?))
    }

    /// Reads a number of four octets. Where fewer are left, nothing is read.
    pub fn u32(&mut self) -> Result<u32, Short>
        ensures left { IfOk result (λ n. self.old.left ≡ field4 n ++ self.new.left) }
        ensures at { OnOk result (self.new.at ≡ self.old.at + 4) }

        ensures short { IsErr result ↔ (length self.old.left < 4) }
        ensures place { IfErr result (λ short. short.at ≡ self.old.at) }
        ensures unmoved { OnErr result (self.new ≡ self.old) }
    {
        Ok(number4(self.field::<4>()?))
    }

    /// Reads a number of eight octets. Where fewer are left, nothing is read.
    pub fn u64(&mut self) -> Result<u64, Short>
        ensures left { IfOk result (λ n. self.old.left ≡ field8 n ++ self.new.left) }
        ensures at { OnOk result (self.new.at ≡ self.old.at + 8) }

        ensures short { IsErr result ↔ (length self.old.left < 8) }
        ensures place { IfErr result (λ short. short.at ≡ self.old.at) }
        ensures unmoved { OnErr result (self.new ≡ self.old) }
    {
        Ok(number8(self.field::<8>()?))
    }

    /// Reads a signed number of eight octets in two's complement. Where fewer are left, nothing
    /// is read.
    pub fn i64(&mut self) -> Result<i64, Short>
        ensures left { IfOk result (λ z. self.old.left ≡ signed_field8 z ++ self.new.left) }
        ensures at { OnOk result (self.new.at ≡ self.old.at + 8) }

        ensures short { IsErr result ↔ (length self.old.left < 8) }
        ensures place { IfErr result (λ short. short.at ≡ self.old.at) }
        ensures unmoved { OnErr result (self.new ≡ self.old) }
    {
        Ok(signed_number8(self.field::<8>()?))
    }
}
