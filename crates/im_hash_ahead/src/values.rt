use std::alloc::{AllocError, Global};

/// The values of records that are looked ahead at, one behind the other, and where each ends; of a value of more than 160
/// octets none. Nothing rests on them, as nothing rests on `Lead`.
#[derive(Drop)]
pub struct Values {
    octets: Vec<u8>,
    ends: Vec<usize>,
}

impl Values {
    /// None. It takes no memory.
    pub fn empty(alloc: Global) -> Self {
        Values {
            octets: Vec::new(alloc),
            ends: Vec::new(alloc),
        }
    }

    /// The value of this number, from 0, where it is there.
    pub fn at(&self, number: usize) -> Option<&[u8]> {
        let end = *self.ends.get(number)?;
        let start = match number {
            0 => 0,
            _ => *self.ends.get(number - 1)?,
        };
        if end < start || self.octets.len() < end {
            return None;
        }
        Some(&self.octets[start..end])
    }

    /// Adds a value behind all others. Its only error is want of memory. Behind it octets of the value may stand without an end:
    /// the next value then begins with them, so it isn't what was added, and what is hashed of it is of no use.
    pub fn add(&mut self, octets: &[u8]) -> Result<(), AllocError> {
        self.octets.extend_from_slice(octets)?;
        self.ends.push(self.octets.len())?;
        Ok(())
    }
}
