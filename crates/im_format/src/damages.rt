use im_digest::D32;

/// What was wanted at a place of a file, and what was found.
#[derive(Clone, Copy, Debug, PartialEq, Eq)]
pub enum Difference {
    /// Two numbers.
    Numbers { want: u64, got: u64 },
    /// Two digests.
    Digests { want: D32, got: D32 },
}

/// The first place of the files that doesn't hold what it should.
#[derive(Clone, Copy, Debug, PartialEq, Eq)]
pub struct Damage {
    /// The number of the file, 0 to 5.
    pub file: u8,
    /// The place of the field or value at fault.
    pub at: u64,
    /// What was wanted there, and what was found.
    pub found: Difference,
}
