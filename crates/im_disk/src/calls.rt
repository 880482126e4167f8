use im_octet::octets::Octets;

/// What a changing call of a disk did.
#[derive(Drop)]
pub enum Call {
    /// Wrote a piece, from the place `at` of a file on.
    Wrote { file: u8, at: u64, piece: Octets },
    /// Failed to write `n` octets. Reads give what they gave before, but a crash may leave any
    /// octets in the range.
    Tore { file: u8, at: u64, n: u64 },
    /// Made what reads give durable, in all files.
    Synced,
    /// Failed to do so.
    Missed,
}
