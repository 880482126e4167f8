use im_octet::octets::Octets;

/// Octets for a place of a file.
#[derive(Drop)]
pub struct Span {
    /// The number of the file.
    pub file: u8,
    /// The place of the first octet.
    pub at: u64,
    /// The octets, the first at that place.
    pub octets: Octets,
}
