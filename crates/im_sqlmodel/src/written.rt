use im_octet::octets::Octets;

/// A key that a statement writes.
#[derive(Drop)]
pub struct Written {
    /// The key.
    pub key: Octets,
    /// Its value; none where the key is deleted.
    pub value: Option<Octets>,
}
