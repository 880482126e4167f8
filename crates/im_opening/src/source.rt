/// What records are read from: the octets of the transaction log, and the lengths of the value logs.
#[derive(Clone, Copy)]
pub struct RecordSource<'a> {
    /// The octets of the transaction log.
    pub log: &'a [u8],
    /// The lengths of the value logs 0 to 3, in octets.
    pub lengths: [u64; 4],
}
