/// What a line is answered.
#[derive(Drop)]
pub struct Answer {
    /// The number before the reply: how many transactions it speaks of.
    pub number: u64,
    /// The reply.
    pub reply: Vec<u8>,
}
