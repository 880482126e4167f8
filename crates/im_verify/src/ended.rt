/// How a run of the verifier ended.
#[derive(Clone, Copy, Debug, PartialEq, Eq)]
pub enum Ended {
    /// Each line of the stream was told, and none was refused or forked.
    Ok,
    /// Each line of the stream was told, and some was refused, but none forked.
    Refused,
    /// A line was forked, and told with two unequal strings of one digest. The lines behind it weren't looked at.
    Forked,
    /// The source failed. Nothing was written or kept.
    ReadFault,
    /// The sink failed. Each message whose line was written is kept.
    WriteFault,
    /// The keeper failed.
    KeeperFault,
    /// Memory ran out.
    Memory,
    /// The source has more than 67,108,864 octets. Nothing was written or kept.
    Long,
    /// The number, from 1, of the first kept line that is refused or forked. Nothing was written or kept.
    Kept { line: u64 },
}
