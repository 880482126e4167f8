use im_digest::D32;
use im_mtree::faults::PathFault;
use im_proof::faults::{DualFault, HeaderFault};

/// The first check of a line that fails: what was wanted, and what was found.
#[derive(Clone, Copy, Debug)]
pub enum LineFault {
    /// The line is no message.
    Syntax,
    /// Of a state's header.
    State { fault: HeaderFault },
    /// A state isn't the kept one.
    StateId { want: u64, got: u64 },
    /// A state isn't the kept one.
    StateAlh { want: D32, got: D32 },
    /// There is no kept state to prove anything under.
    NoState,
    /// An advance's source isn't the kept state.
    SourceId { want: u64, got: u64 },
    /// An advance's source isn't the kept state.
    SourceAlh { want: D32, got: D32 },
    /// The target isn't the kept state.
    TargetId { want: u64, got: u64 },
    /// The target isn't the kept state.
    TargetAlh { want: D32, got: D32 },
    /// Of the dual proof.
    Dual { fault: DualFault },
    /// An advance has no anchor where one is due.
    AnchorMissing,
    /// An advance has an anchor where none is due.
    AnchorExtra,
    /// The anchor doesn't start at the end of the target's tree.
    AnchorSourceId { want: u64, got: u64 },
    /// The anchor doesn't lead to the source.
    AnchorTargetId { want: u64, got: u64 },
    /// The anchor doesn't start at the end of the target's tree.
    AnchorSourceAlh { want: D32, got: D32 },
    /// The anchor doesn't lead to the source.
    AnchorTargetAlh { want: D32, got: D32 },
    /// Of the anchor's dual proof.
    Anchor { fault: DualFault },
    /// Of an entry's path.
    Path { fault: PathFault },
}
