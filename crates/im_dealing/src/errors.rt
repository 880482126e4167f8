use std::alloc::AllocError;

/// Why a line of a script has no reply.
#[derive(Clone, Copy, Debug, PartialEq, Eq)]
pub enum LineError {
    /// A call of the disk failed, at this line or before it.
    DiskFault,
    /// Memory ran out.
    Memory,
}

impl From<AllocError> for LineError {
    ghost use Rattle.std.specs.Prelude.{◌≡◌};
    ghost use Rattle.im_dealing.specs.declared.errors.LineError.TheVariants.{Memory};

    ghost from_gives = { λ _ error. error ≡ Memory };

    fn from(_: AllocError) -> Self {
        LineError::Memory
    }
}

/// How a script ended before its end.
#[derive(Clone, Copy, Debug, PartialEq, Eq)]
pub enum Stopped {
    /// A line got no reply: the first of its phase, in the script's order, for this reason.
    Line(LineError),
    /// The sink failed at the replies of a phase whose lines were all answered.
    Write,
}
