ghost use Rattle.std.specs.Prelude.{◌≡◌};

use std::alloc::AllocError;

/// Why a journal didn't do what it was asked.
#[derive(Clone, Copy, Debug, PartialEq, Eq)]
pub enum JournalError {
    /// A call of the disk failed, and was counted. The journal writes nothing from now on.
    DiskFault,
    /// Calls of the disk have failed since opening, so many of them (2^64 - 1 stands for more, too). Nothing
    /// was done.
    Stopped { faults: u64 },
    /// Memory ran out. What was done of the step stays, and the same call goes on with the rest.
    Memory,
}

impl From<AllocError> for JournalError {
    ghost use Rattle.im_journal.specs.declared.errors.JournalError.TheVariants.{Memory};

    ghost from_gives = { λ _ error. error ≡ Memory };

    fn from(_: AllocError) -> Self {
        JournalError::Memory
    }
}
