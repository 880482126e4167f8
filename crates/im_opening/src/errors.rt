use im_disk::disk::DiskError;
use im_format::damages::Damage;
use im_record::errors::SlotError;
use std::alloc::{AllocError, AllocFailed};
use thiserror::Error;

/// Why a store isn't opened.
#[derive(Clone, Copy, Debug, PartialEq, Eq, Error)]
pub enum OpenError {
    /// The disk failed, and was counted.
    #[error("the disk failed")]
    DiskFault,
    /// The files don't hold what they should. This is the first place, in the order in which they are read.
    #[error("the files are damaged")]
    Damaged(Damage),
    /// Memory ran out.
    #[error("out of memory")]
    Memory,
}

impl From<DiskError> for OpenError {
    ghost use Rattle.std.specs.Prelude.{◌≡◌};
    ghost use Rattle.im_opening.specs.Answers.{of_disk};

    ghost from_gives = { λ cause error. error ≡ of_disk cause };

    fn from(cause: DiskError) -> Self {
        match cause {
            DiskError::Failed => OpenError::DiskFault,
            DiskError::Memory => OpenError::Memory,
        }
    }
}

impl From<Damage> for OpenError {
    ghost use Rattle.std.specs.Prelude.{◌≡◌};
    ghost use Rattle.im_opening.specs.declared.errors.OpenError.TheVariants.{Damaged};

    ghost from_gives = { λ damage error. error ≡ Damaged damage };

    fn from(damage: Damage) -> Self {
        OpenError::Damaged(damage)
    }
}

impl From<SlotError> for OpenError {
    ghost use Rattle.std.specs.Prelude.{◌≡◌};
    ghost use Rattle.im_opening.specs.Answers.{of_record};

    ghost from_gives = { λ cause error. error ≡ of_record cause };

    fn from(cause: SlotError) -> Self {
        match cause {
            SlotError::Damaged(damage) => OpenError::Damaged(damage),
            SlotError::Memory => OpenError::Memory,
        }
    }
}

impl From<AllocError> for OpenError {
    ghost use Rattle.std.specs.Prelude.{◌≡◌};
    ghost use Rattle.im_opening.specs.declared.errors.OpenError.TheVariants.{Memory};

    ghost from_gives = { λ _ error. error ≡ Memory };

    fn from(_: AllocError) -> Self {
        OpenError::Memory
    }
}

impl<T: Drop> From<AllocFailed<T>> for OpenError {
    ghost use Rattle.std.specs.Prelude.{◌≡◌};
    ghost use Rattle.im_opening.specs.declared.errors.OpenError.TheVariants.{Memory};

    ghost from_gives = { λ _ error. error ≡ Memory };

    fn from(_: AllocFailed<T>) -> Self {
        OpenError::Memory
    }
}
