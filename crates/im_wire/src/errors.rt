ghost use Rattle.std.specs.Prelude.{◌≡◌};
ghost use Rattle.im_wire.specs.declared.errors.WireError.TheVariants.{Memory};

use std::alloc::{AllocError, AllocFailed};
use thiserror::Error;

/// Why a text was not read as a message.
#[derive(Debug, Drop, Error)]
pub enum WireError {
    /// Memory ran out.
    #[error("out of memory")]
    Memory,
    /// The text says no message.
    #[error("the text is no message")]
    Syntax,
}

impl From<AllocError> for WireError {
    ghost from_gives = { λ _ e. e ≡ Memory };

    fn from(_: AllocError) -> Self {
        WireError::Memory
    }
}

impl<T: Drop> From<AllocFailed<T>> for WireError {
    ghost from_gives = { λ _ e. e ≡ Memory };

    fn from(_: AllocFailed<T>) -> Self {
        WireError::Memory
    }
}
