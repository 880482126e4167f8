ghost use Rattle.std.specs.Prelude.{◌≡◌};

use im_edge::keeper::KeeperError;
use im_edge::sink::WriteFault;
use std::alloc::AllocError;

/// Why a line wasn't told and kept.
#[derive(Clone, Copy)]
pub(crate) enum Stop {
    /// The sink failed. The message is kept.
    WriteFault,
    /// The keeper failed. Nothing was done.
    KeeperFault,
    /// Memory ran out. Nothing was done.
    Memory,
}

impl From<AllocError> for Stop {
    ghost use Rattle.im_verify.specs.declared.stops.Stop.TheVariants.{Memory};

    ghost from_gives = { λ _ stop. stop ≡ Memory };

    fn from(_: AllocError) -> Self {
        Stop::Memory
    }
}

impl From<KeeperError> for Stop {
    ghost use Rattle.im_verify.specs.Stops.{stop_of};

    ghost from_gives = { λ error stop. stop ≡ stop_of error };

    fn from(error: KeeperError) -> Self {
        match error {
            KeeperError::Failed => Stop::KeeperFault,
            KeeperError::Memory => Stop::Memory,
        }
    }
}

impl From<WriteFault> for Stop {
    ghost use Rattle.im_verify.specs.declared.stops.Stop.TheVariants as stops;

    ghost from_gives = { λ _ stop. stop ≡ stops.WriteFault };

    fn from(_: WriteFault) -> Self {
        Stop::WriteFault
    }
}
