use im_format::damages::Damage;
use std::alloc::AllocError;
use thiserror::Error;

/// Why an entry isn't read.
#[derive(Clone, Copy, Debug, PartialEq, Eq, Error)]
pub enum SlotError {
    /// A field doesn't hold what it should, or the log ends within it.
    #[error("the transaction log is damaged")]
    Damaged(Damage),
    /// Memory ran out.
    #[error("out of memory")]
    Memory,
}

impl From<Damage> for SlotError {
    ghost use Rattle.std.specs.Prelude.{◌≡◌};
    ghost use Rattle.im_record.specs.declared.errors.SlotError.TheVariants.{Damaged};

    ghost from_gives = { λ d e. e ≡ Damaged d };

    fn from(damage: Damage) -> Self {
        SlotError::Damaged(damage)
    }
}

impl From<AllocError> for SlotError {
    ghost use Rattle.std.specs.Prelude.{◌≡◌};
    ghost use Rattle.im_record.specs.declared.errors.SlotError.TheVariants.{Memory};

    ghost from_gives = { λ _ e. e ≡ Memory };

    fn from(_: AllocError) -> Self {
        SlotError::Memory
    }
}
