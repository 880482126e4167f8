use im_octet::octets::Octets;
use std::alloc::AllocError;

/// Why a transaction isn't placed. `tx` is the number of the transaction that wrote the key's last version,
/// a deletion too.
#[derive(Drop)]
pub enum PlaceError {
    /// Memory ran out.
    Memory,
    /// The history holds 1,048,576 transactions, the most that it may.
    Full,
    /// The key had to be live, and isn't.
    Missing { key: Octets },
    /// The key had to be missing, and is live.
    Exists { key: Octets, tx: u64 },
    /// The key's last version is later than it may be.
    Modified { key: Octets, tx: u64 },
}

impl From<AllocError> for PlaceError {
    ghost use Rattle.std.specs.Prelude.{◌≡◌};
    ghost use Rattle.im_versions.specs.declared.refusals.PlaceError.TheVariants.{Memory};

    ghost from_gives = { λ _ e. e ≡ Memory };

    fn from(_: AllocError) -> Self {
        PlaceError::Memory
    }
}
