use crate::shown::{Place, Shown};
use crate::wrong::{Fault, Wrong};
use im_edge::keeper::KeeperError;
use std::alloc::{AllocError, AllocFailed, Global};

/// Why a case isn't played to its end.
#[derive(Drop)]
pub enum Stop {
    /// A line of a run can't be done.
    Undone(Fault),
    /// What came of a run differs from what is wanted, as this tells.
    Differs(String),
    /// Memory ran out.
    Memory,
}

impl From<AllocError> for Stop {
    fn from(_: AllocError) -> Self {
        Stop::Memory
    }
}

impl<T: Drop> From<AllocFailed<T>> for Stop {
    fn from(_: AllocFailed<T>) -> Self {
        Stop::Memory
    }
}

// Each line was checked when it was read, so that only memory can be wanting.
impl From<Wrong> for Stop {
    fn from(_: Wrong) -> Self {
        Stop::Memory
    }
}

impl From<Fault> for Stop {
    fn from(fault: Fault) -> Self {
        Stop::Undone(fault)
    }
}

// A keeper in memory doesn't fail otherwise.
impl From<KeeperError> for Stop {
    fn from(_: KeeperError) -> Self {
        Stop::Memory
    }
}

/// The stop at a difference.
pub fn differ(alloc: Global, place: Place, wanted: Shown, came: Shown) -> Stop {
    let mut told = String::new(alloc);
    match push_difference(&mut told, place, wanted, came) {
        Ok(()) => Stop::Differs(told),
        Err(_) => Stop::Memory,
    }
}

// Adds what is told of a difference.
fn push_difference(
    out: &mut String,
    place: Place,
    wanted: Shown,
    came: Shown,
) -> Result<(), AllocError> {
    place.push(out)?;
    out.push_str(": wanted ")?;
    wanted.push(out)?;
    out.push_str(", came ")?;
    came.push(out)
}
