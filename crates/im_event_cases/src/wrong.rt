use im_draft::refusals::PrepareError;
use std::alloc::{AllocError, AllocFailed};

/// Why a list can't be run.
#[derive(Clone, Copy)]
pub enum Wrong {
    /// A line begins with neither mark.
    Mark,
    /// An event has another name, or other words.
    Event,
    /// A number is wanted, and isn't written in decimal digits, or is too large.
    Number,
    /// Octets are wanted, and are written neither as a bare word nor as `0x` and hex digits.
    Octets,
    /// There is no output for an event, or one without an event.
    Count,
    /// What is to be placed can't be asked for.
    Prepared,
    /// Memory ran out.
    Memory,
}

impl Wrong {
    /// What is told of it.
    pub fn words(self) -> &'static str {
        match self {
            Wrong::Mark => "a line begins with `> ` or `< `",
            Wrong::Event => "no such event",
            Wrong::Number => "a number is wanted, in decimal digits, and not too large",
            Wrong::Octets => "octets are written as a bare word, or as 0x and hex digits",
            Wrong::Count => "each event has one output",
            Wrong::Prepared => "this can't be asked for",
            Wrong::Memory => "memory ran out",
        }
    }
}

impl From<AllocError> for Wrong {
    fn from(_: AllocError) -> Self {
        Wrong::Memory
    }
}

impl<T: Drop> From<AllocFailed<T>> for Wrong {
    fn from(_: AllocFailed<T>) -> Self {
        Wrong::Memory
    }
}

impl From<PrepareError> for Wrong {
    fn from(error: PrepareError) -> Self {
        match error {
            PrepareError::Memory => Wrong::Memory,
            _ => Wrong::Prepared,
        }
    }
}
