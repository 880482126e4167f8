use im_draft::refusals::PrepareError;
use im_sql_words::octets::OctetsError;
use std::alloc::{AllocError, AllocFailed};

/// Why a line isn't answered.
#[derive(Clone, Copy)]
pub enum Wrong {
    /// It is none of a session's lines.
    Line,
    /// Octets aren't pairs of lower-case hex digits.
    Digits,
    /// The octets of a text aren't UTF-8.
    Encoding,
    /// A number is no decimal number, or there are fewer transactions.
    Number,
    /// Entries are no transaction.
    Entries,
    /// A transaction isn't placed.
    Refused,
    /// Memory ran out.
    Memory,
}

impl Wrong {
    /// What is told of it.
    pub fn words(self) -> &'static str {
        match self {
            Wrong::Line => "no such line in a session",
            Wrong::Digits => "octets are written as pairs of lower-case hex digits",
            Wrong::Encoding => "the text isn't UTF-8",
            Wrong::Number => "the number of transactions isn't one, or there are fewer",
            Wrong::Entries => "these entries are no transaction",
            Wrong::Refused => "the transaction isn't placed",
            Wrong::Memory => "memory ran out",
        }
    }

    /// The fault of this line.
    pub fn at(self, line: u64) -> Fault {
        Fault { line, wrong: self }
    }
}

impl From<AllocError> for Wrong {
    fn from(_: AllocError) -> Self {
        Wrong::Memory
    }
}

impl<T: Drop> From<AllocFailed<T>> for Wrong {
    fn from(_: AllocFailed<T>) -> Self {
        Wrong::Memory
    }
}

impl From<OctetsError> for Wrong {
    fn from(error: OctetsError) -> Self {
        match error {
            OctetsError::Digits => Wrong::Digits,
            OctetsError::Memory => Wrong::Memory,
        }
    }
}

impl From<PrepareError> for Wrong {
    fn from(error: PrepareError) -> Self {
        match error {
            PrepareError::Memory => Wrong::Memory,
            _ => Wrong::Entries,
        }
    }
}

/// What is wrong with a line, which is counted from 1.
#[derive(Clone, Copy)]
pub struct Fault {
    /// The line.
    pub line: u64,
    /// What is wrong with it.
    pub wrong: Wrong,
}
