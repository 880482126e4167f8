use im_sql_words::octets::OctetsError;
use std::alloc::AllocError;

/// Why a line isn't told.
#[derive(Clone, Copy)]
pub enum Wrong {
    /// It isn't pairs of lower-case hex digits.
    Digits,
    /// Its octets aren't UTF-8.
    Encoding,
    /// Memory ran out.
    Memory,
}

impl Wrong {
    /// What is told of it.
    pub fn words(self) -> &'static str {
        match self {
            Wrong::Digits => "a text is written as pairs of lower-case hex digits",
            Wrong::Encoding => "the text isn't UTF-8",
            Wrong::Memory => "memory ran out",
        }
    }

    /// The fault of this line.
    pub fn at(self, line: u64) -> Fault {
        Fault { line, wrong: self }
    }
}

impl From<AllocError> for Wrong {
    fn from(_: AllocError) -> Self {
        Wrong::Memory
    }
}

impl From<OctetsError> for Wrong {
    fn from(error: OctetsError) -> Self {
        match error {
            OctetsError::Digits => Wrong::Digits,
            OctetsError::Memory => Wrong::Memory,
        }
    }
}

/// What is wrong with a line, which is counted from 1.
#[derive(Clone, Copy)]
pub struct Fault {
    /// The line.
    pub line: u64,
    /// What is wrong with it.
    pub wrong: Wrong,
}
