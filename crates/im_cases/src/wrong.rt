use std::alloc::{AllocError, AllocFailed};

/// Why a line of a file of cases can't be read, or can't be done when its run begins.
#[derive(Clone, Copy)]
pub enum Wrong {
    /// The octets of the file aren't UTF-8 from this line on.
    Encoding,
    /// The line begins with no mark.
    Mark,
    /// The mark doesn't take these words.
    Words,
    /// No case begins above the line.
    NoCase,
    /// A case has no run.
    NoRun,
    /// A case has no name.
    Nameless,
    /// A text is named otherwise than by a-z 0-9 -.
    Name,
    /// A text's name was given above.
    Twice,
    /// A text is used that isn't named above.
    Unnamed,
    /// A number is wanted, and isn't written in decimal digits, or is too large.
    Number,
    /// A file's number is above 15.
    File,
    /// Octets are written otherwise than as words of hex digits, with a count or not, or as a quoted text.
    Octets,
    /// A `with` stands behind no line of input.
    NoInput,
    /// What is to be replaced doesn't stand in the input.
    NotThere,
    /// The run before wrote fewer lines.
    NoLine,
    /// A file has fewer octets.
    Short,
    /// Memory ran out.
    Memory,
}

impl Wrong {
    /// What is told of it.
    pub fn words(self) -> &'static str {
        match self {
            Wrong::Encoding => "it isn't UTF-8",
            Wrong::Mark => "no such mark",
            Wrong::Words => "the mark doesn't take these words",
            Wrong::NoCase => "no case begins above it",
            Wrong::NoRun => "the case has no run",
            Wrong::Nameless => "the case has no name",
            Wrong::Name => "a text's name is of a-z 0-9 -",
            Wrong::Twice => "a text of this name stands above",
            Wrong::Unnamed => "no text of this name stands above",
            Wrong::Number => "a number is wanted here, in decimal digits, and not too large",
            Wrong::File => "a file is one of 0 to 15",
            Wrong::Octets => "octets are written as 00ff, 00*16 or \"abc\"",
            Wrong::NoInput => "no line of input stands above it",
            Wrong::NotThere => "what is to be replaced doesn't stand there",
            Wrong::NoLine => "the run before wrote no such line",
            Wrong::Short => "the file has fewer octets",
            Wrong::Memory => "memory ran out",
        }
    }

    /// The fault of this line.
    pub fn at(self, line: u64) -> Fault {
        Fault { line, wrong: self }
    }
}

impl From<AllocError> for Wrong {
    fn from(_: AllocError) -> Self {
        Wrong::Memory
    }
}

impl<T: Drop> From<AllocFailed<T>> for Wrong {
    fn from(_: AllocFailed<T>) -> Self {
        Wrong::Memory
    }
}

/// What is wrong with a line, which is counted from 1.
#[derive(Clone, Copy)]
pub struct Fault {
    /// The line.
    pub line: u64,
    /// What is wrong with it.
    pub wrong: Wrong,
}
