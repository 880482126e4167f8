use std::alloc::AllocError;

/// Why streams aren't told.
#[derive(Clone, Copy)]
pub enum Wrong {
    /// A stream's second line isn't `hash sum` or `hash sha256`.
    Hash,
    /// A line of a stream doesn't begin with `> `.
    Mark,
    /// A client tells something else of lines than of the messages that they say.
    Apart,
    /// Memory ran out.
    Memory,
}

impl Wrong {
    /// What is told of it.
    pub fn words(self) -> &'static str {
        match self {
            Wrong::Hash => "the second line of a stream names its hash, sum or sha256",
            Wrong::Mark => "a line of a stream begins with `> `",
            Wrong::Apart => "something else is told of lines than of the messages that they say",
            Wrong::Memory => "memory ran out",
        }
    }
}

impl From<AllocError> for Wrong {
    fn from(_: AllocError) -> Self {
        Wrong::Memory
    }
}
