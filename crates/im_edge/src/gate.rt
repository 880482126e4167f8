/// A place beside a line of a session. Sessions are numbered from 0, in the order of their first
/// lines.
#[derive(Clone, Copy, Debug, PartialEq, Eq)]
pub enum Point {
    /// The line isn't run yet.
    Before { session: u8, line: u64 },
    /// The line has been run.
    After { session: u8, line: u64 },
}

/// What a session calls before and after each line, and what may hold it up there.
pub trait Gate {
    /// Returns once the session may go on from this point.
    fn pause(&self, point: Point);
}

/// A gate that holds up nothing.
#[derive(Clone, Copy, Debug, PartialEq, Eq)]
pub struct OpenGate;

impl Gate for OpenGate {
    fn pause(&self, _point: Point) {}
}
