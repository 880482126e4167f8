use crate::errors::LineError;
use im_octet::octets::Octets;
use im_script::commands::Line;
use im_table::pass::Pass;
use std::marker::Model;

/// Lines of a session, in the script's order. A clause sees the list of them.
#[derive(Drop)]
pub struct Lines {
    lines: Vec<Line>,
}

impl Model for Lines {
    ghost use Rattle.std.specs.Prelude.{List};
    ghost use Rattle.im_script.specs.declared.commands.Line.{Line};

    ghost Value = { List Line };

    ghost view = { λ s. s.lines.items };
}

impl Lines {
    ghost use Rattle.std.specs.Prelude.{◌≡◌};

    /// These lines, which are not copied.
    pub fn from_vec(lines: Vec<Line>) -> Self
        ensures { result ≡ lines.items }
    {
        Lines { lines }
    }

    /// Gives the lines back. It takes no memory.
    pub fn into_vec(self) -> Vec<Line>
        ensures { result.items ≡ self }
    {
        let Lines { lines } = self;
        lines
    }
}

/// The texts of replies, in order. A clause sees the list of them.
#[derive(Drop)]
pub struct Texts {
    texts: Vec<Octets>,
}

impl Model for Texts {
    ghost use Rattle.std.specs.Prelude.{ℕ, List};

    ghost Value = { List (List ℕ) };

    ghost view = { λ s. s.texts.items };
}

impl Texts {
    ghost use Rattle.std.specs.Prelude.{◌≡◌};

    /// These texts, which are not copied.
    pub fn from_vec(texts: Vec<Octets>) -> Self
        ensures { result ≡ texts.items }
    {
        Texts { texts }
    }

    /// Lends the texts.
    pub fn as_slice(&self) -> &[Octets]
        ensures { result.now ≡ self.now }
    {
        self.texts.as_slice()
    }
}

/// A session in a phase.
#[derive(Drop)]
pub struct Session {
    /// Its number, from 0, in the order of the sessions' first lines.
    pub number: u8,
    /// How many of its lines were run: those of the phases before, too.
    pub run: u64,
    /// Those that it is still to run in this phase.
    pub lines: Vec<Line>,
    /// What it steps with.
    pub pass: Pass,
    /// The texts of its replies in this phase, one for each line that was answered: `<session> <n> <reply>` and LF.
    pub texts: Vec<Octets>,
    /// Why the next line got no reply, where one didn't.
    pub why: Option<LineError>,
}

/// What a session left of a phase.
#[derive(Drop)]
pub struct Ended {
    /// The texts of its replies.
    pub texts: Texts,
    /// Why the next line got no reply, where one didn't.
    pub why: Option<LineError>,
}

/// What a phase came to.
#[derive(Drop)]
pub struct Played {
    /// The number of each line's session, in the script's order.
    pub order: Vec<u8>,
    /// What each session left.
    pub ended: Vec<Ended>,
}
