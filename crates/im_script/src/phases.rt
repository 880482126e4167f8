use crate::commands::Line;
use im_octet::octets::Octets;
use std::marker::Model;

/// The lines of a phase, in the script's order, whatever their sessions. A clause sees the list of them.
#[derive(Drop)]
pub struct Phase {
    lines: Vec<Line>,
}

impl Model for Phase {
    ghost use Rattle.std.specs.Prelude.{List};
    ghost use Rattle.im_script.specs.declared.commands.Line.{Line};

    ghost Value = { List Line };

    ghost view = { λ s. s.lines.items };
}

impl Phase {
    ghost use Rattle.std.specs.Prelude.{◌≡◌};

    /// The phase of these lines, which are not copied.
    pub fn from_vec(lines: Vec<Line>) -> Self
        ensures { result ≡ lines.items }
    {
        Phase { lines }
    }

    /// Gives the lines back. It takes no memory.
    pub fn into_vec(self) -> Vec<Line>
        ensures { result.items ≡ self }
    {
        let Phase { lines } = self;
        lines
    }

    /// Lends the lines.
    pub fn as_slice(&self) -> &[Line]
        ensures { result.now ≡ self.now }
    {
        self.lines.as_slice()
    }
}

/// A script.
#[derive(Drop)]
pub struct Script {
    /// The names of its sessions, at most eight, each once, in the order of their first lines.
    pub names: Vec<Octets>,
    /// Its phases, at least one: a text that ends one begins the next.
    pub phases: Vec<Phase>,
}
