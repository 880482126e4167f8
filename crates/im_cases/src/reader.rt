//! The reader of a file of cases, line by line.

use crate::lines::CaseLine;
use crate::marks::check;
use crate::octets::at_blank;
use crate::texts::{Named, Scope, is_name};
use crate::wrong::{Fault, Wrong};
use std::alloc::Global;

/// The lines of a file of cases, each of which can be read.
#[derive(Drop)]
pub struct Script<'t> {
    /// The lines, the first one first.
    pub lines: Vec<CaseLine<'t>>,
    /// The texts that are named.
    pub named: Vec<Named>,
}

/// Reads the lines of a file, or tells the first one that can't be read.
pub fn read(alloc: Global, text: &str) -> Result<Script<'_>, Fault> {
    let mut reader = Reader {
        alloc,
        line: 0,
        script: Script {
            lines: Vec::new(alloc),
            named: Vec::new(alloc),
        },
        case: 0,
        runs: false,
        common_input: false,
        input: false,
    };
    let end = reader.read_lines(text);
    let Reader { line, script, .. } = reader;
    match end {
        Ok(()) => Ok(script),
        Err(wrong) => {
            drop(script);
            Err(wrong.at(line))
        }
    }
}

// What was read so far.
#[derive(Drop)]
struct Reader<'t> {
    alloc: Global,
    // The line that is read, from 1.
    line: u64,
    script: Script<'t>,
    // The line that the last case begins at, and 0 where none does.
    case: u64,
    // Whether that case has a run.
    runs: bool,
    // Whether a line of input stands above its first run.
    common_input: bool,
    // Whether a line of input stands above, for the same run.
    input: bool,
}

impl<'t> Reader<'t> {
    // Reads each line.
    fn read_lines(&mut self, text: &'t str) -> Result<(), Wrong> {
        for text in text.split_terminator('\n') {
            self.line = self.line.saturating_add(1);
            if !text.is_empty() && !text.starts_with('#') {
                let (mark, rest) = at_blank(text);
                let number = self.line;
                self.read_line(CaseLine { number, mark, rest })?;
            }
        }
        self.end_case()
    }

    // Reads one line.
    fn read_line(&mut self, line: CaseLine<'t>) -> Result<(), Wrong> {
        let read = match line.mark {
            "text" => self.name_text(line),
            "=" => self.begin_case(line),
            _ if self.case == 0 => Err(Wrong::NoCase),
            "$" => {
                self.begin_run();
                Ok(())
            }
            _ => self.check(line),
        };
        read?;
        self.script.lines.push(line)?;
        Ok(())
    }

    // Names a text.
    fn name_text(&mut self, line: CaseLine) -> Result<(), Wrong> {
        let (name, text) = at_blank(line.rest);
        let name = name.as_bytes();
        if !is_name(name) {
            return Err(Wrong::Name);
        }
        let scope = self.scope();
        if scope.find(name).is_some() {
            return Err(Wrong::Twice);
        }
        let text = scope.text(text)?;
        let name = Vec::from_slice(self.alloc, name)?;
        self.script.named.push(Named {
            line: line.number,
            name,
            text,
        })?;
        Ok(())
    }

    // Begins a case.
    fn begin_case(&mut self, line: CaseLine) -> Result<(), Wrong> {
        self.end_case()?;
        if line.rest.is_empty() {
            return Err(Wrong::Nameless);
        }
        self.case = line.number;
        self.runs = false;
        self.input = false;
        Ok(())
    }

    // Whether the last case has a run.
    fn end_case(&mut self) -> Result<(), Wrong> {
        if self.case > 0 && !self.runs {
            self.line = self.case;
            return Err(Wrong::NoRun);
        }
        Ok(())
    }

    // Begins a run of the last case, for which the lines above its first run hold.
    fn begin_run(&mut self) {
        if !self.runs {
            self.runs = true;
            self.common_input = self.input;
        }
        self.input = self.common_input;
    }

    // Checks a line of a run, or one that holds for each run of the last case.
    fn check(&mut self, line: CaseLine) -> Result<(), Wrong> {
        check(self.scope(), line)?;
        if line.mark == "with" && !self.input {
            return Err(Wrong::NoInput);
        }
        if line.mark.starts_with('>') {
            self.input = true;
        }
        Ok(())
    }

    // What the text of the line is read with.
    fn scope(&self) -> Scope<'_> {
        Scope {
            alloc: self.alloc,
            line: self.line,
            named: self.script.named.as_slice(),
        }
    }
}
