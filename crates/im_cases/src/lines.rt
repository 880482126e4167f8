use crate::octets::number;
use crate::texts::{Named, Scope};
use crate::wrong::Wrong;
use std::alloc::Global;

/// A line of a file of cases that isn't passed over.
#[derive(Clone, Copy)]
pub struct CaseLine<'t> {
    /// Its number, from 1.
    pub number: u64,
    /// The mark that it begins with.
    pub mark: &'t str,
    /// What stands behind the mark and a blank.
    pub rest: &'t str,
}

/// The lines up to the first one of this mark.
pub fn before<'a, 't>(lines: &'a [CaseLine<'t>], mark: &str) -> &'a [CaseLine<'t>] {
    for (at, line) in lines.iter().enumerate() {
        if line.mark == mark {
            return &lines[..at];
        }
    }
    lines
}

/// A run of a case, or what holds for each run of it.
#[derive(Clone, Copy)]
pub struct Run<'a, 't> {
    /// Where memory comes from.
    pub alloc: Global,
    /// The texts that the file names.
    pub named: &'a [Named],
    /// The run's lines, each of which was checked: those that hold for each run of the case first.
    pub lines: &'a [CaseLine<'t>],
}

impl<'a, 't> Run<'a, 't> {
    /// The last line of this mark, if there is one.
    pub fn last(self, mark: &str) -> Option<CaseLine<'t>> {
        let mut last = None;
        for line in self.lines {
            if line.mark == mark {
                last = Some(*line);
            }
        }
        last
    }

    /// The number that the last line of this mark says, if there is one.
    pub fn number(self, mark: &str) -> Option<u64> {
        number(self.last(mark)?.rest).ok()
    }

    /// What the text of a line is read with.
    pub fn scope(self, line: CaseLine) -> Scope<'a> {
        Scope {
            alloc: self.alloc,
            line: line.number,
            named: self.named,
        }
    }

    /// The texts of the lines of this mark, each with an LF, and of those of the mark and a hyphen, each without one.
    pub fn texts(self, mark: &str) -> Result<Vec<u8>, Wrong> {
        let mut texts = Vec::new(self.alloc);
        for line in self.lines {
            if line.mark.strip_suffix('-').unwrap_or(line.mark) == mark {
                push_text(self.scope(*line), &mut texts, *line)?;
            }
        }
        Ok(texts)
    }
}

/// Adds the text of a line, and an LF where its mark doesn't end with a hyphen.
pub fn push_text(scope: Scope, out: &mut Vec<u8>, line: CaseLine) -> Result<(), Wrong> {
    out.extend_from_slice(&scope.text(line.rest)?)?;
    if !line.mark.ends_with('-') {
        out.push(b'\n')?;
    }
    Ok(())
}
