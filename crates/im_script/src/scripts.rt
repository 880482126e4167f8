ghost use Rattle.std.specs.Prelude.{◌≡◌, ◌+◌, ◌≤◌, ◌↔◌, ℕ, length, IfOk, IsTrue, OnErr, OnOk, [], false};
ghost use Rattle.im_text.specs.Finds.{Finds};
ghost use Rattle.im_script.specs.Script.{IsScriptLine, IsPassedOver, MayFollow, IsScript, StopsAfter, end_of_phase, has_name, lines_of, names_of, with_name};
ghost use Rattle.im_script.specs.Arguments.{IsTaken, IsTextRefused, with_end, with_line};

use crate::commands::Line;
use crate::lines::read_line;
use crate::phases::{Phase, Script};
use im_octet::octets::Octets;
use im_text::cuts::first_line;
use std::alloc::{AllocError, Global};
use std::marker::Model;
use std::mem;

/// How many sessions a script may have.
pub const MOST_SESSIONS: usize = 8;

/// Why a script wasn't read.
#[derive(Debug, Drop)]
pub enum ScriptError {
    /// Memory ran out.
    Memory,
    /// The number, from 1, of the first line that isn't in the grammar. Empty lines and comments count too.
    Line(u64),
}

impl From<AllocError> for ScriptError {
    ghost use Rattle.im_script.specs.declared.scripts.ScriptError.TheVariants.{Memory};

    ghost from_gives = { λ _ e. e ≡ Memory };

    fn from(_: AllocError) -> Self {
        ScriptError::Memory
    }
}

// What was read so far.
#[derive(Drop)]
struct SoFar {
    names: Vec<Octets>,
    phases: Vec<Phase>,
    lines: Vec<Line>,
}

impl Model for SoFar {
    ghost use Rattle.im_script.specs.Arguments.{ReadSoFar};

    ghost Value = { ReadSoFar };

    ghost view = { λ s. record { names = s.names.items; phases = s.phases.items; lines = s.lines.items } };
}

impl SoFar {
    // Nothing was read.
    fn new(alloc: Global) -> SoFar
        ensures { result ≡ record { names = []; phases = []; lines = [] } }
    {
        SoFar {
            names: Vec::new(alloc),
            phases: Vec::new(alloc),
            lines: Vec::new(alloc),
        }
    }

    // Puts a line behind the others, and the name of its session, where it is new, behind the names.
    fn put(&mut self, alloc: Global, line: Line) -> Result<(), AllocError>
        ensures { OnOk result (self.new ≡ with_line self.old line) }
    {
        match put_name(alloc, &mut self.names, line.session.as_slice()) {
            Ok(()) => self.lines.push(line).map_err(AllocError::from),
            Err(error) => {
                drop(line);
                Err(error)
            }
        }
    }

    // Ends a phase.
    fn end_phase(&mut self, alloc: Global) -> Result<(), AllocError>
        ensures { OnOk result (self.new ≡ with_end self.old) }
    {
        let lines = mem::replace(&mut self.lines, Vec::new(alloc));
        self.phases
            .push(Phase::from_vec(lines))
            .map_err(AllocError::from)
    }
}

// Whether one of these names is this one.
fn has_name(names: &[Octets], name: &[u8]) -> bool
    ensures { result ≡ has_name names.now name.now }
{
    names.iter().any(|first| first.as_slice() == name)
}

// Puts the name of a session behind the others, where it is new.
fn put_name(alloc: Global, names: &mut Vec<Octets>, session: &[u8]) -> Result<(), AllocError>
    ensures { OnOk result (names.new.items ≡ with_name names.old.items session.now) }
{
    if has_name(names.as_slice(), session) {
        return Ok(());
    }
    let name = Octets::from_slice(alloc, session)?;
    names.push(name).map_err(AllocError::from)
}

// Whether a text is empty or a comment.
fn is_passed_over(text: &[u8]) -> bool
    ensures { IsTrue result ↔ IsPassedOver text.now }
{
    matches!(text, [] | [b'#', ..])
}

// Whether a text ends a phase.
fn is_end_of_phase(text: &[u8]) -> bool
    ensures { IsTrue result ↔ (text.now ≡ end_of_phase) }
{
    text == b"---".as_slice()
}

// Whether a line may stand behind lines of sessions with these names.
fn may_follow(names: &[Octets], line: &Line) -> bool
    ensures { IsTrue result ↔ MayFollow names.now line.now }
{
    has_name(names, line.session.as_slice()) || names.len() < MOST_SESSIONS
}

// The line that a text says, if it may stand behind lines of sessions with these names.
fn read_next(alloc: Global, text: &[u8], names: &[Octets]) -> Result<Option<Line>, AllocError>
    ensures { IfOk result (λ line. Finds line (λ l. IsScriptLine text.now l × MayFollow names.now l)) }
{
    let Some(line) = read_line(alloc, text)? else {
        return Ok(None);
    };
    if !may_follow(names, &line) {
        drop(line);
        return Ok(None);
    }
    Ok(Some(line))
}

// Takes a text: the line that it says, or the end of a phase, or nothing where it is passed over. False says that it is none
// of these.
fn take_text(alloc: Global, text: &[u8], so_far: &mut SoFar) -> Result<bool, AllocError>
    ensures taken { IfOk result (λ taken. IsTrue taken → IsTaken so_far.old text.now so_far.new) }
    ensures refused { IfOk result (λ taken. taken ≡ false → IsTextRefused so_far.old.names text.now) }
{
    if is_passed_over(text) {
        return Ok(true);
    }
    if is_end_of_phase(text) {
        so_far.end_phase(alloc)?;
        return Ok(true);
    }
    let Some(line) = read_next(alloc, text, &so_far.names)? else {
        return Ok(false);
    };
    so_far.put(alloc, line)?;
    Ok(true)
}

/// A script, or the number of the first line that isn't in the grammar or that may not stand where it does: a ninth session has
/// no line. It reads each octet a fixed number of times, and compares the name of each line with those before it.
pub fn read_script(alloc: Global, octets: &[u8]) -> Result<Script, ScriptError>
    ensures ok { IfOk result (λ script. IsScript octets.now script.phases.items) }
    ensures names { IfOk result (λ script. script.names.items ≡ names_of [] (lines_of script.phases.items)) }
    ensures line { (k : ℕ) → result ≡ Err (ScriptError.Line k) → (n : ℕ) × (k ≡ n + 1) × StopsAfter octets.now n }
{
    let mut so_far = SoFar::new(alloc);
    let mut number = 0;
    let mut rest = octets;
    while !rest.is_empty() {
        let (text, behind) = first_line(rest);
        number += 1;
        if !take_text(alloc, text, &mut so_far)? {
            return Err(ScriptError::Line(number));
        }
        rest = behind;
    }
    so_far.end_phase(alloc)?;
    let SoFar {
        names,
        phases,
        lines,
    } = so_far;
    drop(lines);
    Ok(Script { names, phases })
}
