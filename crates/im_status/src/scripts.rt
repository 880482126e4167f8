//! A script is read from its source.

ghost use Rattle.std.specs.Prelude.{◌≡◌, ℕ, ◌+◌, ◌≤◌, ◌<◌, [], length, List, IfErr, IfOk, IfSome, IsErrOf, OnOk, Some};
ghost use Rattle.im_counts.specs.Counts.{Rose};
ghost use Rattle.im_edge.specs.Sources.{TakesAtMost};
ghost use Rattle.im_script.specs.Script.{StopsAfter, lines_of, names_of};
ghost use Rattle.im_status.specs.Scripts.{IsGiven};
ghost use Rattle.im_status.specs.Statuses.{EndsReading};

use crate::status::Status;
use im_edge::source::{Source, SourceError, read_all};
use im_model::limits::MOST_INPUT_OCTETS;
use im_script::phases::Script;
use im_script::scripts::{ScriptError, read_script};
use std::alloc::Global;

/// Reads a script from a source, to its end.
pub fn read_phases<S: Source>(alloc: Global, source: &mut S) -> Result<Script, Status>
    ensures given { IfOk result (λ read. (script : List ℕ) × IfSome (S.left source.old) (λ octets. octets ≡ script) × IsGiven script read.phases.items) }
    ensures names { IfOk result (λ read. (read.names.items ≡ names_of [] (lines_of read.phases.items)) × (length read.names.items ≤ 8)) }
    ensures emptied { OnOk result (IfSome (S.left source.old) (λ _. S.left source.new ≡ Some [])) }
    ensures taken { TakesAtMost 67112960 (S.left source.old) (S.left source.new) }
    ensures ends { IfErr result EndsReading }
    ensures script { (k : ℕ) → IsErrOf result (Status.Script k) → IfSome (S.left source.old) (λ script.
        (length script ≤ 67108864) × ((n : ℕ) × (k ≡ n + 1) × StopsAfter script n)) }
    ensures long { IsErrOf result Status.Long → IfSome (S.left source.old) (λ script. 67108864 < length script) }
    ensures read { IsErrOf result Status.ReadFault → Rose (S.faults source.old) (S.faults source.new) }
    ensures once { S.faults source.new ≤ S.faults source.old + 1 }
    ensures count { (IsErrOf result Status.ReadFault → ⊥) → S.faults source.new ≡ S.faults source.old }
{
    let octets = match read_all(alloc, source, MOST_INPUT_OCTETS) {
        Ok(octets) => octets,
        Err(SourceError::Memory) => return Err(Status::Memory),
        Err(SourceError::Failed) => return Err(Status::ReadFault),
        Err(SourceError::Long) => return Err(Status::Long),
    };
    match read_script(alloc, octets.as_slice()) {
        Ok(script) => Ok(script),
        Err(ScriptError::Memory) => Err(Status::Memory),
        Err(ScriptError::Line(line)) => Err(Status::Script { line }),
    }
}
