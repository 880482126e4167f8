//! What holds of scripts by the grammar alone: with the clauses of `read_script` it says exactly which
//! answer each octet string gets where memory is left.

ghost use Rattle.std.specs.Prelude.{◌≡◌, ◌⊎◌, ◌≤◌, ℕ, List, [], length};
ghost use Rattle.im_script.specs.declared.commands.Line.{Line};
ghost use Rattle.im_script.specs.Script.{IsScriptLine, IsScript, StopsAfter, lines_of, names_of};

/// A script is read in one way at most.
pub fn one_reading()
    ensures { (octets : List ℕ) (a b : List (List Line)) → IsScript octets a → IsScript octets b → a ≡ b }
{}

/// What is a script stops at no line.
pub fn not_both()
    ensures { (octets : List ℕ) (script : List (List Line)) (n : ℕ) → IsScript octets script → StopsAfter octets n → ⊥ }
{}

/// What is no script stops at one line at most.
pub fn one_stop()
    ensures { (octets : List ℕ) (m n : ℕ) → StopsAfter octets m → StopsAfter octets n → m ≡ n }
{}

/// A text says one line at most.
pub fn one_line()
    ensures { (text : List ℕ) (a b : Line) → IsScriptLine text a → IsScriptLine text b → a ≡ b }
{}

/// Octets are a script, or they stop at a line.
pub fn one_of_both()
    ensures { (octets : List ℕ) → ((script : List (List Line)) × IsScript octets script) ⊎ ((n : ℕ) × StopsAfter octets n) }
{}

/// A script has at most eight sessions.
pub fn at_most_eight_sessions()
    ensures { (octets : List ℕ) (script : List (List Line)) → IsScript octets script → length (names_of [] (lines_of script)) ≤ 8 }
{}
