//! What holds of the reports of sessions. Each function does nothing, and its contract is the law.

ghost use Rattle.std.specs.Prelude.{◌≤◌, ℕ, Bool, List, length, take, false, All};
ghost use Rattle.im_digest.specs.Digests.{Hash};
ghost use Rattle.im_model.specs.declared.transactions.Transaction.{Transaction};
ghost use Rattle.im_report.specs.Alone.{ReportsAlone};
ghost use Rattle.im_report.specs.Further.{KeepsReplies, written_replies};
ghost use Rattle.im_report.specs.Outcomes.{Outcome};
ghost use Rattle.im_report.specs.Report.{Report};
ghost use Rattle.im_report.specs.Sessions.{AreAnswered, AreOfOne, SessionsReport, lines_in, phases_text};
ghost use Rattle.im_script.specs.Script.{lines_of};

/// What a single session answers where lines alone link is the report of one list of lines, in which each transaction has the place of its line, and is
/// placed over just the tree that the lines before it had linked. Behind it stands at most the transaction of a line without a reply.
pub fn one_session_reports_as_before()
    ensures { (hash : Hash) (h0 h : List Transaction) (phases : List (List Outcome)) → SessionsReport hash false h0 h phases → AreOfOne phases
        → ReportsAlone hash h0 h phases }
{}

/// Where all lines were answered nothing is left: it is the report of all of them.
pub fn one_session_answers_all_as_before()
    ensures { (hash : Hash) (h0 h : List Transaction) (phases : List (List Outcome)) → SessionsReport hash false h0 h phases → AreOfOne phases → All AreAnswered phases
        → Report hash h0 h (lines_of (lines_in phases)) (phases_text phases) }
{}

/// A run's history may be cut off anywhere behind what was found and behind the numbers of the first replies, however many these are: what is left, as a
/// crash may leave it, keeps these replies, and each further transaction of it has the entries of one line behind theirs, a different one for each.
pub fn what_is_left_keeps_the_replies()
    ensures { (hash : Hash) (linker : Bool) (h0 h : List Transaction) (phases : List (List Outcome)) → SessionsReport hash linker h0 h phases
        → (count most : ℕ) → count ≤ length (written_replies phases) → length h0 ≤ most → most ≤ length h → All (λ a. a.number ≤ most) (take count (written_replies phases))
        → KeepsReplies hash h0 (take most h) phases count }
{}
