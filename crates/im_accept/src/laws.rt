//! What holds of the definitions. Each function does nothing, and its contract is the law.

ghost use Rattle.std.specs.Prelude.{◌≡◌, ◌++◌, ℕ, All, Bool, List, map, true};
ghost use Rattle.im_text.specs.Lines.{AreTexts};
ghost use Rattle.im_digest.specs.Digests.{Hash};
ghost use Rattle.im_model.specs.declared.transactions.Transaction.{Transaction};
ghost use Rattle.im_report.specs.Further.{written_replies};
ghost use Rattle.im_report.specs.Messages.{AreReadBack};
ghost use Rattle.im_report.specs.Outcomes.{Outcome, line_in};
ghost use Rattle.im_report.specs.Report.{Report};
ghost use Rattle.im_report.specs.Sessions.{SessionsReport, first_replies, lines_in, phase_text, phases_text, replies_in};
ghost use Rattle.im_script.specs.Script.{IsScript, lines_of};
ghost use Rattle.im_script.specs.declared.commands.Line.{Line};
ghost use Rattle.im_wire.specs.Lines.{is_open};
ghost use Rattle.im_wire.specs.Texts.{text};
ghost use Rattle.im_wire.specs.declared.messages.Message.{Message};
ghost use Rattle.im_accept.specs.Taken.{line_text, AreAcceptedAnswers, HaveSessions};

/// The lines of a script have sessions' names.
pub fn lines_of_a_script_have_sessions()
    ensures { (octets : List ℕ) (script : List (List Line)) → IsScript octets script → HaveSessions (lines_of script) }
{}

/// The text of each message begins as an object does.
pub fn each_message_is_open()
    ensures { (message : Message) → is_open (text message) ≡ true }
{}

/// Each line of a report that is a message is accepted by the clients that it is for, and every other line
/// is passed over, where the replies are read as the messages that were asked for. That they are is said by
/// the session which writes them: digests of other lengths than 32 octets would be read by none.
pub fn a_client_takes_each_message()
    ensures { (hash : Hash) (h0 h : List Transaction) (lines : List Line) (octets : List ℕ) (report : Report hash h0 h lines octets)
        → HaveSessions lines → AreReadBack hash h report.answers → AreAcceptedAnswers hash h report.answers }
{}

/// The octets of a report, cut at each LF, are its answered lines, and a report is of one list of them.
pub fn a_report_is_cut_into_its_lines()
    ensures texts { (hash : Hash) (h0 h : List Transaction) (lines : List Line) (octets : List ℕ) (report : Report hash h0 h lines octets)
        → HaveSessions lines → AreTexts octets (map line_text report.answers) }
    ensures one { (hash : Hash) (h0 h : List Transaction) (lines : List Line) (octets : List ℕ) (a b : Report hash h0 h lines octets)
        → HaveSessions lines → a.answers ≡ b.answers }
{}

/// Each reply of sessions that is a message, written or not, is accepted by the clients that it is for, and every other one is
/// passed over, where the replies are read as the messages that were asked for.
pub fn a_client_takes_each_message_of_sessions()
    ensures { (hash : Hash) (linker : Bool) (h0 h : List Transaction) (phases : List (List Outcome)) → SessionsReport hash linker h0 h phases
        → All (λ outcomes. HaveSessions (map line_in outcomes)) phases → All (λ outcomes. AreReadBack hash h (replies_in outcomes)) phases
        → All (λ outcomes. AreAcceptedAnswers hash h (replies_in outcomes)) phases }
{}

/// What is written of a phase, cut at each LF, is the answered lines before the first one without a reply; and what is written of all
/// phases is those of each, phase behind phase. Of one script the same octets are written for one list of answered lines: numbers and
/// replies are read off them.
pub fn phases_are_cut_into_their_lines()
    ensures each { (hash : Hash) (linker : Bool) (h0 h : List Transaction) (phases : List (List Outcome)) → SessionsReport hash linker h0 h phases
        → All (λ outcomes. HaveSessions (map line_in outcomes)) phases → All (λ outcomes. AreTexts (phase_text outcomes) (map line_text (first_replies outcomes))) phases }
    ensures all { (hash : Hash) (linker : Bool) (h0 h : List Transaction) (phases : List (List Outcome)) → SessionsReport hash linker h0 h phases
        → All (λ outcomes. HaveSessions (map line_in outcomes)) phases → AreTexts (phases_text phases) (map line_text (written_replies phases)) }
    ensures one { (hash : Hash) (linker : Bool) (h0 h g0 g : List Transaction) (phases others : List (List Outcome)) (unrun left : List (List Line)) → SessionsReport hash linker h0 h phases
        → SessionsReport hash linker g0 g others → All (λ outcomes. HaveSessions (map line_in outcomes)) phases → All (λ outcomes. HaveSessions (map line_in outcomes)) others
        → lines_in phases ++ unrun ≡ lines_in others ++ left → phases_text phases ≡ phases_text others → written_replies phases ≡ written_replies others }
{}
