//! What holds of the texts. Each function does nothing, and its contract is the law.

ghost use Rattle.std.specs.Prelude.{◌≡◌, ◌⊎◌, ◌∷◌, ℕ, List, Result};
ghost use Rattle.im_text.specs.Cuts.{Lacks};
ghost use Rattle.im_model.specs.declared.transactions.Transaction.{Transaction};
ghost use Rattle.im_sqlparse.specs.Formed.{IsStatement};
ghost use Rattle.im_sqlparse.specs.declared.errors.SqlSyntax.{SqlSyntax};
ghost use Rattle.im_sqlparse.specs.declared.statements.Form.{Form};
ghost use Rattle.im_sqlmodel.specs.Answers.{AnswerIs};
ghost use Rattle.im_sqlmodel.specs.declared.answers.SqlError.{SqlError};
ghost use Rattle.im_sqlmodel.specs.declared.answers.SqlOut.{SqlOut};
ghost use Rattle.im_sqlreply.specs.Replies.{syntax_reply};
ghost use Rattle.im_sqlreply.specs.Shown.{IsShown};

/// No text that is told has an LF in it, whatever a row holds: so it is one line. It begins with `r`, `n` or `e`, as no message does, nor `tx`.
pub fn what_is_told_is_a_line()
    ensures shown { (history : List Transaction) (said : Form) (answer : Result SqlOut SqlError) (reply : List ℕ) → IsStatement said → AnswerIs history said answer → IsShown answer reply
        → Lacks 10 reply }
    ensures fault { (fault : SqlSyntax) → Lacks 10 (syntax_reply fault) }
    ensures begins { (answer : Result SqlOut SqlError) (reply : List ℕ) → IsShown answer reply
        → (rest : List ℕ) × ((reply ≡ 114 ∷ rest) ⊎ ((reply ≡ 110 ∷ rest) ⊎ (reply ≡ 101 ∷ rest))) }
    ensures fault_begins { (fault : SqlSyntax) → (rest : List ℕ) × (syntax_reply fault ≡ 101 ∷ rest) }
{}
