//! What keeps the keys SQL's. The function does nothing, and its contract is the law.

ghost use Rattle.std.specs.Prelude.{◌≡◌, ◌≤◌, ◌++◌, ◌∷◌, [], ℕ, List, length, take, Ok};
ghost use Rattle.im_model.specs.History.{IsHistory};
ghost use Rattle.im_model.specs.declared.transactions.Transaction.{Transaction};
ghost use Rattle.im_versions.specs.Admits.{Admits};
ghost use Rattle.im_tx.specs.Asked.{Asked};
ghost use Rattle.im_sqlparse.specs.Formed.{IsStatement};
ghost use Rattle.im_sqlparse.specs.declared.statements.Form.{Form};
ghost use Rattle.im_sqlmodel.specs.Answers.{AnswerIs};
ghost use Rattle.im_sqlmodel.specs.Kept.{IsSqlKept};
ghost use Rattle.im_sqlmodel.specs.declared.answers.SqlOut.TheVariants as out;

/// What a statement asks for keeps the keys SQL's, where it is placed behind a history that admits it: one that begins
/// with the transactions after which the statement was judged.
pub fn a_statement_keeps()
    ensures { (history : List Transaction) (tx : Transaction) (n : ℕ) (said : Form) (asked : Asked) → IsHistory (history ++ tx ∷ []) → IsSqlKept history
        → n ≤ length history → IsStatement said → AnswerIs (take n history) said (Ok (out.Write asked))
        → Admits history asked.pres → tx.entries ≡ asked.entries → IsSqlKept (history ++ tx ∷ []) }
{}
