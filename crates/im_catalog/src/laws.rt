//! That what SQL means over a history is one thing alone. Each function does nothing, and its contract is the law.

ghost use Rattle.std.specs.Prelude.{◌≡◌, ℕ, List, Option, Result};
ghost use Rattle.im_model.specs.declared.transactions.Transaction.{Transaction};
ghost use Rattle.im_sqlparse.specs.declared.statements.Form.{Form};
ghost use Rattle.im_sqlmodel.specs.Answers.{AnswerIs};
ghost use Rattle.im_sqlmodel.specs.Rows.{TableIs, IndexesAre};
ghost use Rattle.im_sqlmodel.specs.Tables.{IsTable};
ghost use Rattle.im_sqlmodel.specs.declared.answers.SqlError.{SqlError};
ghost use Rattle.im_sqlmodel.specs.declared.answers.SqlOut.{SqlOut};
ghost use Rattle.im_sqlmodel.specs.declared.tables.SqlIndex.{SqlIndex};
ghost use Rattle.im_sqlmodel.specs.declared.tables.Table.{Table};

/// A name has at most one table, or has none.
pub fn one_table()
    ensures { (history : List Transaction) (name : List ℕ) (a b : Option Table) → TableIs history name a → TableIs history name b → a ≡ b }
{}

/// A table has at most one list of indexes.
pub fn one_list_of_indexes()
    ensures { (history : List Transaction) (t : Table) (a b : List SqlIndex) → IsTable t → IndexesAre history t a → IndexesAre history t b → a ≡ b }
{}

/// A statement has at most one answer.
pub fn one_answer()
    ensures { (history : List Transaction) (said : Form) (a b : Result SqlOut SqlError) → AnswerIs history said a → AnswerIs history said b → a ≡ b }
{}
