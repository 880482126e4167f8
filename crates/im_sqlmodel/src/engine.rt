//! What answers statements of SQL: a trait.

ghost use Rattle.std.specs.Prelude.{◌≡◌, ◌≤◌, ◌⊎◌, ◌++◌, ◌∷◌, [], ℕ, List, length, take, OnOk, Ok, Err};
ghost use Rattle.im_model.specs.History.{IsHistory};
ghost use Rattle.im_model.specs.declared.transactions.Transaction.{Transaction};
ghost use Rattle.im_tx.specs.Asked.{Asked};
ghost use Rattle.im_versions.specs.Admits.{Admits};
ghost use Rattle.im_sqlparse.specs.Formed.{IsStatement};
ghost use Rattle.im_sqlparse.specs.declared.statements.Form.{Form};
ghost use Rattle.im_sqlmodel.specs.Answers.{AnswerIs};
ghost use Rattle.im_sqlmodel.specs.Kept.{IsFirstUnsound, IsSqlKept};
ghost use Rattle.im_sqlmodel.specs.declared.answers.KeptError.TheVariants as kept;
ghost use Rattle.im_sqlmodel.specs.declared.answers.SqlError.TheVariants as error;
ghost use Rattle.im_sqlmodel.specs.declared.answers.SqlOut.TheVariants as out;

use crate::answers::{KeptError, SqlError, SqlOut};
use im_sqlparse::statements::Stmt;
use im_versions::changes::ChangesView;
use std::alloc::Global;

/// What answers statements of SQL over a view of a history's keys, and judges the keys of such a view. What answering and judging cost, each engine tells.
pub trait SqlEngine {
    /// What a statement answers where its line counts n transactions: the rows of a SELECT; what is to be placed, and under
    /// which preconditions; or that there is nothing to write. It changes nothing. What it gives to be placed is judged by
    /// its preconditions where it is placed: a `conflict` comes by these alone.
    ///
    /// # Errors
    ///
    /// The first in the order of docs/SQL.md, and `Memory` where memory runs out.
    fn run<V: ChangesView>(
        &self,
        alloc: Global,
        view: &V,
        stmt: &Stmt,
        n: u64,
    ) -> Result<SqlOut, SqlError>
        requires { (history : List Transaction) × V.stands view.now history × (n ≤ length history) × IsHistory history × IsSqlKept (take n history) }
        ensures { (history : List Transaction) → V.stands view.now history → n ≤ length history → IsHistory history → IsSqlKept (take n history)
            → (result ≡ Err error.Memory) ⊎ AnswerIs (take n history) stmt.now result };

    /// Whether the keys that begin with octet 00 are SQL's after each of the first `n` transactions: what
    /// docs/SQL.md says of them holds of those that are live, and no table or index changed once it was live.
    ///
    /// # Errors
    ///
    /// `NotKept` with the first transaction after which they aren't. `Memory` where memory runs out.
    fn judge<V: ChangesView>(&self, alloc: Global, view: &V, n: u64) -> Result<(), KeptError>
        requires { (history : List Transaction) × V.stands view.now history × (n ≤ length history) }
        ensures kept { (history : List Transaction) → V.stands view.now history → n ≤ length history → OnOk result (IsSqlKept (take n history)) }
        ensures not_kept { (history : List Transaction) → V.stands view.now history → n ≤ length history
            → (tx : ℕ) → result ≡ Err (kept.NotKept tx) → IsFirstUnsound (take n history) tx };

    /// What a statement asks for keeps the keys SQL's, where it is placed behind a history that admits it: one that begins
    /// with the transactions after which the statement was judged.
    ghost keeps: { (history : List Transaction) (tx : Transaction) (n : ℕ) (said : Form) (asked : Asked) → IsHistory (history ++ tx ∷ []) → IsSqlKept history
        → n ≤ length history → IsStatement said → AnswerIs (take n history) said (Ok (out.Write asked))
        → Admits history asked.pres → tx.entries ≡ asked.entries → IsSqlKept (history ++ tx ∷ []) };
}
