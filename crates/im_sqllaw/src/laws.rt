//! What may be placed under the law. Each function does nothing, and its contract is the law.

ghost use Rattle.std.specs.Prelude.{◌≡◌, ◌≢◌, ◌∷◌, ◌≤◌, ℕ, List, length, map, take, true, All, Ok};
ghost use Rattle.im_draft.specs.declared.preconditions.Pre.TheVariants.{Since};
ghost use Rattle.im_model.specs.History.{IsHistory};
ghost use Rattle.im_model.specs.declared.transactions.Transaction.{Transaction};
ghost use Rattle.im_seated_book.specs.Seats.{MayBePlaced};
ghost use Rattle.im_sqllaw.specs.Law.{KeepsSql};
ghost use Rattle.im_sqlmodel.specs.Answers.{AnswerIs};
ghost use Rattle.im_sqlmodel.specs.Kept.{IsSqlKept};
ghost use Rattle.im_sqlmodel.specs.declared.answers.SqlOut.TheVariants as out;
ghost use Rattle.im_sqlparse.specs.Formed.{IsStatement};
ghost use Rattle.im_sqlparse.specs.declared.statements.Form.{Form};
ghost use Rattle.im_table.specs.Histories.{history_of, GoesOn};
ghost use Rattle.im_table.specs.declared.items.LogItem.{LogItem};
ghost use Rattle.im_tx.specs.Asked.{Asked};

use im_sqlmodel::engine::SqlEngine;

/// Entries without a key that begins with octet 00 may be placed behind whatever was seen.
pub fn other_entries_may_be_placed()
    ensures { (seen : List LogItem) (asked : Asked) → All (λ e. (rest : List ℕ) → e.key ≢ 0 ∷ rest) asked.entries → MayBePlaced KeepsSql seen asked }
{}

/// And so may what a statement asks for behind the first transactions of what was seen: it rests on what any engine keeps (`SqlEngine::keeps`).
pub fn a_statement_may_be_placed<Q: SqlEngine>()
    ensures { (seen : List LogItem) (n : ℕ) (said : Form) (asked : Asked) → n ≤ length seen → IsStatement said → AnswerIs (take n (history_of seen)) said (Ok (out.Write asked))
        → MayBePlaced KeepsSql seen asked }
{}

/// A statement asks for no key to be live or missing: each precondition is that a key wasn't written behind what was read.
pub fn a_statement_asks_since()
    ensures { (history : List Transaction) (said : Form) (asked : Asked) → AnswerIs history said (Ok (out.Write asked))
        → (keys : List (List ℕ)) × (asked.pres ≡ map (λ key. Since key (length history)) keys) }
{}

/// A list that a store has: its keys are SQL's after each transaction, where they were that behind what was found.
pub fn a_list_is_kept()
    ensures { (found items : List LogItem) → GoesOn found items → All (λ item. item.found ≡ true) found → IsHistory (history_of items) → KeepsSql items → IsSqlKept (history_of found)
        → IsSqlKept (history_of items) }
{}
