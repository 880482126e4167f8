//! What holds of the definitions. Each function does nothing, and its contract is the law.

ghost use Rattle.std.specs.Prelude.{◌≡◌, ◌≤◌, ℕ, ℤ, List, [], ◌∷◌, ◌++◌, length, FitsSigned, None};
ghost use Rattle.std.specs.Int.{w64};
ghost use Rattle.im_model.specs.History.{IsHistory};
ghost use Rattle.im_model.specs.declared.transactions.Transaction.{Transaction};
ghost use Rattle.im_tx.specs.Asked.{Asked, IsAsked};
ghost use Rattle.im_versions.specs.Admits.{place_refusal};
ghost use Rattle.im_book.specs.Booked.{last_bl};

/// Behind a transaction that was placed the list is a history, and its last tree is that of this one.
pub fn placed_is_a_history()
    ensures history { (history : List Transaction) (asked : Asked) (ts : ℤ) (bl : ℕ) → IsHistory history → IsAsked asked → place_refusal history asked.pres ≡ None
        → last_bl history ≤ bl → bl ≤ length history → FitsSigned w64 ts → IsHistory (history ++ record { ts = ts; entries = asked.entries; bl = bl } ∷ []) }
    ensures last { (history : List Transaction) (tx : Transaction) → last_bl (history ++ tx ∷ []) ≡ tx.bl }
{}
