//! What holds of the definitions. Each function does nothing, and its contract is the law.

ghost use Rattle.std.specs.Prelude.{◌≡◌, ◌+◌, ◌≤◌, ◌↔◌, ℕ, List, [], ◌∷◌, ◌++◌, length, take, filter, nat_le, None};
ghost use Rattle.im_model.specs.declared.transactions.Transaction.{Transaction};
ghost use Rattle.im_draft.specs.declared.preconditions.Pre.{Pre as ThePre};
ghost use Rattle.im_versions.specs.Versions.{all_versions, versions_in, IsScan};
ghost use Rattle.im_versions.specs.Admits.{first_refusal, Admits};
ghost use Rattle.im_versions.specs.declared.versions.Version.{Version as TheVersion};

/// A transaction adds the versions that its entries are, behind the others.
pub fn a_transaction_adds_its_versions()
    ensures { (history : List Transaction) (tx : Transaction)
        → all_versions (history ++ tx ∷ []) ≡ all_versions history ++ versions_in (length history + 1) tx.entries }
{}

/// The versions of the first n transactions are those of the whole history whose number is at most n.
pub fn a_prefix_has_the_versions_up_to_it()
    ensures { (history : List Transaction) (n : ℕ)
        → all_versions (take n history) ≡ filter (λ v. nat_le v.tx n) (all_versions history) }
{}

/// There is at most one scan of a prefix.
pub fn one_scan()
    ensures { (history : List Transaction) (prefix : List ℕ) (a b : List TheVersion)
        → IsScan history prefix a → IsScan history prefix b → a ≡ b }
{}

/// Preconditions have no refusal exactly where each of them holds.
pub fn admitted_or_refused()
    ensures { (history : List Transaction) (pres : List ThePre) → first_refusal history pres ≡ None ↔ Admits history pres }
{}
