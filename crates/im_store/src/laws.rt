//! What holds of the definitions. The function does nothing, and its contract is the law.

ghost use Rattle.std.specs.Prelude.{◌≡◌, ◌≤◌, ℕ, length, take, None};
ghost use Rattle.im_table.specs.Histories.{history_of};
ghost use Rattle.im_table.specs.Known.{KnownPass};
ghost use Rattle.im_tx.specs.Asked.{Asked};
ghost use Rattle.im_versions.specs.Admits.{place_refusal};
ghost use Rattle.im_versions.specs.declared.refusals.PlaceError.{PlaceError};
ghost use Rattle.im_store.specs.Commits.{IsRefusedAt};

/// What a commit asked for that is admitted at each number from the pass's list on isn't refused.
pub fn an_admitted_commit_is_not_refused()
    ensures { (asked : Asked) (old new : KnownPass) (why : PlaceError) (at : ℕ)
        → ((n : ℕ) → length old.view.seen ≤ n → place_refusal (history_of (take n new.view.seen)) asked.pres ≡ None)
        → IsRefusedAt asked old new why at → ⊥ }
{}
