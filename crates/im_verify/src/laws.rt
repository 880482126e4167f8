ghost use Rattle.std.specs.Prelude.{◌≡◌, ◌⊎◌, ◌++◌, ℕ, List, [], ◌∷◌, length, get_or, IfSome, Option, Some};
ghost use Rattle.im_digest.specs.Digests.{Hash, GivesDigests};
ghost use Rattle.im_wire.specs.Lines.{IsLine};
ghost use Rattle.im_wire.specs.declared.messages.Message.{Message};
ghost use Rattle.im_facts.specs.Facts.{nothing};
ghost use Rattle.im_facts.specs.Folds.{IsForkedBy, known_by_all};
ghost use Rattle.im_facts.specs.Verdicts.{Verdict, Forked};
ghost use Rattle.im_verify.specs.Judged.{kept_texts, up_to_fork, AreJudged, AreTaken, StopsKept};
ghost use Rattle.im_verify.specs.Runs.{BreaksAt, BreaksInto, BreaksOff, KeepsFirst, Verifies};
ghost use Rattle.im_verify.specs.declared.ended.Ended.{Ended};

/// However a run breaks off, each line that is written whole has its message kept.
pub fn a_told_message_is_kept()
    ensures into { (hash : Hash) (source before after : Option (List ℕ)) (held now : Option (List (List ℕ)))
        → BreaksInto hash source before after held now → KeepsFirst hash source before after held now }
    ensures off { (hash : Hash) (source before after : Option (List ℕ)) (held now : Option (List (List ℕ)))
        → BreaksOff hash source before after held now → KeepsFirst hash source before after held now }
    ensures at { (hash : Hash) (source before after : Option (List ℕ)) (held now : Option (List (List ℕ)))
        → BreaksAt hash source before after held now → KeepsFirst hash source before after held now }
{}

/// Kept lines are all taken, or they stop at one line, and not both.
pub fn kept_lines_are_taken_or_stop()
    ensures one_of_both { (hash : Hash) (kept : List (List ℕ)) → GivesDigests hash
        → ((verdicts : List Verdict) × AreTaken hash kept verdicts) ⊎ ((n : ℕ) × StopsKept hash kept n) }
    ensures not_both { (hash : Hash) (kept : List (List ℕ)) (verdicts : List Verdict) (n : ℕ)
        → AreTaken hash kept verdicts → StopsKept hash kept n → ⊥ }
    ensures one_stop { (hash : Hash) (kept : List (List ℕ)) (m n : ℕ) → StopsKept hash kept m → StopsKept hash kept n → m ≡ n }
{}

/// What a run kept, the next one takes: no kept line of it is refused or forked, and behind them the client knows all that
/// it knew behind the run.
pub fn what_is_kept_is_taken()
    ensures { (hash : Hash) (kept texts : List (List ℕ)) (verdicts : List Verdict) (judged : AreJudged hash kept texts verdicts)
        → (again : List Verdict) × AreTaken hash (kept ++ kept_texts (up_to_fork verdicts)) again
        × (known_by_all nothing again ≡ known_by_all (known_by_all nothing judged.before) (up_to_fork verdicts)) }
{}

/// However a run ended, the lines that its keeper then holds are all taken by the next one, where the keeper tells them.
pub fn what_is_left_is_taken()
    ensures done { (hash : Hash) (ended : Ended) (source before after : Option (List ℕ)) (held now : Option (List (List ℕ)))
        → Verifies hash ended source before after held now → IfSome now (λ lines. (again : List Verdict) × AreTaken hash lines again) }
    ensures into { (hash : Hash) (source before after : Option (List ℕ)) (held now : Option (List (List ℕ)))
        → BreaksInto hash source before after held now → IfSome now (λ lines. (again : List Verdict) × AreTaken hash lines again) }
    ensures off { (hash : Hash) (source before after : Option (List ℕ)) (held now : Option (List (List ℕ)))
        → BreaksOff hash source before after held now → IfSome now (λ lines. (again : List Verdict) × AreTaken hash lines again) }
    ensures at { (hash : Hash) (source before after : Option (List ℕ)) (held now : Option (List (List ℕ)))
        → BreaksAt hash source before after held now → IfSome now (λ lines. (again : List Verdict) × AreTaken hash lines again) }
{}

/// The fork that a run tells is of a line of the stream: the line behind those that were told before is a message that passes
/// each check and shows a fact unlike a kept one, and the two strings are unequal, have one digest, and are both among those
/// hashed in checking the messages known there, which the kept lines and the lines before gave, and this one.
pub fn a_fork_is_of_the_lines()
    ensures { (hash : Hash) (kept texts : List (List ℕ)) (verdicts front : List Verdict) (x y : List ℕ) (judged : AreJudged hash kept texts verdicts)
        → up_to_fork verdicts ≡ front ++ Forked x y ∷ []
        → (message : Message) × IsLine (get_or texts (length front) []) (Some message)
        × IsForkedBy hash (known_by_all (known_by_all nothing judged.before) front) message x y }
{}
