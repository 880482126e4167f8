//! What holds of the definitions. Each function does nothing, and its contract is the law.

ghost use Rattle.std.specs.Prelude.{◌≡◌, ◌⊎◌, ◌++◌, ℕ, List, Contains, Some};
ghost use Rattle.im_digest.specs.Digests.{Hash, GivesDigests};
ghost use Rattle.im_model.specs.declared.entries.Entry.{Entry};
ghost use Rattle.im_model.specs.declared.headers.Header.{Header};
ghost use Rattle.im_wire.specs.declared.messages.Message.{Message};
ghost use Rattle.im_facts.specs.Accepted.{IsAccepted, IsClient};
ghost use Rattle.im_facts.specs.Facts.{Known, Agrees, Differs, IsRising, with_message, known_after, known_header, entry_at, headers_shown, entries_shown};
ghost use Rattle.im_facts.specs.Folds.{IsVerdict, AreVerdicts, kept_by_all, known_by_all};
ghost use Rattle.im_facts.specs.Keeping.{Kept, Knows};
ghost use Rattle.im_facts.specs.News.{with_accepted};
ghost use Rattle.im_facts.specs.Verdicts.{Verdict, IsSameVerdict, AreSameVerdicts, messages_of};
ghost use Rattle.im_facts.specs.declared.facts.EntryFact.{EntryFact};

/// What is known by what a client keeps is one thing: a line says one message.
pub fn a_client_knows_one_thing()
    ensures { (kept : Kept) (a b : Known) → Knows kept a → Knows kept b → a ≡ b }
{}

/// The facts that a client keeps rise by their places, so each place has one at most.
pub fn kept_facts_rise()
    ensures { (hash : Hash) (known : Known) → IsClient hash known → IsRising known }
{}

/// The state is the kept header of its number, whatever the hash function.
pub fn the_state_is_kept()
    ensures { (hash : Hash) (known : Known) (state : Header) → IsClient hash known → known.state ≡ Some state → known_header known.headers state.id ≡ Some state }
{}

/// What is kept is what the noted messages showed: each header and entry that one of them shows is kept at its place,
/// and each kept one was shown by one of them.
pub fn facts_are_what_was_shown()
    ensures header { (hash : Hash) (known : Known) (message : Message) (header : Header) → IsClient hash known → Contains known.messages message → Contains (headers_shown message) header
        → known_header known.headers header.id ≡ Some header }
    ensures entry { (hash : Hash) (known : Known) (message : Message) (fact : EntryFact) → IsClient hash known → Contains known.messages message → Contains (entries_shown message) fact
        → entry_at known.entries fact.tx fact.index ≡ Some fact.entry }
    ensures no_other_header { (hash : Hash) (known : Known) (header : Header) → IsClient hash known → Contains known.headers header
        → (message : Message) × Contains known.messages message × Contains (headers_shown message) header }
    ensures no_other_entry { (hash : Hash) (known : Known) (fact : EntryFact) → IsClient hash known → Contains known.entries fact
        → (message : Message) × Contains known.messages message × Contains (entries_shown message) fact }
{}

/// No two noted messages show unequal facts for one place, nor do any two accepted ones of lines.
pub fn facts_never_differ()
    ensures headers { (hash : Hash) (known : Known) (m n : Message) (a b : Header) → IsClient hash known → Contains known.messages m → Contains known.messages n
        → Contains (headers_shown m) a → Contains (headers_shown n) b → a.id ≡ b.id → a ≡ b }
    ensures entries { (hash : Hash) (known : Known) (m n : Message) (a b : EntryFact) → IsClient hash known → Contains known.messages m → Contains known.messages n
        → Contains (entries_shown m) a → Contains (entries_shown n) b → a.tx ≡ b.tx → a.index ≡ b.index → a.entry ≡ b.entry }
    ensures accepted_headers { (hash : Hash) (known : Known) (lines : List (List ℕ)) (verdicts : List Verdict) (m n : Message) (a b : Header) → IsClient hash known → AreVerdicts hash known lines verdicts
        → Contains (messages_of verdicts) m → Contains (messages_of verdicts) n → Contains (headers_shown m) a → Contains (headers_shown n) b → a.id ≡ b.id → a ≡ b }
    ensures accepted_entries { (hash : Hash) (known : Known) (lines : List (List ℕ)) (verdicts : List Verdict) (m n : Message) (a b : EntryFact) → IsClient hash known → AreVerdicts hash known lines verdicts
        → Contains (messages_of verdicts) m → Contains (messages_of verdicts) n → Contains (entries_shown m) a → Contains (entries_shown n) b
        → a.tx ≡ b.tx → a.index ≡ b.index → a.entry ≡ b.entry }
{}

/// What was found of a place is still found with any message more, kept or not.
pub fn what_was_found_is_still_found()
    ensures header { (hash : Hash) (known : Known) (message : Message) (t : ℕ) (header : Header) → IsClient hash known
        → known_header known.headers t ≡ Some header → known_header (with_message known message).headers t ≡ Some header }
    ensures entry { (hash : Hash) (known : Known) (message : Message) (t i : ℕ) (entry : Entry) → IsClient hash known
        → entry_at known.entries t i ≡ Some entry → entry_at (with_message known message).entries t i ≡ Some entry }
    ensures accepted_header { (hash : Hash) (known : Known) (message : Message) (t : ℕ) (header : Header) → IsClient hash known
        → known_header known.headers t ≡ Some header → known_header (with_accepted known message).headers t ≡ Some header }
    ensures accepted_entry { (hash : Hash) (known : Known) (message : Message) (t i : ℕ) (entry : Entry) → IsClient hash known
        → entry_at known.entries t i ≡ Some entry → entry_at (with_accepted known message).entries t i ≡ Some entry }
{}

/// A message agrees with what is kept, or differs from it, and not both.
pub fn a_message_agrees_or_differs()
    ensures one_of_both { (known : Known) (message : Message) → Agrees known message ⊎ Differs known message }
    ensures not_both { (known : Known) (message : Message) → Agrees known message → Differs known message → ⊥ }
{}

/// Of a line one thing becomes at most, but for the strings of a fork.
pub fn one_verdict_but_for_its_pair()
    ensures { (hash : Hash) (known : Known) (line : List ℕ) (a b : Verdict) → IsVerdict hash known line a → IsVerdict hash known line b → IsSameVerdict a b }
{}

/// Of lines, one after the other, too; and what is known behind them is one.
pub fn one_list_of_verdicts_but_for_pairs()
    ensures verdicts { (hash : Hash) (known : Known) (lines : List (List ℕ)) (a b : List Verdict) → AreVerdicts hash known lines a → AreVerdicts hash known lines b → AreSameVerdicts a b }
    ensures keeps { (known : Known) (a b : List Verdict) → AreSameVerdicts a b → known_by_all known a ≡ known_by_all known b }
{}

/// Behind an accepted message the state, the headers and the entries are those with it, whether or not it is kept: one that
/// isn't kept would change the list of messages alone. Behind lines they are those to which all accepted messages of these
/// lead, one after the other.
pub fn only_the_message_is_left_out()
    ensures message { (hash : Hash) (known : Known) (message : Message) → IsClient hash known → IsAccepted hash known message
        → ((with_accepted known message).state ≡ (with_message known message).state)
        × ((with_accepted known message).headers ≡ (with_message known message).headers)
        × ((with_accepted known message).entries ≡ (with_message known message).entries) }
    ensures lines { (hash : Hash) (known : Known) (lines : List (List ℕ)) (verdicts : List Verdict) → IsClient hash known → AreVerdicts hash known lines verdicts
        → ((known_by_all known verdicts).state ≡ (known_after known (messages_of verdicts)).state)
        × ((known_by_all known verdicts).headers ≡ (known_after known (messages_of verdicts)).headers)
        × ((known_by_all known verdicts).entries ≡ (known_after known (messages_of verdicts)).entries) }
{}

/// What each accepted message of lines shows is known behind them all, kept or not; and the messages that are known there are
/// those before, and then those kept of the lines.
pub fn accepted_messages_are_known()
    ensures headers { (hash : Hash) (known : Known) (lines : List (List ℕ)) (verdicts : List Verdict) (message : Message) (header : Header) → IsClient hash known → AreVerdicts hash known lines verdicts
        → Contains (messages_of verdicts) message → Contains (headers_shown message) header → known_header (known_by_all known verdicts).headers header.id ≡ Some header }
    ensures entries { (hash : Hash) (known : Known) (lines : List (List ℕ)) (verdicts : List Verdict) (message : Message) (fact : EntryFact) → IsClient hash known → AreVerdicts hash known lines verdicts
        → Contains (messages_of verdicts) message → Contains (entries_shown message) fact → entry_at (known_by_all known verdicts).entries fact.tx fact.index ≡ Some fact.entry }
    ensures messages { (known : Known) (verdicts : List Verdict) → (known_by_all known verdicts).messages ≡ known.messages ++ kept_by_all known verdicts }
{}

/// Of each line something becomes, by what a client knows: for a message that forks comes with a pair.
pub fn each_line_has_a_verdict()
    ensures { (hash : Hash) (known : Known) (line : List ℕ) → GivesDigests hash → IsClient hash known → (verdict : Verdict) × IsVerdict hash known line verdict }
{}

/// Of lines, one after the other, too; and behind them it is still what a client knows.
pub fn lines_have_verdicts()
    ensures verdicts { (hash : Hash) (known : Known) (lines : List (List ℕ)) → GivesDigests hash → IsClient hash known → (verdicts : List Verdict) × AreVerdicts hash known lines verdicts }
    ensures client { (hash : Hash) (known : Known) (lines : List (List ℕ)) (verdicts : List Verdict) → IsClient hash known → AreVerdicts hash known lines verdicts → IsClient hash (known_by_all known verdicts) }
{}
