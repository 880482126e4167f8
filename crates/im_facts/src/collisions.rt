//! What holds of the definitions for any hash function, but where there are two unequal strings of one digest. Each
//! function does nothing, and its contract is the law.

ghost use Rattle.std.specs.Prelude.{◌≡◌, ◌⊎◌, ◌++◌, ◌∷◌, [], ℕ, List, Option, Ok};
ghost use Rattle.im_digest.specs.Digests.{Hash, GivesDigests};
ghost use Rattle.im_model.specs.Headers.{header_strings};
ghost use Rattle.im_model.specs.declared.headers.Header.{Header};
ghost use Rattle.im_mtree.specs.Checks.{first_fail};
ghost use Rattle.im_proof.specs.declared.proofs.DualProof.{DualProof};
ghost use Rattle.im_pairs.specs.Pairs.{AreAmong, HasPair};
ghost use Rattle.im_pairs.specs.Ranges.{HeaderFits};
ghost use Rattle.im_carried.specs.Opened.{IsOpened};
ghost use Rattle.im_hashed.specs.Messages.{message_strings, strings_of};
ghost use Rattle.im_wire.specs.Fits.{IsMessage};
ghost use Rattle.im_wire.specs.declared.messages.Message.{Message};
ghost use Rattle.im_wire.specs.declared.messages.Message.TheVariants.{Advance};
ghost use Rattle.im_client.specs.LineChecks.{advance_line_checks};
ghost use Rattle.im_facts.specs.Accepted.{IsClient, Passes};
ghost use Rattle.im_facts.specs.Facts.{Known, Differs};
ghost use Rattle.im_facts.specs.Held.{HoldsOrPair};

/// An advance that passes its line checks under a state carries what is opened under that state to its target, or there
/// are two unequal strings of one digest among any that hold those hashed for the state and for the advance.
pub fn an_accepted_advance_carries()
    ensures { (hash : Hash) (state : Header) (dual : DualProof) (anchor : Option DualProof) (t : ℕ) (a : List ℕ) (strings : List (List ℕ)) → GivesDigests hash → HeaderFits state
        → IsMessage (Advance dual anchor) → first_fail (advance_line_checks hash state dual anchor) ≡ Ok tt
        → AreAmong (header_strings hash state) strings → AreAmong (message_strings hash (Advance dual anchor)) strings
        → IsOpened hash state t a strings → IsOpened hash dual.target t a strings ⊎ HasPair hash strings }
{}

/// After any accepted messages each kept header is opened under the state, and each kept entry lies under its kept
/// header, or two unequal strings of one digest are among those hashed in checking the kept ones of these messages.
pub fn what_is_kept_holds()
    ensures { (hash : Hash) (known : Known) → GivesDigests hash → IsClient hash known → HoldsOrPair hash known }
{}

/// A message that passes every check, and shows a fact unlike the kept one of its place, comes with two unequal strings
/// of one digest among those hashed in checking the noted messages and this one.
pub fn a_second_fact_is_a_pair()
    ensures { (hash : Hash) (known : Known) (message : Message) → GivesDigests hash → IsClient hash known → IsMessage message → Passes hash known message → Differs known message
        → HasPair hash (strings_of hash (known.messages ++ message ∷ [])) }
{}
