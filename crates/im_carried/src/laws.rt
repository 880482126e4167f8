//! What holds of the definitions. Each function does nothing, and its contract is the law. In each of them
//! `strings` are any in which those are that are hashed. Where a law rests on it that the hash function gives
//! 32 octets, it says so.

ghost use Rattle.std.specs.Prelude.{◌≡◌, ◌⊎◌, ℕ, ◌<◌, List, reverse, Ok};
ghost use Rattle.im_digest.specs.Digests.{Hash, GivesDigests};
ghost use Rattle.im_model.specs.Headers.{alh};
ghost use Rattle.im_model.specs.Paths.{up_strings};
ghost use Rattle.im_model.specs.declared.headers.Header.{Header};
ghost use Rattle.im_mtree.specs.Checks.{first_fail};
ghost use Rattle.im_mtree.specs.PathChecks.{path_checks};
ghost use Rattle.im_proof.specs.Duals.{dual_checks};
ghost use Rattle.im_proof.specs.declared.proofs.DualProof.{DualProof};
ghost use Rattle.im_pairs.specs.Pairs.{AreDigests, HasPair, AreAmong};
ghost use Rattle.im_pairs.specs.Leads.{Leads};
ghost use Rattle.im_carried.specs.Opened.{IsOpened};
ghost use Rattle.im_carried.specs.Shown.{ShowsDual, ShowsAnchor, ShowsAdvance};
ghost use Rattle.im_carried.specs.Hashed.{DualFits, dual_strings};

/// Two openings of one number under one state have one Alh, or there are two unequal strings of one digest.
pub fn openings_of_one_number_are_one()
    ensures { (hash : Hash) (state : Header) (t : ℕ) (a b : List ℕ) (strings : List (List ℕ)) → GivesDigests hash → IsOpened hash state t a strings → IsOpened hash state t b strings → (a ≡ b) ⊎ HasPair hash strings }
{}

/// What is opened under the source of an advance is opened under its target, or there are two unequal strings
/// of one digest: from tree to tree over the consistency list; from the chain to the tree by the linear advance,
/// the Alh at the tree's end, and the anchor; from chain to chain by the linear terms.
pub fn an_advance_carries_what_is_opened()
    ensures { (hash : Hash) (source target : Header) (t : ℕ) (a : List ℕ) (strings : List (List ℕ)) → GivesDigests hash → ShowsAdvance hash source target strings → IsOpened hash source t a strings → IsOpened hash target t a strings ⊎ HasPair hash strings }
{}

/// A state is opened under itself.
pub fn a_state_is_opened_under_itself()
    ensures { (hash : Hash) (state : Header) (strings : List (List ℕ)) → GivesDigests hash → state.bl_tx_id < state.id → IsOpened hash state state.id (alh hash state) strings }
{}

/// A dual proof opens its source under its target.
pub fn a_dual_proof_opens_its_source()
    ensures { (hash : Hash) (source target : Header) (tip : List ℕ) (strings : List (List ℕ)) → GivesDigests hash → ShowsDual hash source target tip strings → IsOpened hash target source.id (alh hash source) strings }
{}

/// An advance opens the source of its anchor under its target, or there are two unequal strings of one digest; and
/// it opens the anchor's target.
pub fn an_advance_opens_its_anchor()
    ensures source { (hash : Hash) (source target from to : Header) (tip : List ℕ) (strings : List (List ℕ)) → ShowsDual hash source target tip strings → ShowsAnchor hash source target tip from to strings → IsOpened hash target from.id (alh hash from) strings ⊎ HasPair hash strings }
    ensures target { (hash : Hash) (source target from to : Header) (tip : List ℕ) (strings : List (List ℕ)) → GivesDigests hash → ShowsDual hash source target tip strings → ShowsAnchor hash source target tip from to strings → IsOpened hash target to.id (alh hash to) strings }
{}

/// More strings keep an opening.
pub fn more_strings_keep_an_opening()
    ensures { (hash : Hash) (state : Header) (t : ℕ) (a : List ℕ) (strings more : List (List ℕ)) → AreAmong strings more → IsOpened hash state t a strings → IsOpened hash state t a more }
{}

/// A dual proof that passes all its checks shows what they are for, and hashes these strings alone.
pub fn passing_checks_show()
    ensures { (hash : Hash) (p : DualProof) (strings : List (List ℕ)) → DualFits p → first_fail (dual_checks hash p) ≡ Ok tt → AreAmong (dual_strings hash p) strings → ShowsDual hash p.source p.target p.target_bl_tx_alh strings }
{}

/// A path that passes its checks leads to the root, and hashes these strings alone.
pub fn a_passing_path_leads()
    ensures { (hash : Hash) (digest root : List ℕ) (i width : ℕ) (path strings : List (List ℕ)) → AreDigests path → first_fail (path_checks hash digest i width path root) ≡ Ok tt → AreAmong (up_strings hash width i digest (reverse path)) strings → Leads hash width i digest (reverse path) root strings }
{}
