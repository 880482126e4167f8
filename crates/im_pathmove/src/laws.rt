//! What holds of the definitions. The function does nothing, and its contract is the law.

ghost use Rattle.std.specs.Prelude.{◌≡◌, ℕ, ◌<◌, List, length};
ghost use Rattle.im_digest.specs.Digests.{Hash, GivesDigests};
ghost use Rattle.im_model.specs.Growth.{IsGrowth, older, newer, grow_strings};
ghost use Rattle.im_pairs.specs.Pairs.{AreDigests, AreAmong};
ghost use Rattle.im_pairs.specs.Leads.{Leads, Ends};

/// A path that leads to the older root of a consistency list has one of the same leaf that leads to the newer
/// root and hashes no other strings, or there are two unequal strings of one digest. Lists are read from the
/// root down.
pub fn a_path_is_carried()
    ensures { (hash : Hash) (leaf first : List ℕ) (strings terms path : List (List ℕ)) (m n i : ℕ) → GivesDigests hash → length first ≡ 32 → 0 < m → IsGrowth m n terms → AreDigests terms → AreAmong (grow_strings hash m n first terms) strings → Leads hash m i leaf path (older hash m n first terms) strings → Ends hash n i leaf (newer hash m n first terms) strings }
{}
