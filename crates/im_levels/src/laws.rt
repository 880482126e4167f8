//! What holds of the definitions. Each function does nothing, and its contract is the law.

ghost use Rattle.std.specs.Prelude.{◌≡◌, ℕ, ◌≤◌, ◌+◌, ◌*◌, ◌^◌, List, [], length, slice_index_or, count_ones};
ghost use Rattle.im_digest.specs.Digests.{Hash};
ghost use Rattle.im_model.specs.Trees.{root};
ghost use Rattle.im_levels.specs.Counts.{whole};
ghost use Rattle.im_levels.specs.Leveled.{leaves_of, place, Stored, IsLeveled};
ghost use Rattle.im_levels.specs.ByLevel.{level};

/// Entry j of level k, made of pairs from the digests of the leaves up, is the root over its 2^k leaves.
pub fn an_entry_of_a_level_is_a_root()
    ensures { (hash : Hash) (leaves : List (List ℕ)) (k j : ℕ) → j * 2 ^ k + 2 ^ k ≤ length leaves
        → slice_index_or (level hash leaves k) j [] ≡ root hash (leaves_of leaves (j * 2 ^ k) (2 ^ k)) }
{}

/// What is kept of some leaves has each entry of each level at its place.
pub fn levels_hold_each_entry()
    ensures { (hash : Hash) (leaves : List (List ℕ)) (levels : Stored) → IsLeveled hash leaves levels → (k j : ℕ) → j * 2 ^ k + 2 ^ k ≤ length leaves
        → slice_index_or levels.digests (place (j * 2 ^ k) (2 ^ k)) [] ≡ slice_index_or (level hash leaves k) j [] }
{}

/// The root over seven leaves takes 5 steps, three reads and two hashes. The eighth leaf takes 7, four hashes
/// and three reads.
pub fn steps_at_seven_leaves()
    ensures root { 5 + 1 ≡ 2 * count_ones 7 }
    ensures append { 7 + 1 + 2 * whole 7 ≡ 2 * whole 8 }
{}
