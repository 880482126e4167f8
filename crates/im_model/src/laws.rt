//! What holds of the definitions. Each function does nothing, and its contract is the law.

ghost use Rattle.std.specs.Prelude.{◌≡◌, ◌↔◌, ℕ, ◌<◌, ◌≤◌, ◌-◌, ◌*◌, ◌^◌, List, [], ◌∷◌, length, take, drop, count_ones};
ghost use Rattle.im_digest.specs.Digests.{Hash};
ghost use Rattle.im_model.specs.Trees.{leaf, node, split_of, root};
ghost use Rattle.im_model.specs.Paths.{IsPath, path_length};
ghost use Rattle.im_model.specs.Growth.{IsConsistency, consistency_length};

/// The split of n, for n > 1, is a power of two below n, and twice that is no longer below n.
pub fn split_is_the_largest_power_of_two()
    ensures power { (n : ℕ) → 1 < n → (e : ℕ) × (split_of n ≡ 2 ^ e) }
    ensures below { (n : ℕ) → 1 < n → split_of n < n }
    ensures largest { (n : ℕ) → 1 < n → n ≤ 2 * split_of n }
{}

/// MTH of one digest (RFC 6962, section 2.1).
pub fn a_root_of_one_is_its_leaf()
    ensures { (hash : Hash) (digest : List ℕ) → root hash (digest ∷ []) ≡ leaf hash digest }
{}

/// MTH of more digests than one (RFC 6962, section 2.1).
pub fn a_root_is_the_node_of_its_parts()
    ensures { (hash : Hash) (digests : List (List ℕ)) → 1 < length digests → (let k = split_of (length digests) in root hash digests ≡ node hash (root hash (take k digests)) (root hash (drop k digests))) }
{}

/// A path fits a leaf of a tree just where it has the one length for them.
pub fn a_path_fits_exactly_its_length()
    ensures { (n i : ℕ) (path : List (List ℕ)) → i < n → (IsPath n i path ↔ (length path ≡ path_length n i)) }
{}

/// The path of the last leaf has a term for each one in the binary digits of the leaf's number, from 0.
pub fn a_last_path_has_a_term_for_each_one()
    ensures { (n : ℕ) → 0 < n → path_length n (n - 1) ≡ count_ones (n - 1) }
{}

/// A consistency list fits two sizes just where it has the one length for them.
pub fn a_consistency_list_fits_exactly_its_length()
    ensures { (m n : ℕ) (list : List (List ℕ)) → 0 < m → m ≤ n → (IsConsistency m n list ↔ (length list ≡ consistency_length m n)) }
{}
