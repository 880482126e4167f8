//! What holds of the definitions. Each function does nothing, and its contract is the law.

ghost use Rattle.std.specs.Prelude.{◌≡◌, ℕ, ◌<◌, List, [], length, reverse, slice_index_or, Ok};
ghost use Rattle.im_digest.specs.Digests.{Hash};
ghost use Rattle.im_model.specs.Trees.{root};
ghost use Rattle.im_mtree.specs.Checks.{first_fail};
ghost use Rattle.im_mtree.specs.Inclusion.{inclusion};
ghost use Rattle.im_mtree.specs.PathChecks.{path_checks};

/// The path that a list of digests gives for a leaf passes its check against the list's root.
pub fn a_built_path_passes_its_check()
    ensures { (hash : Hash) (digests : List (List ℕ)) (i : ℕ) → i < length digests → first_fail (path_checks hash (slice_index_or digests i []) i (length digests) (reverse (inclusion hash digests i)) (root hash digests)) ≡ Ok tt }
{}
