//! What holds of the definitions. Each function does nothing, and its contract is the law.

ghost use Rattle.std.specs.Prelude.{◌≡◌, ℕ, ◌≤◌, List, length, take, Ok};
ghost use Rattle.im_digest.specs.Digests.{Hash};
ghost use Rattle.im_model.specs.History.{alhs_of, header_of, IsHistory};
ghost use Rattle.im_model.specs.declared.transactions.Transaction.{Transaction};
ghost use Rattle.im_mtree.specs.Checks.{first_fail};
ghost use Rattle.im_proof.specs.Between.{anchor_between, dual_between};
ghost use Rattle.im_proof.specs.Built.{inners_of, dual_of, AreLinked, IsRecorded};
ghost use Rattle.im_proof.specs.Duals.{dual_checks};

/// Each header of a history is recorded among its Alh, and each Alh is a step from the one before.
pub fn a_history_records_its_headers()
    ensures recorded { (hash : Hash) (history : List Transaction) (k : ℕ) → IsHistory history → 1 ≤ k → k ≤ length history → IsRecorded hash (alhs_of hash history) (header_of hash history k) }
    ensures linked { (hash : Hash) (history : List Transaction) → AreLinked hash (alhs_of hash history) (inners_of hash history) }
{}

/// The dual proof between two transactions of a history passes its check.
pub fn a_dual_proof_of_a_history_passes_its_check()
    ensures { (hash : Hash) (history : List Transaction) (s t : ℕ) → IsHistory history → 1 ≤ s → s ≤ t → t ≤ length history → first_fail (dual_checks hash (dual_of hash (header_of hash history s) (header_of hash history t) (alhs_of hash history) (inners_of hash history))) ≡ Ok tt }
{}

/// A dual proof and its anchor read no further than their target: what follows doesn't change them.
pub fn a_dual_proof_reads_no_further_than_its_target()
    ensures dual { (hash : Hash) (history : List Transaction) (s t n : ℕ) → IsHistory history → 1 ≤ s → s ≤ t → t ≤ n → n ≤ length history
        → dual_between hash (take n history) s t ≡ dual_between hash history s t }
    ensures anchor { (hash : Hash) (history : List Transaction) (s t n : ℕ) → IsHistory history → 1 ≤ s → s ≤ t → t ≤ n → n ≤ length history
        → anchor_between hash (take n history) s t ≡ anchor_between hash history s t }
{}
