//! What holds of the definitions. Each function does nothing, and its contract is the law.

ghost use Rattle.std.specs.Prelude.{◌≡◌, ◌<◌, ◌^◌, ◌++◌, ◌∷◌, ◌↔◌, ℕ, List, length, IsTrue};
ghost use Rattle.im_format.specs.Batches.{Counts, batch_octets};
ghost use Rattle.im_format.specs.Reading.{counts};
ghost use Rattle.im_clog.specs.Marks.{mark_at, IsUncounted};
ghost use Rattle.im_clog.specs.declared.marks.Uncounted.{Uncounted};

/// The test of a gate says that a batch counts exactly where it does.
pub fn the_test_of_a_gate_is_exact()
    ensures { (log : List ℕ) (gate : ℕ) → IsTrue (counts log gate) ↔ Counts log gate }
{}

/// What is staged of a batch counts behind an open gate, and is read back, whatever stands before the gate
/// and behind the batch.
pub fn a_staged_batch_is_read_back()
    ensures counts { (before rest : List ℕ) (first count end : ℕ)
        → Counts (before ++ 1 ∷ (batch_octets first count end ++ rest)) (length before) }
    ensures mark { (before rest : List ℕ) (first count end : ℕ) → first < 2 ^ 64 → count < 2 ^ 64 → end < 2 ^ 64
        → mark_at (before ++ 1 ∷ (batch_octets first count end ++ rest)) (length before)
        ≡ record { first = first; count = count; end = end } }
{}

/// At most one reason holds at a gate, and none where a batch counts.
pub fn one_reason_holds()
    ensures one { (log : List ℕ) (gate : ℕ) (a b : Uncounted) → IsUncounted log gate a → IsUncounted log gate b → a ≡ b }
    ensures none { (log : List ℕ) (gate : ℕ) (a : Uncounted) → IsUncounted log gate a → Counts log gate → ⊥ }
{}
