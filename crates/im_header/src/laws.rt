//! What the definition of a history's headers says, apart from how it is computed. Each function does
//! nothing, and its contract is the law.

ghost use Rattle.std.specs.Prelude.{◌≡◌, ◌<◌, ◌≤◌, ◌+◌, ℕ, List, [], length, take};
ghost use Rattle.im_digest.specs.Digests.{Hash};
ghost use Rattle.im_model.specs.Headers.{alh};
ghost use Rattle.im_model.specs.History.{alh_of, header_of};
ghost use Rattle.im_model.specs.declared.transactions.Transaction.{Transaction};

/// The headers of a history are numbered from 1, and each holds the Alh of the one before it, the first
/// that of the empty string. A header doesn't depend on what stands behind it.
pub fn headers_stand_in_a_chain()
    ensures number { (hash : Hash) (h : List Transaction) (k : ℕ) → k < length h → (header_of hash h (k + 1)).id ≡ k + 1 }
    ensures previous { (hash : Hash) (h : List Transaction) (k : ℕ) → k < length h → (header_of hash h (k + 1)).prev_alh ≡ alh_of hash h k }
    ensures own { (hash : Hash) (h : List Transaction) (k : ℕ) → k < length h → alh_of hash h (k + 1) ≡ alh hash (header_of hash h (k + 1)) }
    ensures first { (hash : Hash) (h : List Transaction) → alh_of hash h 0 ≡ hash [] }
    ensures prefix { (hash : Hash) (h : List Transaction) (k n : ℕ) → 1 ≤ k → k ≤ n → n ≤ length h → header_of hash (take n h) k ≡ header_of hash h k }
{}
