//! What holds of the definitions. Each function does nothing, and its contract is the law. In each of them
//! `strings` are any in which those are that are hashed for both. Where a law rests on it that the hash function
//! gives 32 octets, it says so.

ghost use Rattle.std.specs.Prelude.{◌≡◌, ◌⊎◌, ℕ, List, length, Contains};
ghost use Rattle.im_digest.specs.Digests.{Hash, GivesDigests};
ghost use Rattle.im_model.specs.Trees.{node, node_string};
ghost use Rattle.im_model.specs.Entries.{entry_digest, entry_strings, EntryFits};
ghost use Rattle.im_model.specs.Headers.{alh, header_strings};
ghost use Rattle.im_model.specs.declared.entries.Entry.{Entry};
ghost use Rattle.im_model.specs.declared.headers.Header.{Header};
ghost use Rattle.im_pairs.specs.Pairs.{HasPair, AreAmong};
ghost use Rattle.im_pairs.specs.Leads.{Leads};
ghost use Rattle.im_pairs.specs.Ranges.{HeaderFits};

/// Two nodes of one digest (RFC 6962, section 2.1) have equal children, or there are two unequal strings of
/// one digest.
pub fn nodes_of_one_digest_are_one()
    ensures { (hash : Hash) (left right left2 right2 : List ℕ) (strings : List (List ℕ)) → length left ≡ 32 → length left2 ≡ 32 → node hash left right ≡ node hash left2 right2 → Contains strings (node_string left right) → Contains strings (node_string left2 right2) → ((left ≡ left2) × (right ≡ right2)) ⊎ HasPair hash strings }
{}

/// Two paths of one leaf number and one tree size that lead to one root lead from one leaf by the same
/// terms, or there are two unequal strings of one digest. So a path is the only one, or there are such.
pub fn paths_of_one_root_are_one()
    ensures { (hash : Hash) (n i : ℕ) (digest digest2 : List ℕ) (path path2 : List (List ℕ)) (root : List ℕ) (strings : List (List ℕ)) → GivesDigests hash → Leads hash n i digest path root strings → Leads hash n i digest2 path2 root strings → ((digest ≡ digest2) × (path ≡ path2)) ⊎ HasPair hash strings }
{}

/// Two headers of one Alh are equal, or there are two unequal strings of one digest.
pub fn headers_of_one_alh_are_one()
    ensures { (hash : Hash) (header header2 : Header) (strings : List (List ℕ)) → HeaderFits header → HeaderFits header2 → alh hash header ≡ alh hash header2 → AreAmong (header_strings hash header) strings → AreAmong (header_strings hash header2) strings → (header ≡ header2) ⊎ HasPair hash strings }
{}

/// Two entries that one index of one number of entries and one root are shown for are equal, or there are
/// two unequal strings of one digest.
pub fn entries_of_one_place_are_one()
    ensures { (hash : Hash) (width i : ℕ) (root : List ℕ) (entry entry2 : Entry) (path path2 : List (List ℕ)) (strings : List (List ℕ)) → GivesDigests hash → EntryFits entry → EntryFits entry2 → Leads hash width i (entry_digest hash entry) path root strings → Leads hash width i (entry_digest hash entry2) path2 root strings → AreAmong (entry_strings hash entry) strings → AreAmong (entry_strings hash entry2) strings → (entry ≡ entry2) ⊎ HasPair hash strings }
{}
