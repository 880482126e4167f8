//! What holds of the definitions. Each function does nothing, and its contract is the law.

ghost use Rattle.std.specs.Prelude.{◌≡◌, ◌↔◌, ◌<◌, ℕ, List, [], length, Ok, All};
ghost use Rattle.im_digest.specs.Digests.{Hash};
ghost use Rattle.im_disk.specs.Disk.{Files};
ghost use Rattle.im_format.specs.Batches.{Counts};
ghost use Rattle.im_format.specs.Damages.{image_checks};
ghost use Rattle.im_format.specs.Reading.{history_in};
ghost use Rattle.im_format.specs.Standing.{Stands};
ghost use Rattle.im_model.specs.History.{IsHistory};
ghost use Rattle.im_model.specs.declared.transactions.Transaction.{Transaction};
ghost use Rattle.im_mtree.specs.Checks.{first_fail};

/// An image that stands for a history has no damage, and that history is read of it. Digests have 32
/// octets.
pub fn a_history_that_stands_is_read()
    ensures undamaged { (hash : Hash) (image : Files) (history : List Transaction) → ((octets : List ℕ) → length (hash octets) ≡ 32) → Stands hash image history → first_fail (image_checks hash image) ≡ Ok tt }
    ensures read { (hash : Hash) (image : Files) (history : List Transaction) → ((octets : List ℕ) → length (hash octets) ≡ 32) → Stands hash image history → history_in image ≡ history }
{}

/// An image whose two logs hold octets, as those of a disk do, and which has no damage stands for what is
/// read of it. Of the digests nothing is asked, nor of the octets of values.
pub fn an_image_with_no_damage_stands()
    ensures { (hash : Hash) (image : Files) → All (λ octet. octet < 256) (image 0) → All (λ octet. octet < 256) (image 1) → first_fail (image_checks hash image) ≡ Ok tt → Stands hash image (history_in image) }
{}

/// So an image of octets stands for a history exactly where it has no damage and that history is read of it.
pub fn an_image_stands_exactly_for_what_is_read()
    ensures { (hash : Hash) (image : Files) (history : List Transaction) → ((octets : List ℕ) → length (hash octets) ≡ 32) → All (λ octet. octet < 256) (image 0) → All (λ octet. octet < 256) (image 1) → Stands hash image history ↔ ((first_fail (image_checks hash image) ≡ Ok tt) × (history_in image ≡ history)) }
{}

/// An image stands for one history at most.
pub fn an_image_stands_for_one_history()
    ensures { (hash : Hash) (image : Files) (a b : List Transaction) → ((octets : List ℕ) → length (hash octets) ≡ 32) → Stands hash image a → Stands hash image b → a ≡ b }
{}

/// An image in whose commit log no batch counts stands for the empty history, and for no other. So the
/// empty image does.
pub fn no_batch_stands_for_the_empty_history()
    ensures stands { (hash : Hash) (image : Files) → (Counts (image 1) 0 → ⊥) → Stands hash image [] }
    ensures alone { (hash : Hash) (image : Files) (history : List Transaction) → (Counts (image 1) 0 → ⊥) → Stands hash image history → history ≡ [] }
    ensures empty { (hash : Hash) → Stands hash (λ file. []) [] }
{}

/// Each history within the limits has an image that stands for it.
pub fn each_history_has_an_image()
    ensures { (hash : Hash) (history : List Transaction) → IsHistory history → (image : Files) × Stands hash image history }
{}
