ghost use Rattle.std.specs.Prelude.{◌≡◌, ℕ, List};
ghost use Rattle.im_draft.specs.declared.drafts.Attrs.{Attrs};
ghost use Rattle.im_entry.specs.Attrs.{IsFirstBad, IsMetadata};

/// Octets are the metadata of one entry's attributes at most, or stop being metadata at one octet, and not
/// both.
pub fn one_reading()
    ensures attributes { (octets : List ℕ) (a b : Attrs) → IsMetadata octets a → IsMetadata octets b → a ≡ b }
    ensures octet { (octets : List ℕ) (i j : ℕ) → IsFirstBad octets i → IsFirstBad octets j → i ≡ j }
    ensures either { (octets : List ℕ) (a : Attrs) (i : ℕ) → IsMetadata octets a → IsFirstBad octets i → ⊥ }
{}
