ghost use Rattle.std.specs.Prelude.{◌≡◌, ◌∷◌, ◌↔◌, ℕ, List, IfNone, IfSome, IsTrue};
ghost use Rattle.im_draft.specs.Drafts.{AreFree, IsReserved};

use im_draft::drafts::Draft;
use im_octet::octets::Octets;

/// The first draft, from 0, whose key begins with octet 00, or `None` where there is none. It takes no
/// memory.
pub fn first_reserved(drafts: &[Draft]) -> Option<usize>
    ensures some { IfSome result (IsReserved drafts.now) }
    ensures none { IfNone result (AreFree drafts.now) }
{
    for (i, draft) in drafts.iter().enumerate() {
        if is_reserved(&draft.key) {
            return Some(i);
        }
    }
    None
}

// Whether a key begins with octet 00.
fn is_reserved(key: &Octets) -> bool
    ensures { IsTrue result ↔ ((rest : List ℕ) × (key.now ≡ 0 ∷ rest)) }
{
    matches!(key.as_slice(), [0, ..])
}
