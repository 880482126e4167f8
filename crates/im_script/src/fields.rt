ghost use Rattle.std.specs.Prelude.{◌≡◌, ◌⊎◌, ℕ, List, ◌∷◌, IfOk};
ghost use Rattle.im_text.specs.Finds.{Finds};
ghost use Rattle.im_draft.specs.Drafts.{no_attributes};
ghost use Rattle.im_script.specs.Script.{hidden, IsField};
ghost use Rattle.im_script.specs.Arguments.{IsFirstField};

use im_draft::drafts::{Attrs, Draft};
use im_text::cuts::{after, cut};
use im_text::octets::read_octets;
use std::alloc::{AllocError, Global};

// The attributes of an entry without a mark.
const NO_ATTRIBUTES: Attrs = Attrs {
    deleted: false,
    non_indexable: false,
};

// The attributes of an entry that no index shows.
const HIDDEN: Attrs = Attrs {
    deleted: false,
    non_indexable: true,
};

// The text up to the first space or the end, and what is left from there.
pub(crate) fn first_field(text: &[u8]) -> (&[u8], &[u8])
    ensures { IsFirstField text.now result.0.now result.1.now }
{
    match cut(text, b' ') {
        Some((field, _)) => text.split_at(field.len()),
        None => (text, &[]),
    }
}

// The attributes that the mark in front of an entry gives, and what is left behind the mark.
fn read_mark(text: &[u8]) -> (Attrs, &[u8])
    ensures { ((text.now ≡ 126 ∷ result.1.now) × (result.0 ≡ hidden))
        ⊎ (((more : List ℕ) → text.now ≡ 126 ∷ more → ⊥) × (text.now ≡ result.1.now) × (result.0 ≡ no_attributes)) }
{
    match after(text, b"~") {
        Some(entry) => (HIDDEN, entry),
        None => (NO_ATTRIBUTES, text),
    }
}

// The draft that `K=V` or `~K=V` says.
pub(crate) fn read_field(alloc: Global, text: &[u8]) -> Result<Option<Draft>, AllocError>
    ensures { IfOk result (λ draft. Finds draft (IsField text.now)) }
{
    let (attrs, entry) = read_mark(text);
    let Some((front, back)) = cut(entry, b'=') else {
        return Ok(None);
    };
    let Some(key) = read_octets(alloc, front)? else {
        return Ok(None);
    };
    let Some(value) = read_octets(alloc, back)? else {
        return Ok(None);
    };
    Ok(Some(Draft { attrs, key, value }))
}
