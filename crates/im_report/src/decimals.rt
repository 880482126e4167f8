//! Numbers in decimal, written where they are wanted.

ghost use Rattle.std.specs.Prelude.{ℕ, ◌≡◌, ◌++◌, take, OnOk, OnErr};
ghost use Rattle.std.specs.Fmt.{decimal};

use itoa::Buffer;
use std::alloc::AllocError;

// Adds a text, and then a number in decimal, for which no text is allocated. Where memory is refused a front part of them
// may have been added.
#[tactic(auto, using(im_octet::proofs::PartLemmas::part_none, im_octet::proofs::PartLemmas::part_first))]
pub(crate) fn push_decimal(out: &mut Vec<u8>, text: &[u8], n: u64) -> Result<(), AllocError>
    ensures whole { OnOk result (out.new.items ≡ out.old.items ++ text.now ++ decimal n) }
    ensures part { OnErr result ((k : ℕ) × (out.new.items ≡ out.old.items ++ take k (text.now ++ decimal n))) }
{
    out.extend_from_slice(text)?;
    let mut digits = Buffer::new();
    out.extend_from_slice(digits.format(n).as_bytes())
}
