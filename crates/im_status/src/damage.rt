ghost use Rattle.std.specs.Prelude.{◌≡◌, ◌++◌, codes, IfOk, OnOk};
ghost use Rattle.im_status.specs.Damages.{damage_words, difference_words};

use im_format::damages::{Damage, Difference};
use im_text::writing::{push_hex, push_number};
use std::alloc::{AllocError, Global};

// Adds what was wanted and what was found.
fn push_difference(alloc: Global, out: &mut Vec<u8>, found: Difference) -> Result<(), AllocError>
    ensures { OnOk result (out.new.items ≡ out.old.items ++ codes " " ++ difference_words found) }
{
    match found {
        Difference::Numbers { want, got } => {
            push_number(alloc, out, b" ", want)?;
            push_number(alloc, out, b" ", got)
        }
        Difference::Digests { want, got } => {
            push_hex(alloc, out, b" ", &want)?;
            push_hex(alloc, out, b" ", &got)
        }
    }
}

/// What is said of a damage on standard error, behind its words: the number of the file, the place in it in
/// octets, what was wanted there and what was found, numbers in decimal and digests in hex.
#[tactic(auto, unfolding(crate::specs::Damages::damage_words))]
pub(crate) fn damage_text(alloc: Global, damage: &Damage) -> Result<Vec<u8>, AllocError>
    ensures { IfOk result (λ text. text.items ≡ damage_words damage.now) }
{
    let mut out = Vec::new(alloc);
    push_number(alloc, &mut out, b"", u64::from(damage.file))?;
    push_number(alloc, &mut out, b" ", damage.at)?;
    push_difference(alloc, &mut out, damage.found)?;
    Ok(out)
}
