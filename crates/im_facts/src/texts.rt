//! The lines that tell what a client answered.

ghost use Rattle.std.specs.Prelude.{◌≡◌, ◌++◌, codes, IfOk, OnOk};
ghost use Rattle.std.specs.Fmt.{decimal};
ghost use Rattle.im_facts.specs.Texts.{accepted_line, taken_line, fact_text, forked_line};

use crate::taken::{Shown, Taken};
use im_client::texts::refused_text;
use im_text::writing::{push_hex, push_number};
use std::alloc::{AllocError, Global};

// Adds a text and two numbers.
fn push_two(out: &mut Vec<u8>, text: &[u8], first: u64, second: u64) -> Result<(), AllocError>
    ensures { OnOk result (out.new.items ≡ out.old.items ++ text.now ++ decimal first ++ codes " " ++ decimal second) }
{
    let alloc = *out.allocator();
    push_number(alloc, out, text, first)?;
    push_number(alloc, out, b" ", second)
}

// Adds what an accepted message shows.
#[tactic(auto, unfolding(crate::specs::Texts::fact_text))]
fn push_shown(out: &mut Vec<u8>, shown: Shown) -> Result<(), AllocError>
    ensures { OnOk result (out.new.items ≡ out.old.items ++ fact_text shown) }
{
    let alloc = *out.allocator();
    match shown {
        Shown::State { id } => push_number(alloc, out, b"state ", id),
        Shown::Dual { s, t } => push_two(out, b"dual ", s, t),
        Shown::Advance { s, t } => push_two(out, b"advance ", s, t),
        Shown::Item { t, i } => push_two(out, b"item ", t, u64::from(i)),
    }
}

// The line of an accepted message.
#[tactic(auto, unfolding(crate::specs::Texts::accepted_line))]
fn accepted_text(alloc: Global, n: u64, shown: Shown) -> Result<Vec<u8>, AllocError>
    ensures { IfOk result (λ text. text.items ≡ accepted_line n shown) }
{
    let mut out = Vec::new(alloc);
    push_number(alloc, &mut out, b"ok ", n)?;
    out.extend_from_slice(b" ")?;
    push_shown(&mut out, shown)?;
    out.extend_from_slice(b"\n")?;
    Ok(out)
}

// The line of a fork.
#[tactic(auto, unfolding(crate::specs::Texts::forked_line))]
fn forked_text(alloc: Global, n: u64, x: &[u8], y: &[u8]) -> Result<Vec<u8>, AllocError>
    ensures { IfOk result (λ text. text.items ≡ forked_line n x.now y.now) }
{
    let mut out = Vec::new(alloc);
    push_number(alloc, &mut out, b"forked ", n)?;
    push_hex(alloc, &mut out, b" 0x", x)?;
    push_hex(alloc, &mut out, b" 0x", y)?;
    out.extend_from_slice(b"\n")?;
    Ok(out)
}

/// What is written of line n, with its LF: nothing where it is passed over.
pub fn taken_text(alloc: Global, n: u64, taken: &Option<Taken>) -> Result<Vec<u8>, AllocError>
    ensures { IfOk result (λ text. text.items ≡ taken_line n taken.now) }
{
    match taken {
        None => Ok(Vec::new(alloc)),
        Some(Taken::Accepted { shown }) => accepted_text(alloc, n, *shown),
        Some(Taken::Refused { fault }) => refused_text(alloc, n, fault),
        Some(Taken::Forked { x, y }) => forked_text(alloc, n, x.as_slice(), y.as_slice()),
    }
}
