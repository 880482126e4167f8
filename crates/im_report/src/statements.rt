//! The replies to statements of SQL that ask for something to be placed.

ghost use Rattle.std.specs.Prelude.{◌≡◌, IfOk};
ghost use Rattle.im_report.specs.Statements as spec;

use crate::reads::push_octets;
use im_text::writing::push_number;
use std::alloc::{AllocError, Global};

/// The reply of a statement that was placed, judged behind `read` transactions: `tx <id> read <n>`. Its only error is want of memory.
#[tactic(auto, unfolding(crate::specs::Statements::tx_read_reply, crate::specs::Replies::tx_reply))]
pub fn tx_read_text(alloc: Global, id: u64, read: u64) -> Result<Vec<u8>, AllocError>
    ensures { IfOk result (λ text. text.items ≡ spec.tx_read_reply id read) }
{
    let mut out = Vec::new(alloc);
    push_number(alloc, &mut out, b"tx ", id)?;
    push_number(alloc, &mut out, b" read ", read)?;
    Ok(out)
}

/// The reply of a statement that wasn't placed, since transaction `tx` wrote the key behind the `read` transactions after which it was judged:
/// `conflict K tx <m> read <n>`. Its only error is want of memory.
#[tactic(auto, unfolding(crate::specs::Statements::conflict_reply))]
pub fn conflict_text(alloc: Global, key: &[u8], tx: u64, read: u64) -> Result<Vec<u8>, AllocError>
    ensures { IfOk result (λ text. text.items ≡ spec.conflict_reply key.now tx read) }
{
    let mut out = Vec::new(alloc);
    push_octets(alloc, &mut out, b"conflict ", key)?;
    push_number(alloc, &mut out, b" tx ", tx)?;
    push_number(alloc, &mut out, b" read ", read)?;
    Ok(out)
}

/// The reply of a statement that wasn't placed, since there are as many transactions as there may be: `full read <n>`. Its only error is want of memory.
#[tactic(auto, unfolding(crate::specs::Statements::full_read_reply))]
pub fn full_read_text(alloc: Global, read: u64) -> Result<Vec<u8>, AllocError>
    ensures { IfOk result (λ text. text.items ≡ spec.full_read_reply read) }
{
    let mut out = Vec::new(alloc);
    push_number(alloc, &mut out, b"full read ", read)?;
    Ok(out)
}
