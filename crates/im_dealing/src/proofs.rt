//! The texts of messages, and of numbers between which nothing is proved.

ghost use Rattle.std.specs.Prelude.{◌≡◌, ◌≤◌, IfNone, IfOk, IfSome, Ok};
ghost use Rattle.im_dealing.specs.Shown.{IsRefusedBetween};
ghost use Rattle.im_wire.specs.Messages.{HasMessage};
ghost use Rattle.im_wire.specs.Texts.{text};

use im_report::replies::{beyond_text, order_text};
use im_wire::messages::Message;
use im_wire::writing::write;
use std::alloc::{AllocError, Global};

/// The text of a message, which is read as that message again.
pub fn message_text(alloc: Global, message: Message) -> Result<Vec<u8>, AllocError>
    ensures text { IfOk result (λ octets. octets.items ≡ text message) }
    ensures again { IfOk result (λ octets. HasMessage octets.items message) }
{
    let octets = write(alloc, &message);
    drop(message);
    octets
}

/// The refusal of two numbers of transactions, or `None` where they are in order and the second is at most `count`.
pub fn refused_between(
    alloc: Global,
    count: u64,
    s: u64,
    t: u64,
) -> Result<Option<Vec<u8>>, AllocError>
    ensures refused { IfOk result (λ refused. IfSome refused (λ reply. IsRefusedBetween count s t reply.items)) }
    ensures taken { IfOk result (λ refused. IfNone refused ((1 ≤ s) × (s ≤ t) × (t ≤ count))) }
{
    if s == 0 || t < s {
        return Ok(Some(order_text(alloc, s, t)?));
    }
    if count < t {
        return Ok(Some(beyond_text(alloc, count)?));
    }
    Ok(None)
}
