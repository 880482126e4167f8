//! The messages that notes are of, once more: the strings that are hashed in checking them.

ghost use Rattle.std.specs.Prelude.{◌≡◌, ◌++◌, ◌∷◌, [], List, Some, All, IfOk, OnOk};
ghost use Rattle.im_hashed.specs.Added.{AddsStrings};
ghost use Rattle.im_hashed.specs.Messages.{HoldSame, ProofsHold, message_strings, strings_of};
ghost use Rattle.im_wire.specs.Lines.{IsLine};
ghost use Rattle.im_wire.specs.declared.messages.Message.{Message as TheMessage};
ghost use Rattle.im_facts.specs.Keeping.{AreOf, IsOf};

use crate::notes::Note;
use im_digest::Hash32;
use im_hashed::messages::add_message;
use im_octet::octets::Octets;
use im_wire::errors::WireError;
use im_wire::lines::read_line;
use im_wire::messages::Message;
use std::alloc::{AllocError, Global};

/// The strings that are hashed in checking the messages that notes are of and one more, all of which pass the checks of their
/// proofs, and those of the header of a first state, whose checks hash nothing: each at least once, and no others. Each line is
/// read once more, and one message is held at a time. Each string is hashed once more where a later one is made of its digest.
/// Its only error is want of memory.
pub(crate) fn hashed<H: Hash32>(
    alloc: Global,
    hash: &H,
    notes: &[Note<'_>],
    message: &Message,
) -> Result<Vec<Octets>, AllocError>
    requires notes { (messages : List TheMessage) × AreOf notes.now messages × All (ProofsHold (H.digest hash.now)) messages }
    requires message { ProofsHold (H.digest hash.now) message.now }
    ensures { IfOk result (λ strings. (messages : List TheMessage) → AreOf notes.now messages →
        HoldSame strings.items (strings_of (H.digest hash.now) (messages ++ message.now ∷ []))) }
{
    let mut out = Vec::new(alloc);
    for note in notes {
        add_noted(alloc, hash, &mut out, note)?;
    }
    add_message(alloc, hash, &mut out, message)?;
    Ok(out)
}

// Adds the strings of the message that a note is of.
fn add_noted<H: Hash32>(
    alloc: Global,
    hash: &H,
    out: &mut Vec<Octets>,
    note: &Note<'_>,
) -> Result<(), AllocError>
    requires { (message : TheMessage) × IsOf note.now message × ProofsHold (H.digest hash.now) message }
    ensures { OnOk result ((message : TheMessage) → IsOf note.now message →
        AddsStrings out.old.items out.new.items (message_strings (H.digest hash.now) message)) }
{
    match note {
        Note::Told { message } => add_message(alloc, hash, out, &**message),
        Note::Line { line } => add_said(alloc, hash, out, line),
    }
}

// Adds those of the message that a line says.
fn add_said<H: Hash32>(
    alloc: Global,
    hash: &H,
    out: &mut Vec<Octets>,
    line: &[u8],
) -> Result<(), AllocError>
    requires { (message : TheMessage) × IsLine line.now (Some message) × ProofsHold (H.digest hash.now) message }
    ensures { OnOk result ((message : TheMessage) → IsLine line.now (Some message) →
        AddsStrings out.old.items out.new.items (message_strings (H.digest hash.now) message)) }
{
    let message = message_again(alloc, line)?;
    let added = add_message(alloc, hash, out, &message);
    drop(message);
    added
}

// The message that a line says.
fn message_again(alloc: Global, line: &[u8]) -> Result<Message, AllocError>
    requires { (message : TheMessage) × IsLine line.now (Some message) }
    ensures { IfOk result (λ again. (message : TheMessage) → IsLine line.now (Some message) → again ≡ message) }
{
    match read_line(alloc, line) {
        Ok(Some(message)) => Ok(message),
        Ok(None) => unreachable!(),
        Err(WireError::Syntax) => unreachable!(),
        Err(WireError::Memory) => Err(AllocError),
    }
}
