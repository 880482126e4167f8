ghost use Rattle.std.specs.Prelude.{◌≡◌, List, ℕ, IfSome, IfNone, None};
ghost use Rattle.im_wire.specs.Gives.{ReadsOrRefuses};
ghost use Rattle.im_wire.specs.Lines.{is_open, IsReply, IsShown, IsLine};

use crate::errors::WireError;
use crate::messages::Message;
use crate::reading::read_message;
use im_text::cuts::cut;
use im_text::numbers::is_digits;
use im_text::words::is_session;
use std::alloc::Global;

// Whether a text begins as an object does.
fn is_open(text: &[u8]) -> bool
    ensures { result ≡ is_open text.now }
{
    text.starts_with(b"{")
}

// The rest of a line `<session> <number> <rest>`.
fn reply_rest(line: &[u8]) -> Option<&[u8]>
    ensures some { IfSome result (λ rest. IsReply line.now rest.now) }
    ensures none { IfNone result ((rest : List ℕ) → IsReply line.now rest → ⊥) }
{
    let Some((session, tail)) = cut(line, b' ') else {
        return None;
    };
    if !is_session(session) {
        return None;
    }
    let Some((number, rest)) = cut(tail, b' ') else {
        return None;
    };
    if !is_digits(number) {
        return None;
    }
    Some(rest)
}

// The text that is to be read as a message, unless the line is passed over.
fn shown_text(line: &[u8]) -> Option<&[u8]>
    ensures some { IfSome result (λ text. IsShown line.now text.now) }
    ensures none { IfNone result (IsLine line.now None) }
{
    if line.is_empty() {
        return None;
    }
    match reply_rest(line) {
        Some(rest) if is_open(rest) => Some(rest),
        Some(_) => None,
        None => Some(line),
    }
}

/// The message that a line of a stream says, without its LF; `None` for a line that is passed over.
///
/// An empty line is passed over. A line `<session> <number> <rest>`, the session 1 to 16 of a-z 0-9 and
/// the number 1 to 20 digits, is read from its rest where that begins with `{`, and else passed over.
/// Any other line is read whole. `Syntax` exactly where the text that is read says no message.
pub fn read_line(alloc: Global, line: &[u8]) -> Result<Option<Message>, WireError>
    ensures { ReadsOrRefuses result (IsLine line.now) }
{
    match shown_text(line) {
        Some(text) => match read_message(alloc, text) {
            Ok(message) => Ok(Some(message)),
            Err(error) => Err(error),
        },
        None => Ok(None),
    }
}
