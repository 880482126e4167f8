//! The streams of a file, each shown to a client of its own.

ghost use Rattle.im_facts.specs.Keeping.{IsLed};

use crate::texts::in_full;
use crate::told::{push_known, push_taken};
use crate::wrong::Wrong;
use im_client::faults::LineFault;
use im_digest::{Hash32, Sha, Sum};
use im_facts::clients::FactClient;
use im_facts::taken::Taken;
use im_wire::errors::WireError;
use im_wire::lines::read_line;
use std::alloc::{AllocError, Global};

/// For each stream its name, a line for each of its lines, and what is known in the end. A stream begins with `= NAME`.
pub fn read(alloc: Global, text: &str) -> Result<String, Wrong> {
    let mut out = String::new(alloc);
    for stream in text.split_terminator('=') {
        if let Some((name, lines)) = stream.split_once('\n') {
            writeln!(out, "={name}")?;
            push_stream(alloc, &mut out, lines)?;
        }
    }
    Ok(out)
}

fn push_stream(alloc: Global, out: &mut String, stream: &str) -> Result<(), Wrong> {
    match stream.split_once('\n') {
        Some(("hash sum", lines)) => push_lines(alloc, out, &Sum, lines),
        Some(("hash sha256", lines)) => push_lines(alloc, out, &Sha, lines),
        _ => Err(Wrong::Hash),
    }
}

// Adds what a client that knows nothing makes of these lines, one after the other, and what it knows then. It is the same whether
// it is lent the lines or handed their messages.
fn push_lines<H: Hash32>(
    alloc: Global,
    out: &mut String,
    hash: &H,
    lines: &str,
) -> Result<(), Wrong> {
    let texts = texts_of(alloc, lines)?;
    let lent = of_lines(alloc, hash, texts.as_slice())?;
    let told = of_messages(alloc, hash, texts.as_slice())?;
    if lent.as_str() != told.as_str() {
        return Err(Wrong::Apart);
    }
    out.push_str(lent.as_str())?;
    Ok(())
}

// The lines, written in full: a client keeps places in them.
fn texts_of(alloc: Global, lines: &str) -> Result<Vec<String>, Wrong> {
    let mut texts = Vec::new(alloc);
    for line in lines.split_terminator('\n') {
        let Some((">", short)) = line.split_once(' ') else {
            return Err(Wrong::Mark);
        };
        texts
            .push(in_full(alloc, short)?)
            .map_err(AllocError::from)?;
    }
    Ok(texts)
}

// What a client makes of lines that it is lent.
fn of_lines<H: Hash32>(alloc: Global, hash: &H, texts: &[String]) -> Result<String, AllocError> {
    let mut out = String::new(alloc);
    let mut client = FactClient::new(alloc, hash);
    let mut number = 0u64;
    for text in texts {
        let taken = client.take_line(alloc, text.as_bytes())?;
        number = number.saturating_add(1);
        push_taken(alloc, &mut out, number, taken)?;
    }
    push_known(&mut out, &client)?;
    Ok(out)
}

// What one makes of the messages that they say.
fn of_messages<H: Hash32>(alloc: Global, hash: &H, texts: &[String]) -> Result<String, AllocError> {
    let mut out = String::new(alloc);
    let mut client = FactClient::new(alloc, hash);
    let mut number = 0u64;
    for text in texts {
        let taken = take_message(alloc, &mut client, text.as_bytes())?;
        number = number.saturating_add(1);
        push_taken(alloc, &mut out, number, taken)?;
    }
    push_known(&mut out, &client)?;
    Ok(out)
}

// The answer to the message that a line says, which is handed in.
fn take_message<H: Hash32>(
    alloc: Global,
    client: &mut FactClient<'_, '_, H>,
    line: &[u8],
) -> Result<Option<Taken>, AllocError>
    requires { IsLed (H.digest client.old.hash) client.old.kept }
    ensures { IsLed (H.digest client.new.hash) client.new.kept }
{
    match read_line(alloc, line) {
        Ok(None) => Ok(None),
        Ok(Some(message)) => Ok(Some(client.take(alloc, message)?)),
        Err(WireError::Syntax) => Ok(Some(Taken::Refused {
            fault: LineFault::Syntax,
        })),
        Err(WireError::Memory) => Err(AllocError),
    }
}
