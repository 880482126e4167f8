//! What an event is answered, as a text.

use im_machine::events::Event;
use im_machine::outputs::Output;
use im_machine::questions::ProofQuestion;
use im_model::headers::Header;
use im_octet::octets::Octets;
use im_versions::refusals::PlaceError;
use im_versions::versions::Version;
use im_wire::messages::Message;
use im_wire::writing::{header_json, write};
use std::alloc::{AllocError, Global};

/// The text of an output. An item's message has the index that its event asks for.
pub fn output_text(
    alloc: Global,
    output: Output,
    event: Option<&Event>,
) -> Result<String, AllocError> {
    let mut out = String::new(alloc);
    push_output(alloc, &mut out, output, event)?;
    Ok(out)
}

// Adds the text of an output.
fn push_output(
    alloc: Global,
    out: &mut String,
    output: Output,
    event: Option<&Event>,
) -> Result<(), AllocError> {
    match output {
        Output::Dual { dual } => push_message(alloc, out, Message::Dual { dual }),
        Output::Advance { dual, anchor } => {
            push_message(alloc, out, Message::Advance { dual, anchor })
        }
        Output::Item { dual, entry, path } => {
            let index = event.map_or(0, index_of);
            let message = Message::Item {
                dual,
                entry,
                index,
                path,
            };
            push_message(alloc, out, message)
        }
        other => {
            let pushed = push_plain(alloc, out, &other);
            drop(other);
            pushed
        }
    }
}

// Adds the text of an output that isn't a message.
fn push_plain(alloc: Global, out: &mut String, output: &Output) -> Result<(), AllocError> {
    match output {
        Output::NotAllowed => out.push_str("no"),
        Output::Done => out.push_str("done"),
        Output::Failed => out.push_str("failed"),
        Output::Word { number } => write!(out, "word {number}"),
        Output::Opened { length } => write!(out, "opened {length}"),
        Output::Placed { header } => push_header(alloc, out, "placed", header),
        Output::Header { header } => push_header(alloc, out, "header", header),
        Output::Refused { why, at } => push_refusal(alloc, out, why, *at),
        Output::Versions { versions } => push_versions(alloc, out, versions.as_slice()),
        _ => Ok(()),
    }
}

// The index that is asked for; 0 where none is.
fn index_of(event: &Event) -> u32 {
    match event {
        Event::Prove {
            question: ProofQuestion::Item { index, .. },
            ..
        } => *index,
        _ => 0,
    }
}

// Adds a word and the text of a header.
fn push_header(
    alloc: Global,
    out: &mut String,
    word: &str,
    header: &Header,
) -> Result<(), AllocError> {
    let json = header_json(alloc, header)?;
    let text = String::from_utf8_lossy(alloc, json.as_slice())?;
    write!(out, "{word} {text}")
}

// Adds the text of a message.
fn push_message(alloc: Global, out: &mut String, message: Message) -> Result<(), AllocError> {
    let json = write(alloc, &message);
    drop(message);
    let octets = json?;
    let text = String::from_utf8_lossy(alloc, octets.as_slice())?;
    out.push_str(&text)
}

// Adds why a transaction isn't placed, and how many transactions it was judged against.
fn push_refusal(
    alloc: Global,
    out: &mut String,
    why: &PlaceError,
    at: u64,
) -> Result<(), AllocError> {
    match why {
        PlaceError::Memory => out.push_str("refused memory")?,
        PlaceError::Full => out.push_str("refused full")?,
        PlaceError::Missing { key } => {
            let key = hex_of(alloc, key)?;
            write!(out, "refused missing {key}")?;
        }
        PlaceError::Exists { key, tx } => {
            let key = hex_of(alloc, key)?;
            write!(out, "refused exists {key} tx {tx}")?;
        }
        PlaceError::Modified { key, tx } => {
            let key = hex_of(alloc, key)?;
            write!(out, "refused modified {key} tx {tx}")?;
        }
    }
    write!(out, " at {at}")
}

// Adds how many versions there are, and each: `KEY=VALUE@TX`, behind `!` where it deletes its key.
fn push_versions(alloc: Global, out: &mut String, versions: &[Version]) -> Result<(), AllocError> {
    let count = versions.len();
    write!(out, "versions {count}")?;
    for version in versions {
        let mark = if version.deleted { "!" } else { "" };
        let key = hex_of(alloc, &version.key)?;
        let value = hex_of(alloc, &version.value)?;
        let tx = version.tx;
        write!(out, " {mark}{key}={value}@{tx}")?;
    }
    Ok(())
}

// The hex digits of octets.
fn hex_of(alloc: Global, octets: &Octets) -> Result<String, AllocError> {
    hex::encode(alloc, octets.as_slice())
}
