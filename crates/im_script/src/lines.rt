ghost use Rattle.std.specs.Prelude.{IfOk};
ghost use Rattle.im_text.specs.Finds.{Finds};
ghost use Rattle.im_script.specs.Script.{IsCommand, IsScriptLine};
ghost use Rattle.im_script.specs.Arguments.{IsSet, IsDelete, IsGet, IsScanCommand, IsHistoryCommand, IsHeaderCommand, IsState, IsProve, IsAdvance, IsItemCommand, IsLink, IsSql};

use crate::commands::{Command, Line};
use crate::fields::first_field;
use crate::lookups::read_lookup;
use crate::numbers::{read_at, read_index, read_numbers};
use crate::sets::read_asked;
use crate::texts::read_text;
use im_draft::drafts::{Attrs, Draft, Drafts};
use im_draft::preconditions::Pres;
use im_octet::octets::Octets;
use im_text::cuts::{after, cut};
use im_text::numbers::read_number;
use im_text::octets::read_octets;
use im_text::words::is_session;
use std::alloc::{AllocError, Global};

// The attributes of an entry that deletes its key.
const DELETED: Attrs = Attrs {
    deleted: true,
    non_indexable: false,
};

// What stands behind `set`.
fn read_set(alloc: Global, text: &[u8]) -> Result<Option<Command>, AllocError>
    ensures { IfOk result (λ command. Finds command (IsSet text.now)) }
{
    let Some((pres, drafts)) = read_asked(alloc, text)? else {
        return Ok(None);
    };
    Ok(Some(Command::Set { pres, drafts }))
}

// What stands behind `del `: the key that the one entry deletes.
fn read_delete(alloc: Global, text: &[u8]) -> Result<Option<Command>, AllocError>
    ensures { IfOk result (λ command. Finds command (IsDelete text.now)) }
{
    let Some(key) = read_octets(alloc, text)? else {
        return Ok(None);
    };
    let draft = Draft {
        attrs: DELETED,
        key,
        value: Octets::new(alloc),
    };
    let pres = Pres::from_vec(Vec::new(alloc));
    let drafts = Drafts::from_vec(vec![in alloc; draft]?);
    Ok(Some(Command::Set { pres, drafts }))
}

// What stands behind `get `.
fn read_get(alloc: Global, text: &[u8]) -> Result<Option<Command>, AllocError>
    ensures { IfOk result (λ command. Finds command (IsGet text.now)) }
{
    let Some((key, at)) = read_lookup(alloc, text)? else {
        return Ok(None);
    };
    Ok(Some(Command::Get { key, at }))
}

// What stands behind `scan `.
fn read_scan(alloc: Global, text: &[u8]) -> Result<Option<Command>, AllocError>
    ensures { IfOk result (λ command. Finds command (IsScanCommand text.now)) }
{
    let Some((prefix, at)) = read_lookup(alloc, text)? else {
        return Ok(None);
    };
    Ok(Some(Command::Scan { prefix, at }))
}

// What stands behind `history `.
fn read_history(alloc: Global, text: &[u8]) -> Result<Option<Command>, AllocError>
    ensures { IfOk result (λ command. Finds command (IsHistoryCommand text.now)) }
{
    let Some(key) = read_octets(alloc, text)? else {
        return Ok(None);
    };
    Ok(Some(Command::History { key }))
}

// What stands behind `header `.
fn read_header(text: &[u8]) -> Option<Command>
    ensures { Finds result (IsHeaderCommand text.now) }
{
    let number = read_number(text)?;
    Some(Command::Header { number })
}

// What stands behind `state`: nothing.
fn read_state(text: &[u8]) -> Option<Command>
    ensures { Finds result (IsState text.now) }
{
    if !text.is_empty() {
        return None;
    }
    Some(Command::State)
}

// What stands behind `prove `.
fn read_prove(text: &[u8]) -> Option<Command>
    ensures { Finds result (IsProve text.now) }
{
    let (source, target) = read_numbers(text)?;
    Some(Command::Prove { source, target })
}

// What stands behind `advance `.
fn read_advance(text: &[u8]) -> Option<Command>
    ensures { Finds result (IsAdvance text.now) }
{
    let (source, target) = read_numbers(text)?;
    Some(Command::Advance { source, target })
}

// What stands behind `item `.
fn read_item(text: &[u8]) -> Option<Command>
    ensures { Finds result (IsItemCommand text.now) }
{
    let (first, tail) = cut(text, b' ')?;
    let (second, mark) = first_field(tail);
    let number = read_number(first)?;
    let index = read_index(second)?;
    let under = read_at(mark)?;
    Some(Command::Item {
        number,
        index,
        under,
    })
}

// What stands behind `link `.
fn read_link(text: &[u8]) -> Option<Command>
    ensures { Finds result (IsLink text.now) }
{
    let count = read_number(text)?;
    Some(Command::Link { count })
}

// What stands behind `sql `.
fn read_sql(alloc: Global, text: &[u8]) -> Result<Option<Command>, AllocError>
    ensures { IfOk result (λ command. Finds command (IsSql text.now)) }
{
    let Some(text) = read_text(alloc, text)? else {
        return Ok(None);
    };
    Ok(Some(Command::Sql { text }))
}

// What stands behind a session's name.
fn read_command(alloc: Global, text: &[u8]) -> Result<Option<Command>, AllocError>
    ensures { IfOk result (λ command. Finds command (IsCommand text.now)) }
{
    if let Some(rest) = after(text, b"set") {
        return read_set(alloc, rest);
    }
    if let Some(rest) = after(text, b"del ") {
        return read_delete(alloc, rest);
    }
    if let Some(rest) = after(text, b"get ") {
        return read_get(alloc, rest);
    }
    if let Some(rest) = after(text, b"scan ") {
        return read_scan(alloc, rest);
    }
    if let Some(rest) = after(text, b"history ") {
        return read_history(alloc, rest);
    }
    if let Some(rest) = after(text, b"header ") {
        return Ok(read_header(rest));
    }
    if let Some(rest) = after(text, b"state") {
        return Ok(read_state(rest));
    }
    if let Some(rest) = after(text, b"prove ") {
        return Ok(read_prove(rest));
    }
    if let Some(rest) = after(text, b"advance ") {
        return Ok(read_advance(rest));
    }
    if let Some(rest) = after(text, b"item ") {
        return Ok(read_item(rest));
    }
    if let Some(rest) = after(text, b"link ") {
        return Ok(read_link(rest));
    }
    match after(text, b"sql ") {
        Some(rest) => read_sql(alloc, rest),
        None => Ok(None),
    }
}

/// The line that a text says, without its LF, or `None` where it says none. Only memory fails.
pub fn read_line(alloc: Global, text: &[u8]) -> Result<Option<Line>, AllocError>
    ensures { IfOk result (λ line. Finds line (IsScriptLine text.now)) }
{
    let Some((session, tail)) = cut(text, b':') else {
        return Ok(None);
    };
    if !is_session(session) {
        return Ok(None);
    }
    let Some(rest) = after(tail, b" ") else {
        return Ok(None);
    };
    let Some(command) = read_command(alloc, rest)? else {
        return Ok(None);
    };
    let session = Octets::from_slice(alloc, session)?;
    Ok(Some(Line { session, command }))
}
