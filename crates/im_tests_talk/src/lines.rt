//! Lines of a script as they are read, and the headers that a client keeps for their replies.

use im_accept::numbers::{kept_number, next_number};
use im_draft::preconditions::Pre;
use im_script::commands::Command;
use im_script::lines::read_line;
use std::alloc::{AllocError, Global};
use std::test::Fail;

// What a text is to ask for.
#[derive(Clone, Copy)]
enum Wanted {
    // Nothing: it is no line.
    Nothing,
    // A scan, an item or a link, and this number.
    Number(u64),
    // Entries under the one precondition that this key is missing.
    Missing(&'static [u8]),
    // Three entries, of which the last one has this value.
    Third(&'static [u8]),
    // A statement of SQL, whose text is this.
    Statement(&'static str),
}

use Wanted::{Missing, Nothing, Number, Statement, Third};

// Texts alone, and what they ask for. The reader of a script passes a comment over before.
const WANTED: [(&str, Wanted); 9] = [
    ("# a comment", Nothing),
    ("a: scan p @18446744073709551615", Number(u64::MAX)),
    ("a: item 5 4294967295", Number(4_294_967_295)),
    ("a: link 18446744073709551615", Number(u64::MAX)),
    ("a: set missing:0x k=v", Missing(b"")),
    ("a: set missing:k", Missing(b"k")),
    ("a: set k=1 j=0x6162 0x=0x", Third(b"")),
    ("a: sql ", Nothing),
    ("a: sql  SELECT", Statement(" SELECT")),
];

// Whether a command is a scan, an item or a link, and its last number this one.
fn ends_with(command: &Command, wanted: u64) -> bool {
    match command {
        Command::Scan { at, .. } => *at == Some(wanted),
        Command::Item { index, .. } => u64::from(*index) == wanted,
        Command::Link { count } => *count == wanted,
        _ => false,
    }
}

// Whether a command sets entries under the one precondition that this key is missing.
fn is_where_missing(command: &Command, wanted: &[u8]) -> bool {
    let Command::Set { pres, .. } = command else {
        return false;
    };
    match pres.as_slice() {
        [Pre::Missing { key }] => key.as_slice() == wanted,
        _ => false,
    }
}

// Whether a command sets three entries, of which the last one has this value.
fn has_third(command: &Command, wanted: &[u8]) -> bool {
    let Command::Set { drafts, .. } = command else {
        return false;
    };
    match drafts.as_slice() {
        [_, _, draft] => draft.value.as_slice() == wanted,
        _ => false,
    }
}

// Whether a command answers a statement of this text.
fn is_statement(command: &Command, wanted: &str) -> bool {
    let Command::Sql { text } = command else {
        return false;
    };
    text.as_str() == wanted
}

// Whether a text asks for this.
fn asks_for(alloc: Global, text: &str, wanted: Wanted) -> Result<bool, AllocError> {
    let Some(line) = read_line(alloc, text.as_bytes())? else {
        return Ok(matches!(wanted, Nothing));
    };
    let asks = match wanted {
        Nothing => false,
        Number(number) => ends_with(&line.command, number),
        Missing(key) => is_where_missing(&line.command, key),
        Third(value) => has_third(&line.command, value),
        Statement(text) => is_statement(&line.command, text),
    };
    drop(line);
    Ok(asks)
}

#[test]
fn lines_ask_for_the_greatest_numbers_and_for_octets_that_are_empty(
    rt: HostRuntime,
) -> Result<(), Fail> {
    for (text, wanted) in WANTED {
        assert!(rt; asks_for(rt.alloc(), text, wanted)?, "{text}");
    }
    Ok(())
}

// Of the reply to a line at 9: the number of the header that a client keeps which accepts it, and of the one that
// it keeps behind the reply. Where no client accepts it, one that keeps the ninth is asked.
fn numbers_of(alloc: Global, text: &str) -> Result<(Option<u64>, u64), Fail> {
    let line = read_line(alloc, text.as_bytes())?.ok_or("no line")?;
    let kept = kept_number(&line.command, 9);
    let next = next_number(&line.command, kept.unwrap_or(9));
    drop(line);
    Ok((kept, next))
}

#[test]
fn the_headers_that_clients_keep(rt: HostRuntime) -> Result<(), Fail> {
    let wanted = [
        ("a: get k", None, 9),
        ("a: state", Some(9), 9),
        ("a: prove 3 6", Some(6), 6),
        ("a: advance 3 6", Some(3), 6),
        ("a: item 3 0", Some(9), 9),
        ("a: item 3 0 @6", Some(6), 6),
        ("a: sql SELECT * FROM t", None, 9),
    ];
    for (text, kept, next) in wanted {
        assert!(rt; numbers_of(rt.alloc(), text)? == (kept, next), "{text}");
    }
    Ok(())
}
