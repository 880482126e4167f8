//! What is told of a line, and of a client.

use im_client::faults::LineFault;
use im_client::texts::refused_text;
use im_digest::Hash32;
use im_facts::clients::FactClient;
use im_facts::taken::{Shown, Taken};
use im_octet::octets::Octets;
use std::alloc::{AllocError, Global};

/// Adds what became of line `number`: `passed N`, `ok N SHOWN`, `refused N CHECK ..` or `forked N 0xHEX 0xHEX`.
pub fn push_taken(
    alloc: Global,
    out: &mut String,
    number: u64,
    taken: Option<Taken>,
) -> Result<(), AllocError> {
    match taken {
        None => writeln!(out, "passed {number}"),
        Some(Taken::Accepted { shown }) => push_shown(out, number, shown),
        Some(Taken::Refused { fault }) => push_refused(alloc, out, number, &fault),
        Some(Taken::Forked { x, y }) => push_pair(alloc, out, number, &x, &y),
    }
}

fn push_shown(out: &mut String, number: u64, shown: Shown) -> Result<(), AllocError> {
    match shown {
        Shown::State { id } => writeln!(out, "ok {number} state {id}"),
        Shown::Dual { s, t } => writeln!(out, "ok {number} dual {s} {t}"),
        Shown::Advance { s, t } => writeln!(out, "ok {number} advance {s} {t}"),
        Shown::Item { t, i } => writeln!(out, "ok {number} item {t} {i}"),
    }
}

fn push_refused(
    alloc: Global,
    out: &mut String,
    number: u64,
    fault: &LineFault,
) -> Result<(), AllocError> {
    let line = refused_text(alloc, number, fault)?;
    let text = String::from_utf8_lossy(alloc, line.as_slice())?;
    out.push_str(&text)
}

fn push_pair(
    alloc: Global,
    out: &mut String,
    number: u64,
    x: &Octets,
    y: &Octets,
) -> Result<(), AllocError> {
    let first = hex::encode(alloc, x.as_slice())?;
    let second = hex::encode(alloc, y.as_slice())?;
    writeln!(out, "forked {number} 0x{first} 0x{second}")
}

/// Adds what a client knows: `known STATE HEADERS ENTRIES`, the number of its state, 0 for none, and how many facts there are.
pub fn push_known<H: Hash32>(
    out: &mut String,
    client: &FactClient<'_, '_, H>,
) -> Result<(), AllocError> {
    let state = client.state().map_or(0, |header| header.id);
    let headers = client.headers().len();
    let entries = client.entries().len();
    writeln!(out, "known {state} {headers} {entries}")
}
