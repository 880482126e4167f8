//! A list of events, read and run.

use crate::events::event;
use crate::outputs::output_text;
use crate::wrong::Wrong;
use im_core::run::run_events;
use im_digest::Sum;
use im_machine::events::Event;
use std::alloc::{AllocError, Global};

// Sixty-two zeros.
const ZEROS: &str = "00000000000000000000000000000000000000000000000000000000000000";

/// Events, and what each is to be answered.
#[derive(Drop)]
pub struct List {
    /// The events.
    pub events: Vec<Event>,
    /// The texts of what is wanted, one an event.
    pub wanted: Vec<String>,
}

/// The list that these lines say: `> EVENT` and `< OUTPUT`. Lines that begin with `#` and empty ones say nothing.
pub fn read(alloc: Global, lines: &str) -> Result<List, Wrong> {
    let mut events = Vec::new(alloc);
    let mut wanted = Vec::new(alloc);
    for line in lines.lines() {
        if let Some(words) = line.strip_prefix("> ") {
            let text = in_full(alloc, words)?;
            events.push(event(alloc, text.as_str())?)?;
        } else if let Some(output) = line.strip_prefix("< ") {
            wanted.push(in_full(alloc, output)?)?;
        } else if !line.is_empty() && !line.starts_with('#') {
            return Err(Wrong::Mark);
        }
    }
    if events.len() != wanted.len() {
        return Err(Wrong::Count);
    }
    Ok(List { events, wanted })
}

/// Runs a list, adds a line for each output that isn't the wanted one, and says how many there are.
pub fn run(alloc: Global, out: &mut String, name: &str, list: &List) -> Result<u64, AllocError> {
    let outputs = run_events(alloc, &Sum, &list.events)?;
    let mut differ = 0u64;
    for (at, output) in outputs.into_iter().enumerate() {
        let came = output_text(alloc, output, list.events.get(at))?;
        let wanted = list.wanted.get(at).map_or("", |text| text.as_str());
        if came.as_str() != wanted {
            differ = differ.saturating_add(1);
            let number = at.saturating_add(1);
            writeln!(out, "{name}, event {number}: wanted {wanted}, came {came}")?;
        }
    }
    Ok(differ)
}

// A text in which `<1f>`, the digits of an octet, stands for 31 zero octets and that one.
fn in_full(alloc: Global, text: &str) -> Result<String, AllocError> {
    let mut out = String::new(alloc);
    let mut parts = text.split('<');
    if let Some(first) = parts.next() {
        out.push_str(first)?;
    }
    for part in parts {
        let (octet, rest) = part.split_once('>').unwrap_or((part, ""));
        out.push_str(ZEROS)?;
        out.push_str(octet)?;
        out.push_str(rest)?;
    }
    Ok(out)
}
