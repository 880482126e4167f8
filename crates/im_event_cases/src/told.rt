//! What is told of a file of lists.

use crate::lists::{read, run};
use std::alloc::{AllocError, Global};

/// A line for each output that isn't the wanted one and for each list that can't be run, and then how many lists and events there
/// are, and how many of them differ. A list begins with a line `= NAME`.
pub fn told(alloc: Global, file: &str, text: &str) -> Result<String, AllocError> {
    let mut out = String::new(alloc);
    let mut lists = 0u64;
    let mut events = 0usize;
    let mut differ = 0u64;
    let (_, all) = text.split_once("\n= ").unwrap_or(("", text));
    for one in all.split("\n= ") {
        let (name, lines) = one.split_once('\n').unwrap_or((one, ""));
        let (count, others) = tell_list(alloc, &mut out, name, lines)?;
        lists = lists.saturating_add(1);
        events = events.saturating_add(count);
        differ = differ.saturating_add(others);
    }
    writeln!(
        out,
        "{file}: {lists} lists, {events} events, {differ} differ"
    )?;
    Ok(out)
}

// Tells of a list; how many events it has, and how many differ.
fn tell_list(
    alloc: Global,
    out: &mut String,
    name: &str,
    lines: &str,
) -> Result<(usize, u64), AllocError> {
    match read(alloc, lines) {
        Ok(list) => {
            let count = list.events.len();
            let differ = run(alloc, out, name, &list);
            drop(list);
            Ok((count, differ?))
        }
        Err(wrong) => {
            let words = wrong.words();
            writeln!(out, "{name}: {words}")?;
            Ok((0, 1))
        }
    }
}
