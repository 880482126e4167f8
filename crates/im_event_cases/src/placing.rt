//! What is asked to be placed, read.

use crate::words::{Words, number, octets};
use crate::wrong::Wrong;
use im_draft::drafts::{Attrs, Draft};
use im_draft::preconditions::{Pre, Pres};
use im_machine::events::Event;
use im_tx::prepare::prepare;
use std::alloc::Global;

/// `place SESSION TIME`, then preconditions and entries, in order.
pub fn place(alloc: Global, words: &mut Words) -> Result<Event, Wrong> {
    let session = words.number()?;
    let ts = time(words.word())?;
    let mut pres = Vec::new(alloc);
    let mut drafts = Vec::new(alloc);
    for word in words.rest().split(' ') {
        match pre(alloc, word)? {
            Some(pre) => pres.push(pre)?,
            None => drafts.push(draft(alloc, word)?)?,
        }
    }
    let prepared = prepare(alloc, drafts, Pres::from_vec(pres))?;
    Ok(Event::Place {
        session,
        ts,
        prepared,
    })
}

// The second that decimal digits say, with `-` before them or not.
fn time(text: &str) -> Result<i64, Wrong> {
    match text.parse::<i64>() {
        Ok(time) => Ok(time),
        Err(_) => Err(Wrong::Number),
    }
}

// `exists:KEY`, `missing:KEY` or `since:KEY@NUMBER`; none where the word is another one.
fn pre(alloc: Global, word: &str) -> Result<Option<Pre>, Wrong> {
    if let Some(key) = word.strip_prefix("exists:") {
        let key = octets(alloc, key)?;
        return Ok(Some(Pre::Exists { key }));
    }
    if let Some(key) = word.strip_prefix("missing:") {
        let key = octets(alloc, key)?;
        return Ok(Some(Pre::Missing { key }));
    }
    match word.strip_prefix("since:") {
        Some(text) => Ok(Some(since(alloc, text)?)),
        None => Ok(None),
    }
}

// `KEY@NUMBER`
fn since(alloc: Global, text: &str) -> Result<Pre, Wrong> {
    let (key, n) = text.split_once('@').ok_or(Wrong::Event)?;
    let n = number(n)?;
    let key = octets(alloc, key)?;
    Ok(Pre::Since { key, n })
}

// `KEY=VALUE`, behind `~` where no index shows the entry, and behind `!` where it deletes its key.
fn draft(alloc: Global, word: &str) -> Result<Draft, Wrong> {
    let (non_indexable, word) = marked(word, '~');
    let (deleted, word) = marked(word, '!');
    let (key, value) = word.split_once('=').ok_or(Wrong::Event)?;
    let attrs = Attrs {
        deleted,
        non_indexable,
    };
    let key = octets(alloc, key)?;
    let value = octets(alloc, value)?;
    Ok(Draft { attrs, key, value })
}

// Whether a word begins with this mark, and what stands behind it.
fn marked(word: &str, mark: char) -> (bool, &str) {
    match word.strip_prefix(mark) {
        Some(rest) => (true, rest),
        None => (false, word),
    }
}
