//! Entries that are put past SQL, read.

use crate::wrong::Wrong;
use im_draft::drafts::{Attrs, Draft};
use im_draft::preconditions::Pres;
use im_octet::octets::Octets;
use im_sql_words::octets::octets;
use im_tx::prepare::prepare;
use im_tx::prepared::Prepared;
use std::alloc::Global;

/// What is to be placed, without a precondition, of words `KEY=VALUE` and `!KEY`, which blanks part.
pub fn put(alloc: Global, words: &str) -> Result<Prepared, Wrong> {
    let mut drafts = Vec::new(alloc);
    for word in words.split(' ') {
        drafts.push(draft(alloc, word)?)?;
    }
    Ok(prepare(alloc, drafts, Pres::from_vec(Vec::new(alloc)))?)
}

// The entry of a word. A deletion writes nothing.
fn draft(alloc: Global, word: &str) -> Result<Draft, Wrong> {
    let (deleted, key, value) = match word.strip_prefix('!') {
        Some(key) => (true, key, ""),
        None => written(word)?,
    };
    let attrs = Attrs {
        deleted,
        non_indexable: false,
    };
    let key = Octets::from_vec(octets(alloc, key)?);
    let value = Octets::from_vec(octets(alloc, value)?);
    Ok(Draft { attrs, key, value })
}

fn written(word: &str) -> Result<(bool, &str, &str), Wrong> {
    match word.split_once('=') {
        Some((key, value)) => Ok((false, key, value)),
        None => Err(Wrong::Line),
    }
}
