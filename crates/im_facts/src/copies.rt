ghost use Rattle.std.specs.Prelude.{◌≡◌, ◌<◌, ◌≤◌, ◌+◌, ◌∷◌, ◌++◌, [], IfOk, OnOk, AllPairs, length, option_copied, vec_len, vec_capacity};
ghost use Rattle.std.specs.Option.{option_to_list};
ghost use Rattle.im_model.specs.declared.headers.Header.{Header as TheHeader};
ghost use Rattle.im_client.specs.Lines.{state_with};
ghost use Rattle.im_facts.specs.Copies.{AreCopies, Follows};
ghost use Rattle.im_facts.specs.Facts.{anchor_headers, both_headers, headers_shown, entries_shown, with_entries, with_headers, IsBefore};

use crate::facts::{EntryFact, put_entry, put_header};
use crate::notes::Note;
use im_model::headers::Header;
use im_proof::proofs::DualProof;
use im_wire::messages::Message;
use std::alloc::{AllocError, Global};

// What a client adds of a message that it accepts, taken before anything moves.
#[derive(Drop)]
pub(crate) struct Copies {
    // The next state, where it becomes another.
    pub(crate) state: Option<Header>,
    // The headers that the message shows, in order.
    pub(crate) headers: Vec<Header>,
    // The entry that it shows, if it shows one.
    pub(crate) entry: Option<EntryFact>,
}

// Copies of what a message shows, where this state is kept.
pub(crate) fn copies_of(
    alloc: Global,
    kept: Option<&Header>,
    message: &Message,
) -> Result<Copies, AllocError>
    ensures { IfOk result (λ copies. AreCopies (option_copied kept.entry) message.now copies) }
{
    let state = next_state(alloc, kept, message)?;
    let headers = headers_of(alloc, message)?;
    let entry = entry_of(alloc, message)?;
    Ok(Copies {
        state,
        headers,
        entry,
    })
}

// A copy of the next state, where it becomes another: that of a first state, and of the target of an advance.
fn next_state(
    alloc: Global,
    kept: Option<&Header>,
    message: &Message,
) -> Result<Option<Header>, AllocError>
    ensures { IfOk result (λ next. Follows (option_copied kept.entry) message.now next) }
{
    match message {
        Message::State { header } => match kept {
            Some(_) => Ok(None),
            None => Ok(Some(header.try_clone(alloc)?)),
        },
        Message::Advance { dual, .. } => Ok(Some(dual.target.try_clone(alloc)?)),
        Message::Dual { .. } | Message::Item { .. } => Ok(None),
    }
}

// Copies of the headers that a message shows, in order.
fn headers_of(alloc: Global, message: &Message) -> Result<Vec<Header>, AllocError>
    ensures { IfOk result (λ copies. copies.items ≡ headers_shown message.now) }
{
    let mut copies = Vec::new(alloc);
    match message {
        Message::State { header } => copies.push(header.try_clone(alloc)?)?,
        Message::Dual { dual } | Message::Item { dual, .. } => push_both(alloc, &mut copies, dual)?,
        Message::Advance { dual, anchor } => {
            push_both(alloc, &mut copies, dual)?;
            push_anchor(alloc, &mut copies, anchor.as_ref())?;
        }
    }
    Ok(copies)
}

// Adds copies of the headers of a dual proof.
fn push_both(alloc: Global, copies: &mut Vec<Header>, dual: &DualProof) -> Result<(), AllocError>
    ensures { OnOk result (copies.new.items ≡ copies.old.items ++ both_headers dual.now) }
{
    copies.push(dual.source.try_clone(alloc)?)?;
    copies.push(dual.target.try_clone(alloc)?)?;
    Ok(())
}

// Adds copies of those of an anchor, if there is one.
fn push_anchor(
    alloc: Global,
    copies: &mut Vec<Header>,
    anchor: Option<&DualProof>,
) -> Result<(), AllocError>
    ensures { OnOk result (copies.new.items ≡ copies.old.items ++ anchor_headers (option_copied anchor.entry)) }
{
    match anchor {
        Some(anchor) => push_both(alloc, copies, anchor),
        None => Ok(()),
    }
}

// A copy of the entry that a message shows, if it shows one.
fn entry_of(alloc: Global, message: &Message) -> Result<Option<EntryFact>, AllocError>
    ensures { IfOk result (λ fact. option_to_list fact ≡ entries_shown message.now) }
{
    match message {
        Message::Item {
            dual,
            entry,
            index,
            ..
        } => Ok(Some(EntryFact {
            tx: dual.source.id,
            index: *index,
            entry: entry.try_clone(alloc)?,
        })),
        Message::State { .. } | Message::Dual { .. } | Message::Advance { .. } => Ok(None),
    }
}

// Makes room for what a message may add: so many headers, an entry and a note of the message.
pub(crate) fn make_room(
    headers: &mut Vec<Header>,
    entries: &mut Vec<EntryFact>,
    notes: &mut Vec<Note<'_>>,
    shown: usize,
) -> Result<(), AllocError>
    ensures headers { headers.new.items ≡ headers.old.items }
    ensures entries { entries.new.items ≡ entries.old.items }
    ensures notes { notes.new.items ≡ notes.old.items }
    ensures room_for_headers { OnOk result (vec_len headers.new + shown ≤ vec_capacity headers.new) }
    ensures room_for_entries { OnOk result (vec_len entries.new < vec_capacity entries.new) }
    ensures room_for_notes { OnOk result (vec_len notes.new < vec_capacity notes.new) }
{
    headers.try_reserve(shown)?;
    entries.try_reserve(1)?;
    notes.try_reserve(1)
}

// Puts headers at their places, each unless one is kept for its number. There is room for them.
pub(crate) fn put_headers(headers: &mut Vec<Header>, copies: Vec<Header>)
    requires rising { AllPairs (λ (a b : TheHeader). a.id < b.id) headers.old.items }
    requires room { vec_len headers.old + length copies.items ≤ vec_capacity headers.old }
    ensures { headers.new.items ≡ with_headers headers.old.items copies.items }
{
    for copy in copies {
        put_header(headers, copy);
    }
}

// Puts an entry at its place, if there is one, unless one is kept there. There is room for it.
pub(crate) fn put_entries(facts: &mut Vec<EntryFact>, copy: Option<EntryFact>)
    requires rising { AllPairs IsBefore facts.old.items }
    requires room { vec_len facts.old < vec_capacity facts.old }
    ensures { facts.new.items ≡ with_entries facts.old.items (option_to_list copy) }
{
    if let Some(fact) = copy {
        put_entry(facts, fact);
    }
}

// Adds a note. There is room for it.
pub(crate) fn put_note<'l>(notes: &mut Vec<Note<'l>>, note: Note<'l>)
    requires { vec_len notes.old < vec_capacity notes.old }
    ensures { notes.new.items ≡ notes.old.items ++ note.entry ∷ [] }
{
    if let Err(full) = notes.push(note) {
        drop(full);
    }
}
