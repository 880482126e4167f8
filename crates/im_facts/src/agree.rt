ghost use Rattle.std.specs.Prelude.{◌≡◌, ◌↔◌, ◌<◌, ◌++◌, AllPairs, IsTrue, option_copied};
ghost use Rattle.std.specs.List.{AllByRecursion};
ghost use Rattle.im_model.specs.declared.headers.Header.{Header as TheHeader};
ghost use Rattle.im_facts.specs.Facts.{anchor_headers, both_headers, entries_shown, headers_shown, IsAlike, IsEntryAlike, IsBefore};

use crate::facts::{EntryFact, find_entry, find_header, same_entry, same_header};
use im_model::entries::Entry;
use im_model::headers::Header;
use im_proof::proofs::DualProof;
use im_wire::messages::Message;

// Whether a header is the kept one of its number, where one is kept.
fn header_agrees(headers: &[Header], header: &Header) -> bool
    requires { AllPairs (λ (a b : TheHeader). a.id < b.id) headers.now }
    ensures { IsTrue result ↔ IsAlike headers.now header.now }
{
    match find_header(headers, header) {
        Some(kept) => same_header(kept, header),
        None => true,
    }
}

// Whether both headers of a dual proof are.
fn both_agree(headers: &[Header], dual: &DualProof) -> bool
    requires { AllPairs (λ (a b : TheHeader). a.id < b.id) headers.now }
    ensures { IsTrue result ↔ AllByRecursion (IsAlike headers.now) (both_headers dual.now) }
{
    header_agrees(headers, &dual.source) && header_agrees(headers, &dual.target)
}

// Whether those of an anchor are, if there is one.
fn anchor_agrees(headers: &[Header], anchor: Option<&DualProof>) -> bool
    requires { AllPairs (λ (a b : TheHeader). a.id < b.id) headers.now }
    ensures { IsTrue result ↔ AllByRecursion (IsAlike headers.now) (anchor_headers (option_copied anchor.entry)) }
{
    match anchor {
        Some(anchor) => both_agree(headers, anchor),
        None => true,
    }
}

// Whether those of an advance are.
fn advance_agrees(headers: &[Header], dual: &DualProof, anchor: Option<&DualProof>) -> bool
    requires { AllPairs (λ (a b : TheHeader). a.id < b.id) headers.now }
    ensures { IsTrue result ↔ AllByRecursion (IsAlike headers.now) (both_headers dual.now ++ anchor_headers (option_copied anchor.entry)) }
{
    both_agree(headers, dual) && anchor_agrees(headers, anchor)
}

// Whether each header that a message shows is the kept one of its number, where one is kept.
pub(crate) fn headers_agree(headers: &[Header], message: &Message) -> bool
    requires { AllPairs (λ (a b : TheHeader). a.id < b.id) headers.now }
    ensures { IsTrue result ↔ AllByRecursion (IsAlike headers.now) (headers_shown message.now) }
{
    match message {
        Message::State { header } => header_agrees(headers, header),
        Message::Dual { dual } | Message::Item { dual, .. } => both_agree(headers, dual),
        Message::Advance { dual, anchor } => advance_agrees(headers, dual, anchor.as_ref()),
    }
}

// Whether an entry is the kept one of its place, where one is kept.
fn entry_agrees(facts: &[EntryFact], tx: u64, index: u32, entry: &Entry) -> bool
    requires { AllPairs IsBefore facts.now }
    ensures { IsTrue result ↔ IsEntryAlike facts.now (record { tx = tx; index = index; entry = entry.now }) }
{
    match find_entry(facts, tx, index) {
        Some(kept) => same_entry(kept, entry),
        None => true,
    }
}

// Whether each entry that a message shows is the kept one of its place, where one is kept.
pub(crate) fn entries_agree(facts: &[EntryFact], message: &Message) -> bool
    requires { AllPairs IsBefore facts.now }
    ensures { IsTrue result ↔ AllByRecursion (IsEntryAlike facts.now) (entries_shown message.now) }
{
    match message {
        Message::Item {
            dual,
            entry,
            index,
            ..
        } => entry_agrees(facts, dual.source.id, *index, entry),
        Message::State { .. } | Message::Dual { .. } | Message::Advance { .. } => true,
    }
}
