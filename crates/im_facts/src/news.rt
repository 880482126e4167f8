ghost use Rattle.std.specs.Prelude.{◌≡◌, ◌<◌, AllPairs, option_copied};
ghost use Rattle.im_model.specs.declared.headers.Header.{Header as TheHeader};
ghost use Rattle.im_facts.specs.Facts.{IsBefore};
ghost use Rattle.im_facts.specs.News.{knows_header, knows_both, knows_anchor, knows_headers, knows_entries, leaves};

use crate::facts::{EntryFact, find_entry, find_header};
use im_model::headers::Header;
use im_proof::proofs::DualProof;
use im_wire::messages::Message;

// Whether a header is kept for this one's number.
fn knows_header(headers: &[Header], header: &Header) -> bool
    requires { AllPairs (λ (a b : TheHeader). a.id < b.id) headers.now }
    ensures { result ≡ knows_header headers.now header.now }
{
    match find_header(headers, header) {
        Some(_) => true,
        None => false,
    }
}

// Whether one is for each header of a dual proof.
fn knows_both(headers: &[Header], dual: &DualProof) -> bool
    requires { AllPairs (λ (a b : TheHeader). a.id < b.id) headers.now }
    ensures { result ≡ knows_both headers.now dual.now }
{
    knows_header(headers, &dual.source) && knows_header(headers, &dual.target)
}

// Whether one is for each header of an anchor, if there is one.
fn knows_anchor(headers: &[Header], anchor: Option<&DualProof>) -> bool
    requires { AllPairs (λ (a b : TheHeader). a.id < b.id) headers.now }
    ensures { result ≡ knows_anchor headers.now (option_copied anchor.entry) }
{
    match anchor {
        Some(anchor) => knows_both(headers, anchor),
        None => true,
    }
}

// Whether one is for each header that a message shows.
pub(crate) fn knows_headers(headers: &[Header], message: &Message) -> bool
    requires { AllPairs (λ (a b : TheHeader). a.id < b.id) headers.now }
    ensures { result ≡ knows_headers headers.now message.now }
{
    match message {
        Message::State { header } => knows_header(headers, header),
        Message::Dual { dual } | Message::Item { dual, .. } => knows_both(headers, dual),
        Message::Advance { dual, anchor } => {
            knows_both(headers, dual) && knows_anchor(headers, anchor.as_ref())
        }
    }
}

// Whether an entry is kept for the place of the one that a message shows, if it shows one.
pub(crate) fn knows_entries(facts: &[EntryFact], message: &Message) -> bool
    requires { AllPairs IsBefore facts.now }
    ensures { result ≡ knows_entries facts.now message.now }
{
    match message {
        Message::Item { dual, index, .. } => match find_entry(facts, dual.source.id, *index) {
            Some(_) => true,
            None => false,
        },
        Message::State { .. } | Message::Dual { .. } | Message::Advance { .. } => true,
    }
}

// Whether an accepted message leaves this state as it is.
pub(crate) fn leaves(state: Option<&Header>, message: &Message) -> bool
    ensures { result ≡ leaves (option_copied state.entry) message.now }
{
    match state {
        Some(_) => match message {
            Message::Advance { dual, .. } => dual.source.id == dual.target.id,
            Message::State { .. } | Message::Dual { .. } | Message::Item { .. } => true,
        },
        None => false,
    }
}
