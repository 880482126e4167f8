ghost use Rattle.std.specs.Prelude.{◌≡◌, ◌++◌, OnOk, IfOk};
ghost use Rattle.im_wire.specs.declared.messages.Message.TheVariants.{State, Dual, Advance, Item};
ghost use Rattle.im_wire.specs.Headers.{header_text};
ghost use Rattle.im_wire.specs.Messages.{HasMessage};
ghost use Rattle.im_wire.specs.Texts.{message_data, text};
ghost use Rattle.im_wire.specs.Tokens.{tokens_of, item_tokens};

mod duals;
mod fields;
mod records;
mod room;

use crate::fits::{header_fits, message_fits};
use crate::messages::Message;
use crate::writing::duals::{put_anchor_field, put_dual_proof_field};
use crate::writing::fields::{put_digests_field, put_number_field, put_text_field};
use crate::writing::records::{put_entry_field, put_header, put_header_field};
use crate::writing::room::message_room;
use im_model::entries::Entry;
use im_model::headers::Header;
use im_mtree::digests::Digests;
use im_proof::proofs::DualProof;
use json::Writer;
use std::alloc::{AllocError, Global};

// Adds a state.
fn put_state(alloc: Global, out: &mut Writer, header: &Header) -> Result<(), AllocError>
    ensures ok { OnOk result (out.new.tokens ≡ out.old.tokens ++ tokens_of (message_data (State header.now))) }
    ensures before { out.new.before ≡ out.old.before }
{
    out.begin_object()?;
    put_header_field(alloc, out, "header", header)?;
    put_text_field(out, "type", "state")?;
    out.end_object()
}

// Adds a dual proof.
fn put_dual(alloc: Global, out: &mut Writer, dual: &DualProof) -> Result<(), AllocError>
    ensures ok { OnOk result (out.new.tokens ≡ out.old.tokens ++ tokens_of (message_data (Dual dual.now))) }
    ensures before { out.new.before ≡ out.old.before }
{
    out.begin_object()?;
    put_dual_proof_field(alloc, out, "dual", dual)?;
    put_text_field(out, "type", "dual")?;
    out.end_object()
}

// Adds an advance.
fn put_advance(
    alloc: Global,
    out: &mut Writer,
    dual: &DualProof,
    anchor: &Option<DualProof>,
) -> Result<(), AllocError>
    ensures ok { OnOk result (out.new.tokens ≡ out.old.tokens ++ tokens_of (message_data (Advance dual.now anchor.now))) }
    ensures before { out.new.before ≡ out.old.before }
{
    out.begin_object()?;
    put_anchor_field(alloc, out, "anchor", anchor)?;
    put_dual_proof_field(alloc, out, "dual", dual)?;
    put_text_field(out, "type", "advance")?;
    out.end_object()
}

// Adds the members of an item between its dual proof and its type.
#[tactic(auto, unfolding(crate::specs::Tokens::item_tokens))]
fn put_item_fields(
    alloc: Global,
    out: &mut Writer,
    entry: &Entry,
    index: u32,
    path: &Digests,
) -> Result<(), AllocError>
    ensures ok { OnOk result (out.new.tokens ≡ out.old.tokens ++ item_tokens entry.now index path.now) }
    ensures before { out.new.before ≡ out.old.before }
{
    put_entry_field(alloc, out, "entry", entry)?;
    put_number_field(out, "index", u64::from(index))?;
    put_digests_field(out, "path", path)
}

// Adds an item.
fn put_item(
    alloc: Global,
    out: &mut Writer,
    dual: &DualProof,
    entry: &Entry,
    index: u32,
    path: &Digests,
) -> Result<(), AllocError>
    ensures ok { OnOk result (out.new.tokens ≡ out.old.tokens ++ tokens_of (message_data (Item dual.now entry.now index path.now))) }
    ensures before { out.new.before ≡ out.old.before }
{
    out.begin_object()?;
    put_dual_proof_field(alloc, out, "dual", dual)?;
    put_item_fields(alloc, out, entry, index, path)?;
    put_text_field(out, "type", "item")?;
    out.end_object()
}

// Adds a message.
fn put_message(alloc: Global, out: &mut Writer, message: &Message) -> Result<(), AllocError>
    ensures ok { OnOk result (out.new.tokens ≡ out.old.tokens ++ tokens_of (message_data message.now)) }
    ensures before { out.new.before ≡ out.old.before }
{
    match message {
        Message::State { header } => put_state(alloc, out, header),
        Message::Dual { dual } => put_dual(alloc, out, dual),
        Message::Advance { dual, anchor } => put_advance(alloc, out, dual, anchor),
        Message::Item {
            dual,
            entry,
            index,
            path,
        } => put_item(alloc, out, dual, entry, *index, path),
    }
}

/// The one text of a message: compact JSON (RFC 8259), members in rising octet order of their names,
/// octets as lower-case hex. `read_message`, its twin, gives the message back. It refuses for want of memory
/// alone.
pub fn write(alloc: Global, message: &Message) -> Result<Vec<u8>, AllocError>
    ensures text { IfOk result (λ octets. octets.items ≡ text message.now) }
    ensures again { IfOk result (λ octets. HasMessage octets.items message.now) }
{
    let mut out = Writer::new(Vec::with_capacity(alloc, message_room(message))?);
    put_message(alloc, &mut out, message)?;
    message_fits(message);
    Ok(out.into_inner())
}

/// The one text of a header: compact JSON (RFC 8259), members in rising octet order of their names, octets as
/// lower-case hex. It refuses for want of memory alone.
pub fn header_json(alloc: Global, header: &Header) -> Result<Vec<u8>, AllocError>
    ensures { IfOk result (λ octets. octets.items ≡ header_text header.now) }
{
    let mut out = Writer::new(Vec::new(alloc));
    put_header(alloc, &mut out, header)?;
    header_fits(header);
    Ok(out.into_inner())
}
