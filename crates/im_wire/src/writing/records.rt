ghost use Rattle.std.specs.Prelude.{◌≡◌, ◌++◌, OnOk};
ghost use Rattle.im_wire.specs.Texts.{header_data, entry_data};
ghost use Rattle.im_wire.specs.Tokens.{tokens_of, field_tokens, header_front_tokens, header_middle_tokens, header_back_tokens, entry_tokens};

use crate::writing::fields::{put_digest_field, put_hex_field, put_number_field, put_signed_field};
use im_model::entries::Entry;
use im_model::headers::Header;
use json::Writer;
use std::alloc::{AllocError, Global};

// Adds the first three members of a header.
#[tactic(auto, unfolding(crate::specs::Tokens::header_front_tokens))]
fn put_header_front(out: &mut Writer, header: &Header) -> Result<(), AllocError>
    ensures ok { OnOk result (out.new.tokens ≡ out.old.tokens ++ header_front_tokens header.now) }
    ensures before { out.new.before ≡ out.old.before }
{
    put_digest_field(out, "blRoot", &header.bl_root)?;
    put_number_field(out, "blTxId", header.bl_tx_id)?;
    put_digest_field(out, "eh", &header.eh)
}

// Adds the next three members.
#[tactic(auto, unfolding(crate::specs::Tokens::header_middle_tokens))]
fn put_header_middle(alloc: Global, out: &mut Writer, header: &Header) -> Result<(), AllocError>
    ensures ok { OnOk result (out.new.tokens ≡ out.old.tokens ++ header_middle_tokens header.now) }
    ensures before { out.new.before ≡ out.old.before }
{
    put_number_field(out, "id", header.id)?;
    put_hex_field(alloc, out, "md", header.md.as_slice())?;
    put_number_field(out, "nentries", u64::from(header.nentries))
}

// Adds the last three members.
#[tactic(auto, unfolding(crate::specs::Tokens::header_back_tokens))]
fn put_header_back(out: &mut Writer, header: &Header) -> Result<(), AllocError>
    ensures ok { OnOk result (out.new.tokens ≡ out.old.tokens ++ header_back_tokens header.now) }
    ensures before { out.new.before ≡ out.old.before }
{
    put_digest_field(out, "prevAlh", &header.prev_alh)?;
    put_signed_field(out, "ts", header.ts)?;
    put_number_field(out, "version", u64::from(header.version))
}

// Adds a header.
pub(crate) fn put_header(alloc: Global, out: &mut Writer, header: &Header) -> Result<(), AllocError>
    ensures ok { OnOk result (out.new.tokens ≡ out.old.tokens ++ tokens_of (header_data header.now)) }
    ensures before { out.new.before ≡ out.old.before }
{
    out.begin_object()?;
    put_header_front(out, header)?;
    put_header_middle(alloc, out, header)?;
    put_header_back(out, header)?;
    out.end_object()
}

// Adds a member that is a header.
#[tactic(auto, unfolding(crate::specs::Tokens::field_tokens))]
pub(crate) fn put_header_field(
    alloc: Global,
    out: &mut Writer,
    name: &str,
    header: &Header,
) -> Result<(), AllocError>
    ensures ok { OnOk result (out.new.tokens ≡ out.old.tokens ++ field_tokens name.now (header_data header.now)) }
    ensures before { out.new.before ≡ out.old.before }
{
    out.key(name)?;
    put_header(alloc, out, header)
}

// Adds the members of an entry.
#[tactic(auto, unfolding(crate::specs::Tokens::entry_tokens))]
fn put_entry_fields(alloc: Global, out: &mut Writer, entry: &Entry) -> Result<(), AllocError>
    ensures ok { OnOk result (out.new.tokens ≡ out.old.tokens ++ entry_tokens entry.now) }
    ensures before { out.new.before ≡ out.old.before }
{
    put_hex_field(alloc, out, "key", entry.key.as_slice())?;
    put_hex_field(alloc, out, "md", entry.md.as_slice())?;
    put_hex_field(alloc, out, "value", entry.value.as_slice())
}

// Adds an entry.
fn put_entry(alloc: Global, out: &mut Writer, entry: &Entry) -> Result<(), AllocError>
    ensures ok { OnOk result (out.new.tokens ≡ out.old.tokens ++ tokens_of (entry_data entry.now)) }
    ensures before { out.new.before ≡ out.old.before }
{
    out.begin_object()?;
    put_entry_fields(alloc, out, entry)?;
    out.end_object()
}

// Adds a member that is an entry.
#[tactic(auto, unfolding(crate::specs::Tokens::field_tokens))]
pub(crate) fn put_entry_field(
    alloc: Global,
    out: &mut Writer,
    name: &str,
    entry: &Entry,
) -> Result<(), AllocError>
    ensures ok { OnOk result (out.new.tokens ≡ out.old.tokens ++ field_tokens name.now (entry_data entry.now)) }
    ensures before { out.new.before ≡ out.old.before }
{
    out.key(name)?;
    put_entry(alloc, out, entry)
}
