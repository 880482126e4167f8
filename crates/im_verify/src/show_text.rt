//! The text of what a client knows.

ghost use Rattle.std.specs.Prelude.{◌≡◌, ◌++◌, IfOk, OnOk, option_copied};
ghost use Rattle.std.specs.List.{flat_map};
ghost use Rattle.im_verify.specs.Shows.{entry_line, facts_text, header_line, state_line};

use im_digest::Hash32;
use im_facts::clients::FactClient;
use im_facts::facts::EntryFact;
use im_header::alh;
use im_model::headers::Header;
use im_report::reads::push_octets;
use im_text::writing::{push_hex, push_number};
use std::alloc::{AllocError, Global};

// Adds the line of a state, or of none.
#[tactic(auto, unfolding(crate::specs::Shows::state_line))]
fn push_state<H: Hash32>(
    out: &mut Vec<u8>,
    hash: &H,
    state: Option<&Header>,
) -> Result<(), AllocError>
    ensures { OnOk result (out.new.items ≡ out.old.items ++ state_line (H.digest hash.now) (option_copied state.entry)) }
{
    let alloc = *out.allocator();
    let Some(header) = state else {
        return out.extend_from_slice(b"state none\n");
    };
    push_number(alloc, out, b"state ", header.id)?;
    push_hex(alloc, out, b" ", &alh(hash, header))?;
    out.extend_from_slice(b"\n")
}

// Adds the line of a header.
#[tactic(auto, unfolding(crate::specs::Shows::header_line))]
fn push_header<H: Hash32>(out: &mut Vec<u8>, hash: &H, header: &Header) -> Result<(), AllocError>
    ensures { OnOk result (out.new.items ≡ out.old.items ++ header_line (H.digest hash.now) header.now) }
{
    let alloc = *out.allocator();
    push_number(alloc, out, b"header ", header.id)?;
    push_hex(alloc, out, b" ", &alh(hash, header))?;
    out.extend_from_slice(b"\n")
}

// Adds the line of an entry.
#[tactic(auto, unfolding(crate::specs::Shows::entry_line))]
fn push_entry(out: &mut Vec<u8>, fact: &EntryFact) -> Result<(), AllocError>
    ensures { OnOk result (out.new.items ≡ out.old.items ++ entry_line fact.now) }
{
    let alloc = *out.allocator();
    push_number(alloc, out, b"entry ", fact.tx)?;
    push_number(alloc, out, b" ", u64::from(fact.index))?;
    push_octets(alloc, out, b" ", fact.entry.key.as_slice())?;
    push_octets(alloc, out, b"=", fact.entry.value.as_slice())?;
    push_hex(alloc, out, b" md 0x", fact.entry.md.as_slice())?;
    out.extend_from_slice(b"\n")
}

// Adds the lines of headers, in their order.
fn push_headers<H: Hash32>(
    out: &mut Vec<u8>,
    hash: &H,
    headers: &[Header],
) -> Result<(), AllocError>
    ensures { OnOk result (out.new.items ≡ out.old.items ++ flat_map (header_line (H.digest hash.now)) headers.now) }
{
    for header in headers {
        push_header(out, hash, header)?;
    }
    Ok(())
}

// Adds the lines of entries, in their order.
fn push_entries(out: &mut Vec<u8>, facts: &[EntryFact]) -> Result<(), AllocError>
    ensures { OnOk result (out.new.items ≡ out.old.items ++ flat_map entry_line facts.now) }
{
    for fact in facts {
        push_entry(out, fact)?;
    }
    Ok(())
}

/// The text of all that a client knows: its state, then each header and each entry that it keeps. It hashes each header.
pub(crate) fn known_text<H: Hash32>(
    alloc: Global,
    hash: &H,
    client: &FactClient<'_, '_, H>,
) -> Result<Vec<u8>, AllocError>
    ensures { IfOk result (λ text. text.items ≡ facts_text (H.digest hash.now) client.now.kept.state client.now.kept.headers client.now.kept.entries) }
{
    let mut out = Vec::new(alloc);
    push_state(&mut out, hash, client.state())?;
    push_headers(&mut out, hash, client.headers())?;
    push_entries(&mut out, client.entries())?;
    Ok(out)
}
