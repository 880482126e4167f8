ghost use Rattle.std.specs.Prelude.{OnOk};
ghost use Rattle.im_hashed.specs.Added.{AddsStrings};
ghost use Rattle.im_hashed.specs.Messages.{ProofsHold, AnchorHolds, anchor_strings, item_strings, message_strings};

use crate::duals::add_dual;
use crate::parts::{add_entry, add_header, add_path};
use im_digest::{D32, Hash32};
use im_model::entries::Entry;
use im_octet::octets::Octets;
use im_proof::proofs::DualProof;
use im_wire::messages::Message;
use std::alloc::{AllocError, Global};

/// Adds the strings that are hashed in checking a message which passes the checks of its proofs, and those of the header of a
/// first state, whose checks hash nothing: each at least once, and no others. Each is hashed once more where a later one is made
/// of its digest. Its only error is want of memory; then some of them may have been added.
pub fn add_message<H: Hash32>(
    alloc: Global,
    hash: &H,
    out: &mut Vec<Octets>,
    message: &Message,
) -> Result<(), AllocError>
    requires { ProofsHold (H.digest hash.now) message.now }
    ensures { OnOk result (AddsStrings out.old.items out.new.items (message_strings (H.digest hash.now) message.now)) }
{
    match message {
        Message::State { header } => {
            add_header(alloc, hash, out, header)?;
            Ok(())
        }
        Message::Dual { dual } => add_dual(alloc, hash, out, dual),
        Message::Advance { dual, anchor } => {
            add_dual(alloc, hash, out, dual)?;
            add_anchor(alloc, hash, out, anchor)
        }
        Message::Item {
            dual,
            entry,
            index,
            path,
        } => {
            add_dual(alloc, hash, out, dual)?;
            let width = dual.source.nentries;
            add_item(alloc, hash, out, entry, *index, width, path.as_slice())
        }
    }
}

// Adds the strings of an anchor, if there is one.
fn add_anchor<H: Hash32>(
    alloc: Global,
    hash: &H,
    out: &mut Vec<Octets>,
    anchor: &Option<DualProof>,
) -> Result<(), AllocError>
    requires { AnchorHolds (H.digest hash.now) anchor.now }
    ensures { OnOk result (AddsStrings out.old.items out.new.items (anchor_strings (H.digest hash.now) anchor.now)) }
{
    match anchor {
        None => Ok(()),
        Some(dual) => add_dual(alloc, hash, out, dual),
    }
}

// Adds the strings of an entry of this index among so many, and of its path.
fn add_item<H: Hash32>(
    alloc: Global,
    hash: &H,
    out: &mut Vec<Octets>,
    entry: &Entry,
    index: u32,
    width: u32,
    path: &[D32],
) -> Result<(), AllocError>
    ensures { OnOk result (AddsStrings out.old.items out.new.items (item_strings (H.digest hash.now) entry.now index width path.now)) }
{
    let digest = add_entry(alloc, hash, out, entry)?;
    add_path(
        alloc,
        hash,
        out,
        width as usize,
        index as usize,
        &digest,
        path,
    )?;
    Ok(())
}
