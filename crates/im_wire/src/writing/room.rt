//! How much room a message's text takes, so that its memory is asked for once. It is a guess: a text that needs more gets it.

use crate::messages::Message;
use im_model::entries::Entry;
use im_mtree::digests::Digests;
use im_proof::proofs::DualProof;

// A digest in hex, with its quotes and a comma.
const DIGEST_ROOM: usize = 67;

// A header of short metadata: three digests and the names and numbers of nine members.
const HEADER_ROOM: usize = 512;

// What a message has beside its headers and its lists: names, brackets, a digest, an index.
const FRAME_ROOM: usize = 512;

// The room of so many digests.
fn room_of(digests: &Digests) -> usize {
    digests.len().saturating_mul(DIGEST_ROOM)
}

// The room of some lists of digests, each with its brackets.
fn lists_room(lists: &[Digests]) -> usize {
    let mut room = 0usize;
    for digests in lists {
        room = room.saturating_add(room_of(digests)).saturating_add(3);
    }
    room
}

// The room of a dual proof.
fn dual_room(dual: &DualProof) -> usize {
    let advance = &dual.linear_advance;
    (2 * HEADER_ROOM + FRAME_ROOM)
        .saturating_add(room_of(&dual.inclusion))
        .saturating_add(room_of(&dual.consistency))
        .saturating_add(room_of(&dual.last_inclusion))
        .saturating_add(room_of(&dual.linear))
        .saturating_add(room_of(&advance.terms))
        .saturating_add(lists_room(advance.inclusions.as_slice()))
}

// The room of an entry, whose octets are two digits each.
fn entry_room(entry: &Entry) -> usize {
    let key = entry.key.as_slice().len();
    let value = entry.value.as_slice().len();
    key.saturating_add(value).saturating_mul(2)
}

/// About how many octets the text of a message takes. It walks over the lists of digests.
pub(crate) fn message_room(message: &Message) -> usize {
    match message {
        Message::State { .. } => HEADER_ROOM,
        Message::Dual { dual } => dual_room(dual),
        Message::Advance { dual, anchor } => match anchor {
            Some(anchor) => dual_room(dual).saturating_add(dual_room(anchor)),
            None => dual_room(dual),
        },
        Message::Item {
            dual,
            entry,
            path,
            ..
        } => dual_room(dual)
            .saturating_add(entry_room(entry))
            .saturating_add(room_of(path)),
    }
}
