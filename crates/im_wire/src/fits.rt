ghost use Rattle.std.specs.Prelude.{◌<◌, ◌^◌};
ghost use Rattle.hex.specs.Hex.{IsBytes};
ghost use Rattle.im_wire.specs.Fits.{IsDigest, AreDigestOctets, AreDigestLists, IsBounded, IsSigned, IsHeader, IsEntryInRange, IsAdvanceProof, IsDualProof, IsAnchor, IsMessage};

use crate::messages::Message;
use im_digest::D32;
use im_model::entries::Entry;
use im_model::headers::Header;
use im_mtree::digests::Digests;
use im_octet::bounded::Bounded;
use im_proof::proofs::{AdvanceProof, DualProof};

// What the type of octets says.
fn octets_fit(octets: &[u8])
    ensures { IsBytes octets.now }
{
    let _len = octets.len();
}

// What the type of bounded octets says.
fn bounded_fits<const LEAST: usize, const MOST: usize>(bounded: &Bounded<LEAST, MOST>)
    ensures { IsBounded LEAST MOST bounded.now }
{
    octets_fit(bounded.as_slice());
}

// What the type of a digest says.
fn digest_fits(digest: &D32)
    ensures { IsDigest digest.now }
{
    octets_fit(digest.as_slice());
}

// What the type of digests says.
fn digests_fit(digests: &[D32])
    ensures { AreDigestOctets digests.now }
{
    for digest in digests {
        digest_fits(digest);
    }
}

// What the type of lists of digests says.
fn digest_lists_fit(lists: &[Digests])
    ensures { AreDigestLists lists.now }
{
    for digests in lists {
        digests_fit(digests.as_slice());
    }
}

// What the type of a number says.
fn number_fits(number: u64)
    ensures { number < 2 ^ 64 }
{
    let _number = number;
}

// What the type of a number with a sign says.
fn signed_fits(number: i64)
    ensures { IsSigned number }
{
    let _number = number;
}

// What the types say of a header.
pub(crate) fn header_fits(header: &Header)
    ensures { IsHeader header.now }
{
    number_fits(header.id);
    signed_fits(header.ts);
    number_fits(header.bl_tx_id);
    digest_fits(&header.bl_root);
    digest_fits(&header.prev_alh);
    let _version = header.version;
    bounded_fits(&header.md);
    let _nentries = header.nentries;
    digest_fits(&header.eh);
}

// What the types say of an entry.
fn entry_fits(entry: &Entry)
    ensures { IsEntryInRange entry.now }
{
    bounded_fits(&entry.md);
    bounded_fits(&entry.key);
    bounded_fits(&entry.value);
}

// What the types say of a linear advance.
fn advance_proof_fits(advance: &AdvanceProof)
    ensures { IsAdvanceProof advance.now }
{
    digests_fit(advance.terms.as_slice());
    digest_lists_fit(advance.inclusions.as_slice());
}

// What the types say of a dual proof.
fn dual_proof_fits(dual: &DualProof)
    ensures { IsDualProof dual.now }
{
    header_fits(&dual.source);
    header_fits(&dual.target);
    digests_fit(dual.inclusion.as_slice());
    digests_fit(dual.consistency.as_slice());
    digest_fits(&dual.target_bl_tx_alh);
    digests_fit(dual.last_inclusion.as_slice());
    digests_fit(dual.linear.as_slice());
    advance_proof_fits(&dual.linear_advance);
}

// What the types say of an anchor.
fn anchor_fits(anchor: &Option<DualProof>)
    ensures { IsAnchor anchor.now }
{
    if let Some(dual) = anchor {
        dual_proof_fits(dual);
    }
}

/// What the types say of a message: its numbers are in range, its octets are octets, its digests have 32. It does
/// nothing, but walks over the message's lists of digests to say so.
pub fn message_fits(message: &Message)
    ensures { IsMessage message.now }
{
    match message {
        Message::State { header } => header_fits(header),
        Message::Dual { dual } => dual_proof_fits(dual),
        Message::Advance { dual, anchor } => {
            dual_proof_fits(dual);
            anchor_fits(anchor);
        }
        Message::Item {
            dual,
            entry,
            index,
            path,
        } => {
            dual_proof_fits(dual);
            entry_fits(entry);
            let _index = *index;
            digests_fit(path.as_slice());
        }
    }
}
