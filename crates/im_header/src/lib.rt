//! The header of the next transaction, and the digests of a header (immudb's embedded store, header version 1).
//! They take no memory.
#![tactic(auto)]

pub mod laws;
pub mod next;

ghost use Rattle.std.specs.Prelude.{◌≡◌};
ghost use Rattle.im_model.specs.Headers.{inner, alh};

use arrayvec::ArrayVec;
use im_digest::{D32, Hash32};
use im_model::headers::Header;
use im_octet::buffers::append;
use im_octet::fields::{eight, four, signed_eight, two};

/// The inner digest: of `Ts 8 | Version 2 | mdLen 2 | md | NEntries 4 | Eh 32 | BlTxID 8 | BlRoot 32`. It
/// costs one hash.
pub fn inner<H: Hash32>(hash: &H, header: &Header) -> D32
    ensures { result ≡ inner (H.digest hash.now) header.now }
{
    let md = header.md.as_slice();
    let mut front = ArrayVec::<u8, 12>::new();
    append(&mut front, &signed_eight(header.ts));
    append(&mut front, &two(header.version));
    append(&mut front, &two(md.len() as u16));
    let mut back = ArrayVec::<u8, 76>::new();
    append(&mut back, &four(header.nentries));
    append(&mut back, &header.eh);
    append(&mut back, &eight(header.bl_tx_id));
    append(&mut back, &header.bl_root);
    hash.hash(front.as_slice(), md, back.as_slice())
}

/// The accumulated linear hash, Alh: the digest of `ID 8 | PrevAlh 32 | inner 32`. It costs two hashes: the
/// inner digest, and its own.
pub fn alh<H: Hash32>(hash: &H, header: &Header) -> D32
    ensures { result ≡ alh (H.digest hash.now) header.now }
{
    let inner = inner(hash, header);
    hash.hash(&eight(header.id), &header.prev_alh, &inner)
}
