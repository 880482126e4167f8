use crate::limits::Metadata;
use im_digest::D32;
use im_octet::octets::Octets;
use std::alloc::{AllocError, Global};

/// The header of a transaction (immudb's embedded store, header version 1).
#[derive(Drop)]
pub struct Header {
    /// The transaction's number, from 1.
    pub id: u64,
    /// When it was placed, in Unix seconds.
    pub ts: i64,
    /// How many earlier transactions the tree held when it was placed.
    pub bl_tx_id: u64,
    /// The root of that tree, or zeros where it held none.
    pub bl_root: D32,
    /// The Alh of the transaction before it, or the digest of the empty string.
    pub prev_alh: D32,
    /// The version of the header's form: 1.
    pub version: u16,
    /// Opaque here; this store writes none.
    pub md: Metadata,
    /// The number of entries.
    pub nentries: u32,
    /// The root over the entries' digests.
    pub eh: D32,
}

impl Header {
    ghost use Rattle.std.specs.Prelude.{◌≡◌, IfOk};

    /// A copy of this header. Only its metadata takes memory. Its only error is want of memory.
    pub fn try_clone(&self, alloc: Global) -> Result<Self, AllocError>
        ensures { IfOk result (λ header. header ≡ self.now) }
    {
        let md = Octets::from_slice(alloc, self.md.as_slice())?;
        Ok(Header {
            id: self.id,
            ts: self.ts,
            bl_tx_id: self.bl_tx_id,
            bl_root: self.bl_root,
            prev_alh: self.prev_alh,
            version: self.version,
            md: Metadata::new(md),
            nentries: self.nentries,
            eh: self.eh,
        })
    }
}
