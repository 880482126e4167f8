ghost use Rattle.std.specs.Prelude.{◌≡◌, ◌<◌, length};
ghost use Rattle.im_model.specs.History.{bl_root_of, entries_root, next_header, IsTransaction};

use im_digest::{D32, Hash32};
use im_model::headers::Header;
use im_model::limits::Metadata;
use im_model::transactions::Transaction;
use im_octet::octets::Octets;
use std::alloc::Global;

/// The header of a transaction behind those whose Alh are `alhs`, over a tree of the root `bl_root`, where `eh`
/// is the root over the digests of its entries. It takes no memory, and costs a hash only where no Alh is before
/// it.
#[tactic(auto, unfolding(im_model::specs::History::next_header))]
pub fn next_header<H: Hash32>(
    alloc: Global,
    hash: &H,
    alhs: &[D32],
    bl_root: D32,
    tx: &Transaction,
    eh: D32,
) -> Header
    requires tx { IsTransaction (length alhs.now) tx.now }
    requires few { length alhs.now < 1048576 }
    requires root { bl_root ≡ bl_root_of (H.digest hash.now) alhs.now tx.now.bl }
    requires entries { eh ≡ entries_root (H.digest hash.now) tx.now.entries }
    ensures { result ≡ next_header (H.digest hash.now) alhs.now tx.now }
{
    Header {
        id: alhs.len() as u64 + 1,
        ts: tx.ts,
        bl_tx_id: tx.bl,
        bl_root,
        prev_alh: match alhs.last() {
            Some(alh) => *alh,
            None => hash.hash(&[], &[], &[]),
        },
        version: 1,
        md: Metadata::new(Octets::new(alloc)),
        nentries: tx.entries.as_slice().len() as u32,
        eh,
    }
}
