ghost use Rattle.std.specs.Prelude.{◌≡◌, ◌<◌, ◌^◌, FitsSigned, length};
ghost use Rattle.std.specs.Int.{w64};
ghost use Rattle.im_model.specs.Entries.{EntryFits};
ghost use Rattle.im_pairs.specs.Ranges.{HeaderFits};

use im_digest::D32;
use im_model::entries::Entry;
use im_model::headers::Header;

/// Each field of a header fits its place, by its type. It does nothing.
pub fn header_fits(header: &Header)
    ensures { HeaderFits header.now }
{
    fits_eight(header.id);
    fits_signed(header.ts);
    fits_eight(header.bl_tx_id);
    is_digest(&header.bl_root);
    is_digest(&header.prev_alh);
    fits_two(header.version);
    let _md = header.md.as_slice();
    fits_four(header.nentries);
    is_digest(&header.eh);
}

/// So do the lengths of an entry. It does nothing.
pub fn entry_fits(entry: &Entry)
    ensures { EntryFits entry.now }
{
    let _md = entry.md.as_slice();
    let _key = entry.key.as_slice();
}

fn fits_eight(n: u64)
    ensures { n < 2 ^ 64 }
{}

fn fits_signed(n: i64)
    ensures { FitsSigned w64 n }
{}

fn fits_four(n: u32)
    ensures { n < 2 ^ 32 }
{}

fn fits_two(n: u16)
    ensures { n < 2 ^ 16 }
{}

fn is_digest(digest: &D32)
    ensures { length digest.now ≡ 32 }
{}
