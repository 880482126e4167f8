ghost use Rattle.std.specs.Prelude.{◌≡◌, ◌++◌, IfOk};
ghost use Rattle.im_octet.specs.Fields.{field4, field8};
ghost use Rattle.im_model.specs.Trees.{leaf_string};
ghost use Rattle.im_model.specs.Entries.{entry_string};
ghost use Rattle.im_model.specs.Headers.{inner_string, alh_string};

use im_digest::{D32, Hash32};
use im_header::inner;
use im_model::entries::Entry;
use im_model::headers::Header;
use im_octet::octets::Octets;
use im_octet::writer::Writer;
use std::alloc::{AllocError, Global};

/// The digest of a string. It takes no memory, and costs one hash.
pub fn digest_of<H: Hash32>(hash: &H, octets: &Octets) -> D32
    ensures { result ≡ H.digest hash.now octets.now }
{
    hash.hash(octets.as_slice(), &[], &[])
}

/// The string that is hashed for a leaf: 00 | digest (RFC 6962, section 2.1). Its only error is want of memory.
pub fn leaf_octets(alloc: Global, digest: &D32) -> Result<Octets, AllocError>
    ensures { IfOk result (λ octets. octets ≡ leaf_string digest.now) }
{
    let mut octets = Vec::new(alloc);
    octets.push(0)?;
    octets.extend_from_slice(digest)?;
    Ok(Octets::from_vec(octets))
}

/// The string whose digest is the Alh: `ID 8 | PrevAlh 32 | inner 32`. It costs one hash. Its only error is want
/// of memory.
pub fn alh_octets<H: Hash32>(alloc: Global, hash: &H, header: &Header) -> Result<Octets, AllocError>
    ensures { IfOk result (λ octets. octets ≡ alh_string (H.digest hash.now) header.now) }
{
    let mut writer = Writer::new(alloc);
    writer.u64(header.id)?;
    writer.octets(&header.prev_alh)?;
    writer.octets(&inner(hash, header))?;
    Ok(Octets::from_vec(writer.into_vec()))
}

/// The string whose digest is the inner one: `Ts 8 | Version 2 | mdLen 2 | md | NEntries 4 | Eh 32 | BlTxID 8 |
/// BlRoot 32`. Its only error is want of memory.
pub fn inner_octets(alloc: Global, header: &Header) -> Result<Octets, AllocError>
    ensures { IfOk result (λ octets. octets ≡ inner_string header.now) }
{
    let md = header.md.as_slice();
    let back = back_octets(alloc, header)?;
    let mut writer = Writer::new(alloc);
    writer.i64(header.ts)?;
    writer.u16(header.version)?;
    writer.u16(md.len() as u16)?;
    writer.octets(md)?;
    writer.octets(back.as_slice())?;
    Ok(Octets::from_vec(writer.into_vec()))
}

// What stands behind the metadata.
fn back_octets(alloc: Global, header: &Header) -> Result<Octets, AllocError>
    ensures { IfOk result (λ octets. octets ≡ field4 header.now.nentries ++ header.now.eh ++ field8 header.now.bl_tx_id ++ header.now.bl_root) }
{
    let mut writer = Writer::new(alloc);
    writer.u32(header.nentries)?;
    writer.octets(&header.eh)?;
    writer.u64(header.bl_tx_id)?;
    writer.octets(&header.bl_root)?;
    Ok(Octets::from_vec(writer.into_vec()))
}

/// The string whose digest is an entry's: `mdLen 2 | md | keyLen 2 | key | H(value) 32`. It costs one hash. Its
/// only error is want of memory.
pub fn entry_octets<H: Hash32>(alloc: Global, hash: &H, entry: &Entry) -> Result<Octets, AllocError>
    ensures { IfOk result (λ octets. octets ≡ entry_string (H.digest hash.now) entry.now) }
{
    let md = entry.md.as_slice();
    let key = entry.key.as_slice();
    let value = hash.hash(entry.value.as_slice(), &[], &[]);
    let mut writer = Writer::new(alloc);
    writer.u16(md.len() as u16)?;
    writer.octets(md)?;
    writer.u16(key.len() as u16)?;
    writer.octets(key)?;
    writer.octets(&value)?;
    Ok(Octets::from_vec(writer.into_vec()))
}
