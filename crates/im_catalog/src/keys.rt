//! The keys under which tables and indexes stand. The only error of each call is want of memory.

ghost use Rattle.std.specs.Prelude.{◌≡◌, ◌∷◌, IfOk};
ghost use Rattle.im_octet.specs.Fields.{field4};
ghost use Rattle.im_sqlmodel.specs.Keys as spec;

use im_octet::octets::Octets;
use im_octet::writer::Writer;
use std::alloc::{AllocError, Global};

/// The key of the number of tables, 00 00.
pub fn tables_key() -> [u8; 2]
    ensures { result ≡ spec.tables_key }
{
    [0, 0]
}

// The key of octet 00, this octet and a table's number.
fn key_of(alloc: Global, second: u8, tid: u32) -> Result<Octets, AllocError>
    ensures { IfOk result (λ key. key ≡ 0 ∷ second ∷ field4 tid) }
{
    let mut out = Writer::new(alloc);
    out.octets(&[0, second])?;
    out.u32(tid)?;
    Ok(Octets::from_vec(out.into_vec()))
}

/// The key of a table: 00 01, its name.
pub fn table_key(alloc: Global, name: &[u8]) -> Result<Octets, AllocError>
    ensures { IfOk result (λ key. key ≡ spec.table_key name.now) }
{
    let mut out = Writer::new(alloc);
    out.octets(&[0, 1])?;
    out.octets(name)?;
    Ok(Octets::from_vec(out.into_vec()))
}

/// What the keys of a table's indexes begin with: 00 02, its number.
pub fn index_prefix(alloc: Global, tid: u32) -> Result<Octets, AllocError>
    ensures { IfOk result (λ key. key ≡ spec.index_prefix tid) }
{
    key_of(alloc, 2, tid)
}

/// The key of an index: 00 02, the table's number, its own.
pub fn index_key(alloc: Global, tid: u32, iid: u32) -> Result<Octets, AllocError>
    ensures { IfOk result (λ key. key ≡ spec.index_key tid iid) }
{
    let mut out = Writer::new(alloc);
    out.octets(&[0, 2])?;
    out.u32(tid)?;
    out.u32(iid)?;
    Ok(Octets::from_vec(out.into_vec()))
}

/// The key of a table's mark: 00 03, its number.
pub fn mark_key(alloc: Global, tid: u32) -> Result<Octets, AllocError>
    ensures { IfOk result (λ key. key ≡ spec.mark_key tid) }
{
    key_of(alloc, 3, tid)
}

/// What the keys of a table's rows begin with: 00 04, its number.
pub fn rows_prefix(alloc: Global, tid: u32) -> Result<Octets, AllocError>
    ensures { IfOk result (λ key. key ≡ spec.rows_prefix tid) }
{
    key_of(alloc, 4, tid)
}
