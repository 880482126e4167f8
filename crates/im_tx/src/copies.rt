//! Copies of what is asked for and of what is placed. The only error of each is want of memory.

ghost use Rattle.std.specs.Prelude.{◌≡◌, IfOk};

use im_draft::preconditions::{Pre, Pres};
use im_model::entries::{Entries, Entry};
use im_model::transactions::Transaction;
use im_octet::octets::Octets;
use std::alloc::{AllocError, Global};

/// A copy of entries, of the metadata, the key and the value of each.
pub fn copy_of_entries(alloc: Global, entries: &[Entry]) -> Result<Entries, AllocError>
    ensures { IfOk result (λ copies. copies ≡ entries.now) }
{
    let mut copies = Vec::with_capacity(alloc, entries.len())?;
    for entry in entries {
        copies.push(entry.try_clone(alloc)?)?;
    }
    Ok(Entries::from_vec(copies))
}

/// A copy of a transaction, of its entries too.
pub fn copy_of_transaction(alloc: Global, tx: &Transaction) -> Result<Transaction, AllocError>
    ensures { IfOk result (λ copy. copy ≡ tx.now) }
{
    Ok(Transaction {
        ts: tx.ts,
        entries: copy_of_entries(alloc, tx.entries.as_slice())?,
        bl: tx.bl,
    })
}

/// A copy of preconditions, of the key of each.
pub fn copy_of_pres(alloc: Global, pres: &[Pre]) -> Result<Pres, AllocError>
    ensures { IfOk result (λ copies. copies ≡ pres.now) }
{
    let mut copies = Vec::with_capacity(alloc, pres.len())?;
    for pre in pres {
        copies.push(copy_of_pre(alloc, pre)?)?;
    }
    Ok(Pres::from_vec(copies))
}

// A copy of a precondition.
fn copy_of_pre(alloc: Global, pre: &Pre) -> Result<Pre, AllocError>
    ensures { IfOk result (λ copy. copy ≡ pre.now) }
{
    match pre {
        Pre::Exists { key } => Ok(Pre::Exists {
            key: Octets::from_slice(alloc, key.as_slice())?,
        }),
        Pre::Missing { key } => Ok(Pre::Missing {
            key: Octets::from_slice(alloc, key.as_slice())?,
        }),
        Pre::Since { key, n } => Ok(Pre::Since {
            key: Octets::from_slice(alloc, key.as_slice())?,
            n: *n,
        }),
    }
}
