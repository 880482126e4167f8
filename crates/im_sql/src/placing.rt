//! What is placed: entries, and the preconditions that no key of some is written behind the number that was read.

ghost use Rattle.std.specs.Prelude.{◌≡◌, ◌<◌, ◌-◌, ◌^◌, ◌∷◌, ◌++◌, [], length, map, filter, IfOk, OnOk};
ghost use Rattle.im_draft.specs.declared.preconditions.Pre.TheVariants.{Since};
ghost use Rattle.im_sqlmodel.specs.Creations as spec;
ghost use Rattle.im_sqlmodel.specs.Tables.{IsTable};
ghost use Rattle.im_sqlmodel.specs.Writes as rules;
ghost use Rattle.im_sqlmodel.specs.declared.answers.SqlOut.TheVariants as out;
ghost use Rattle.im_sql.specs.Writing.{MayBePlaced, AreFine, Answers};

use crate::writes::Writes;
use im_catalog::keys::{index_key, mark_key};
use im_draft::drafts::{Attrs, Draft};
use im_draft::preconditions::{Pre, Pres};
use im_draft::refusals::PrepareError;
use im_model::limits::MOST_ENTRIES;
use im_octet::octets::Octets;
use im_sqlmodel::answers::{SqlError, SqlOut};
use im_sqlmodel::tables::{SqlIndex, Table};
use im_sqlmodel::written::Written;
use im_tx::prepare::prepare;
use std::alloc::{AllocError, Global};

// The entry that is asked for: of a deleted key with the attribute and an empty value.
fn draft_written(alloc: Global, written: Written) -> Draft
    ensures { result ≡ spec.draft_written written }
{
    let Written { key, value } = written;
    match value {
        Some(value) => Draft {
            attrs: Attrs {
                deleted: false,
                non_indexable: false,
            },
            key,
            value,
        },
        None => Draft {
            attrs: Attrs {
                deleted: true,
                non_indexable: false,
            },
            key,
            value: Octets::new(alloc),
        },
    }
}

fn drafts_of(alloc: Global, written: Vec<Written>) -> Result<Vec<Draft>, AllocError>
    ensures { IfOk result (λ drafts. drafts.items ≡ map spec.draft_written written.items) }
{
    let mut drafts = Vec::with_capacity(alloc, written.len())?;
    for one in written {
        drafts.push(draft_written(alloc, one))?;
    }
    Ok(drafts)
}

// That none of these keys has a version behind transaction n.
fn pres_of(alloc: Global, n: u64, keys: Vec<Octets>) -> Result<Pres, AllocError>
    ensures { IfOk result (λ pres. pres ≡ map (λ key. Since key n) keys.items) }
{
    let mut pres = Vec::with_capacity(alloc, keys.len())?;
    for key in keys {
        pres.push(Pre::Since { key, n })?;
    }
    Ok(Pres::from_vec(pres))
}

/// Two keys. Its only error is want of memory.
pub(crate) fn two_keys(
    alloc: Global,
    first: Octets,
    second: Octets,
) -> Result<Vec<Octets>, AllocError>
    ensures { IfOk result (λ keys. keys.items ≡ first ∷ second ∷ []) }
{
    Ok(vec![in alloc; first, second]?)
}

/// What is written asked for, under the preconditions that none of these keys has a version behind transaction `n`. Its
/// only error is want of memory.
pub(crate) fn ask_since(
    alloc: Global,
    n: u64,
    written: Vec<Written>,
    keys: Vec<Octets>,
) -> Result<SqlOut, SqlError>
    requires { MayBePlaced written.items }
    ensures { Answers result (Ok (out.Write (spec.asked_since n written.items keys.items))) }
{
    let drafts = drafts_of(alloc, written)?;
    let pres = pres_of(alloc, n, keys)?;
    match prepare(alloc, drafts, pres) {
        Ok(prepared) => Ok(SqlOut::Write(prepared)),
        Err(PrepareError::Memory) => Err(SqlError::Memory),
        Err(_) => unreachable!(),
    }
}

/// What is placed of what a statement writes: with the mark of the table, under the preconditions on the table's next
/// index, on each row's key and on each key of a unique index, written or deleted.
///
/// # Errors
///
/// `TooMany` where there are more than 1024 entries, with the mark. `Memory` where memory runs out.
pub(crate) fn placed(
    alloc: Global,
    n: u64,
    table: &Table,
    indexes: &[SqlIndex],
    writes: Writes,
) -> Result<SqlOut, SqlError>
    requires table { IsTable table.now }
    requires few { length indexes.now < 2 ^ 32 - 1 }
    requires fine { AreFine writes }
    ensures { Answers result (rules.placed n table.now indexes.now writes) }
{
    let mut writes = writes;
    writes.put(Written {
        key: mark_key(alloc, table.tid)?,
        value: Some(Octets::new(alloc)),
    })?;
    let written = writes.into_list(alloc)?;
    if (MOST_ENTRIES as usize) < written.len() {
        let entries = written.len() as u64;
        drop(written);
        return Err(SqlError::TooMany { entries });
    }
    let next = index_key(alloc, table.tid, indexes.len() as u32 + 1)?;
    let keys = guarded(alloc, next, written.as_slice())?;
    ask_since(alloc, n, written, keys)
}

// Whether a key is a row's, or a unique index's.
fn is_guarded(key: &[u8]) -> bool
    ensures { result ≡ rules.is_guarded key.now }
{
    key.starts_with(&[0, 4]) || key.starts_with(&[0, 6])
}

// Adds the key of one that is written, where it is guarded.
fn push_guarded(alloc: Global, keys: &mut Vec<Octets>, one: &Written) -> Result<(), AllocError>
    ensures { OnOk result (keys.new.items ≡ keys.old.items ++ filter rules.is_guarded (one.now.key ∷ [])) }
{
    if is_guarded(one.key.as_slice()) {
        let key = Octets::from_slice(alloc, one.key.as_slice())?;
        keys.push(key)?;
    }
    Ok(())
}

// The key of the next index, and those of what is written that are guarded.
fn guarded(alloc: Global, next: Octets, written: &[Written]) -> Result<Vec<Octets>, AllocError>
    ensures { IfOk result (λ keys. keys.items ≡ next ∷ filter rules.is_guarded (map (λ w. w.key) written.now)) }
{
    let mut keys = vec![in alloc; next]?;
    for one in written {
        push_guarded(alloc, &mut keys, one)?;
    }
    Ok(keys)
}
