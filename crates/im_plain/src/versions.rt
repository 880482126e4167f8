//! The plain program: versions and refusals read off the list of a history's transactions, afresh at each
//! call. Each takes a step for each entry of the history, `scan` so many for each version, and
//! `place_refusal` so many for each precondition.

ghost use Rattle.std.specs.Prelude.{◌≡◌, ◌≤◌, ◌<◌, ◌++◌, ℕ, not, All, AllPairs, IfOk, OnOk, IsTrue, ◌⊎◌, ◌&&◌, IsNone, IfSome, nat_le, length, slice_index_or, if◌then◌else◌};
ghost use Rattle.std.specs.List.{IsAmong};
ghost use Rattle.im_versions.specs.Versions.{all_versions, versions_of, last_version, is_live, is_written, version_number, last_number, begins_with, IsBelow, IsScan};
ghost use Rattle.im_versions.specs.declared.versions.Version.{Version as TheVersion};
ghost use Rattle.im_versions.specs.Admits.{holds, refusal_of, first_refusal, place_refusal};

use crate::entries::versions_in;
use im_draft::preconditions::Pre;
use im_model::limits::MOST_TRANSACTIONS;
use im_model::transactions::Transaction;
use im_octet::octets::Octets;
use im_versions::refusals::PlaceError;
use im_versions::versions::{Version, Versions};
use std::alloc::{AllocError, Global};
use std::cmp::Ordering;

// The versions of a history, oldest first.
fn all_versions(alloc: Global, history: &[Transaction]) -> Result<Vec<Version>, AllocError>
    ensures { IfOk result (λ versions. versions.items ≡ all_versions history.now) }
{
    let mut versions = Vec::new(alloc);
    for (i, tx) in history.iter().enumerate() {
        let mut added = versions_in(alloc, i as u64 + 1, tx.entries.as_slice())?;
        versions.append(&mut added)?;
    }
    Ok(versions)
}

/// The versions of a key, oldest first, by a look at each entry of the history. Its only error is want of
/// memory.
pub fn versions_of(
    alloc: Global,
    history: &[Transaction],
    key: &[u8],
) -> Result<Versions, AllocError>
    ensures { IfOk result (λ versions. versions ≡ versions_of history.now key.now) }
{
    let all = all_versions(alloc, history)?;
    let versions = all
        .into_iter()
        .filter(|version| version.key.as_slice() == key)
        .collect(alloc)?;
    Ok(Versions::from_vec(versions))
}

/// The last version of a key, a deletion too, or none, by a look at each entry of the history. Its only error
/// is want of memory.
pub fn last_version(
    alloc: Global,
    history: &[Transaction],
    key: &[u8],
) -> Result<Option<Version>, AllocError>
    ensures { IfOk result (λ version. version ≡ last_version history.now key.now) }
{
    let mut versions = versions_of(alloc, history, key)?.into_vec();
    Ok(versions.pop())
}

// Whether there is a version, and it isn't a deletion.
fn is_written(version: &Option<Version>) -> bool
    ensures { result ≡ is_written version.now }
{
    matches!(version, Some(version) if !version.deleted)
}

// The number of a version, 0 where there is none.
fn version_number(version: &Option<Version>) -> u64
    ensures { result ≡ version_number version.now }
{
    match version {
        Some(version) => version.tx,
        None => 0,
    }
}

// What is shown of a key: its last version, where it is live and begins with the prefix.
fn shown_of(
    alloc: Global,
    history: &[Transaction],
    prefix: &[u8],
    key: &[u8],
) -> Result<Option<Version>, AllocError>
    ensures { IfOk result (λ shown. shown ≡ (if begins_with prefix.now key.now && is_live history.now key.now then last_version history.now key.now else None)) }
{
    if !key.starts_with(prefix) {
        return Ok(None);
    }
    let last = last_version(alloc, history, key)?;
    Ok(if is_written(&last) { last } else { None })
}

// The place of a key among those of versions with rising keys: how many are below it, or none where it is
// there.
fn place_of(shown: &[Version], key: &[u8]) -> Option<usize>
    ensures there { IsNone result → (v : TheVersion) × IsAmong shown.now v × (v.key ≡ key.now) }
    ensures within { IfSome result (λ place. place ≤ length shown.now) }
    ensures below { IfSome result (λ place. (k : ℕ) (d : TheVersion) → k < place → IsBelow (slice_index_or shown.now k d).key key.now) }
    ensures above { IfSome result (λ place. (d : TheVersion) → place < length shown.now → IsBelow key.now (slice_index_or shown.now place d).key) }
{
    for (i, version) in shown.iter().enumerate() {
        match version.key.as_slice().cmp(key) {
            Ordering::Less => {}
            Ordering::Equal => return None,
            Ordering::Greater => return Some(i),
        }
    }
    Some(shown.len())
}

// Puts a version at its place among those with rising keys, unless its key is there.
fn put(shown: &mut Vec<Version>, version: Version) -> Result<(), AllocError>
    requires { AllPairs (λ a b. IsBelow a.key b.key) shown.old.items }
    ensures rising { OnOk result (AllPairs (λ a b. IsBelow a.key b.key) shown.new.items) }
    ensures only { OnOk result (All (λ v. (v ≡ version) ⊎ IsAmong shown.old.items v) shown.new.items) }
    ensures kept { OnOk result (All (IsAmong shown.new.items) shown.old.items) }
    ensures there { OnOk result ((v : TheVersion) × IsAmong shown.new.items v × (v.key ≡ version.key)) }
{
    if let Some(place) = place_of(shown.as_slice(), version.key.as_slice()) {
        shown.insert(place, version)?;
    }
    Ok(())
}

/// The live keys that begin with a prefix, each as its last version, in rising order, by a look at each entry
/// of the history for each of its versions. Its only error is want of memory.
pub fn scan(alloc: Global, history: &[Transaction], prefix: &[u8]) -> Result<Versions, AllocError>
    ensures { IfOk result (λ shown. IsScan history.now prefix.now shown) }
{
    let all = all_versions(alloc, history)?;
    let mut shown = Vec::new(alloc);
    for version in &all {
        if let Some(last) = shown_of(alloc, history, prefix, version.key.as_slice())? {
            put(&mut shown, last)?;
        }
    }
    Ok(Versions::from_vec(shown))
}

// Why the precondition doesn't hold, or none where it does.
fn refusal_by(
    alloc: Global,
    history: &[Transaction],
    pre: &Pre,
) -> Result<Option<PlaceError>, AllocError>
    ensures { IfOk result (λ refusal. refusal ≡ (if holds history.now pre.now then None else Some (refusal_of history.now pre.now))) }
{
    match pre {
        Pre::Exists { key } => missing(alloc, history, key.as_slice()),
        Pre::Missing { key } => existing(alloc, history, key.as_slice()),
        Pre::Since { key, n } => modified(alloc, history, key.as_slice(), *n),
    }
}

// Refuses a key that isn't live.
fn missing(
    alloc: Global,
    history: &[Transaction],
    key: &[u8],
) -> Result<Option<PlaceError>, AllocError>
    ensures { IfOk result (λ refusal. refusal ≡ (if is_live history.now key.now then None else Some (PlaceError.Missing key.now))) }
{
    if is_written(&last_version(alloc, history, key)?) {
        return Ok(None);
    }
    let key = Octets::from_slice(alloc, key)?;
    Ok(Some(PlaceError::Missing { key }))
}

// Refuses a key that is live, with the number of its last version.
fn existing(
    alloc: Global,
    history: &[Transaction],
    key: &[u8],
) -> Result<Option<PlaceError>, AllocError>
    ensures { IfOk result (λ refusal. refusal ≡ (if not (is_live history.now key.now) then None else Some (PlaceError.Exists key.now (last_number history.now key.now)))) }
{
    let last = last_version(alloc, history, key)?;
    if !is_written(&last) {
        return Ok(None);
    }
    let key = Octets::from_slice(alloc, key)?;
    let tx = version_number(&last);
    Ok(Some(PlaceError::Exists { key, tx }))
}

// Refuses a key whose last version is after transaction `n`, with the number of that version.
fn modified(
    alloc: Global,
    history: &[Transaction],
    key: &[u8],
    n: u64,
) -> Result<Option<PlaceError>, AllocError>
    ensures { IfOk result (λ refusal. refusal ≡ (if nat_le (last_number history.now key.now) n then None else Some (PlaceError.Modified key.now (last_number history.now key.now)))) }
{
    let tx = version_number(&last_version(alloc, history, key)?);
    if tx <= n {
        return Ok(None);
    }
    let key = Octets::from_slice(alloc, key)?;
    Ok(Some(PlaceError::Modified { key, tx }))
}

// The refusal of the first precondition that doesn't hold, or none where each holds.
fn first_refusal(
    alloc: Global,
    history: &[Transaction],
    pres: &[Pre],
) -> Result<Option<PlaceError>, AllocError>
    ensures { IfOk result (λ refusal. refusal ≡ first_refusal history.now pres.now) }
{
    for pre in pres {
        if let Some(refusal) = refusal_by(alloc, history, pre)? {
            return Ok(Some(refusal));
        }
    }
    Ok(None)
}

/// Why no transaction is placed behind these under these preconditions, or none where it is, by a look at
/// each entry of the history for each precondition. Its only error is want of memory.
pub fn place_refusal(
    alloc: Global,
    history: &[Transaction],
    pres: &[Pre],
) -> Result<Option<PlaceError>, AllocError>
    ensures { IfOk result (λ refusal. refusal ≡ place_refusal history.now pres.now) }
{
    if history.len() >= MOST_TRANSACTIONS as usize {
        return Ok(Some(PlaceError::Full));
    }
    first_refusal(alloc, history, pres)
}
