ghost use Rattle.std.specs.Prelude.{◌≡◌, ◌++◌, List, codes, IfOk};
ghost use Rattle.im_text.specs.Finds.{Finds};
ghost use Rattle.im_draft.specs.declared.drafts.Draft.{Draft};
ghost use Rattle.im_draft.specs.declared.preconditions.Pre.{Pre};
ghost use Rattle.im_script.specs.Script.{AreAsked, AreFields, IsPre};

use crate::fields::first_field;
use im_draft::preconditions::Pre;
use im_text::cuts::{after, cut};
use im_text::numbers::read_number;
use im_text::octets::read_octets;
use std::alloc::{AllocError, Global};

// The precondition whose key stands behind `exists:`.
fn read_exists(alloc: Global, word: &[u8]) -> Result<Option<Pre>, AllocError>
    ensures { IfOk result (λ pre. Finds pre (IsPre (codes "exists:" ++ word.now))) }
{
    let Some(key) = read_octets(alloc, word)? else {
        return Ok(None);
    };
    Ok(Some(Pre::Exists { key }))
}

// The precondition whose key stands behind `missing:`.
fn read_missing(alloc: Global, word: &[u8]) -> Result<Option<Pre>, AllocError>
    ensures { IfOk result (λ pre. Finds pre (IsPre (codes "missing:" ++ word.now))) }
{
    let Some(key) = read_octets(alloc, word)? else {
        return Ok(None);
    };
    Ok(Some(Pre::Missing { key }))
}

// The precondition whose key and number stand behind `since:`.
fn read_since(alloc: Global, text: &[u8]) -> Result<Option<Pre>, AllocError>
    ensures { IfOk result (λ pre. Finds pre (IsPre (codes "since:" ++ text.now))) }
{
    let Some((word, digits)) = cut(text, b'@') else {
        return Ok(None);
    };
    let Some(n) = read_number(digits) else {
        return Ok(None);
    };
    let Some(key) = read_octets(alloc, word)? else {
        return Ok(None);
    };
    Ok(Some(Pre::Since { key, n }))
}

// The precondition that a field says.
pub(crate) fn read_pre(alloc: Global, text: &[u8]) -> Result<Option<Pre>, AllocError>
    ensures { IfOk result (λ pre. Finds pre (IsPre text.now)) }
{
    if let Some(word) = after(text, b"exists:") {
        return read_exists(alloc, word);
    }
    if let Some(word) = after(text, b"missing:") {
        return read_missing(alloc, word);
    }
    match after(text, b"since:") {
        Some(rest) => read_since(alloc, rest),
        None => Ok(None),
    }
}

// The preconditions in front, each behind one space, and what is left behind the last of them.
pub(crate) fn read_pres(alloc: Global, text: &[u8]) -> Result<(Vec<Pre>, &[u8]), AllocError>
    ensures asked { IfOk result (λ r. (drafts : List Draft) → AreFields r.1.now drafts → AreAsked text.now r.0.items drafts) }
    ensures only { IfOk result (λ r. (pres : List Pre) (drafts : List Draft) → AreAsked text.now pres drafts → (pres ≡ r.0.items) × AreFields r.1.now drafts) }
{
    let mut pres = Vec::new(alloc);
    let mut rest = text;
    while let Some(fields) = after(rest, b" ") {
        let (field, behind) = first_field(fields);
        let Some(pre) = read_pre(alloc, field)? else {
            break;
        };
        pres.push(pre).map_err(AllocError::from)?;
        rest = behind;
    }
    Ok((pres, rest))
}
