ghost use Rattle.std.specs.Prelude.{ℕ, ◌≡◌, ◌≢◌, ◌++◌, map, take, codes, option_copied, IfOk, OnOk, OnErr};
ghost use Rattle.std.specs.Fmt.{decimal};
ghost use Rattle.im_report.specs.Reads.{history_reply, bare_or_hex, place_reply, scan_reply, scanned_text, value_reply, version_text};

use crate::decimals::push_decimal;
use im_text::words::is_bare;
use im_text::writing::push_hex;
use im_versions::refusals::PlaceError;
use im_versions::versions::Version;
use std::alloc::{AllocError, Global};

// Adds octets as they are printed.
#[tactic(auto, unfolding(crate::specs::Reads::bare_or_hex), using(im_octet::proofs::PartLemmas::part_none))]
fn push_printed(alloc: Global, out: &mut Vec<u8>, octets: &[u8]) -> Result<(), AllocError>
    ensures whole { OnOk result (out.new.items ≡ out.old.items ++ bare_or_hex octets.now) }
    ensures part { OnErr result ((n : ℕ) × (out.new.items ≡ out.old.items ++ take n (bare_or_hex octets.now))) }
{
    if is_bare(octets) {
        out.extend_from_slice(octets)
    } else {
        push_hex(alloc, out, b"0x", octets)
    }
}

/// Adds a text, and then octets as they are printed: as they are where they are a bare word, else as `0x`
/// and lower-case hex. Where memory ran out a front part of them may have been added.
#[tactic(auto, using(im_octet::proofs::PartLemmas::part_none))]
pub fn push_octets(
    alloc: Global,
    out: &mut Vec<u8>,
    text: &[u8],
    octets: &[u8],
) -> Result<(), AllocError>
    ensures whole { OnOk result (out.new.items ≡ out.old.items ++ text.now ++ bare_or_hex octets.now) }
    ensures part { OnErr result ((n : ℕ) × (out.new.items ≡ out.old.items ++ take n (text.now ++ bare_or_hex octets.now))) }
{
    out.extend_from_slice(text)?;
    push_printed(alloc, out, octets)
}

// Adds a text, octets as they are printed, a second text, and the number of the transaction that wrote the octets.
fn push_written(
    alloc: Global,
    out: &mut Vec<u8>,
    text: &[u8],
    octets: &[u8],
    mark: &[u8],
    tx: u64,
) -> Result<(), AllocError>
    ensures whole { OnOk result (out.new.items ≡ out.old.items ++ text.now ++ bare_or_hex octets.now ++ mark.now ++ decimal tx) }
    ensures part { OnErr result ((n : ℕ) × (out.new.items ≡ out.old.items ++ take n (text.now ++ bare_or_hex octets.now ++ mark.now ++ decimal tx))) }
{
    push_octets(alloc, out, text, octets)?;
    push_decimal(out, mark, tx)
}

// A text and octets.
fn with_octets(alloc: Global, text: &[u8], octets: &[u8]) -> Result<Vec<u8>, AllocError>
    ensures { IfOk result (λ out. out.items ≡ text.now ++ bare_or_hex octets.now) }
{
    let mut out = Vec::new(alloc);
    push_octets(alloc, &mut out, text, octets)?;
    Ok(out)
}

// A text, octets, and the number of the transaction that wrote them: `<text><octets> tx <m>`.
fn with_writer(alloc: Global, text: &[u8], octets: &[u8], tx: u64) -> Result<Vec<u8>, AllocError>
    ensures { IfOk result (λ out. out.items ≡ text.now ++ bare_or_hex octets.now ++ codes " tx " ++ decimal tx) }
{
    let mut out = Vec::new(alloc);
    push_written(alloc, &mut out, text, octets, b" tx ", tx)?;
    Ok(out)
}

/// The reply of a transaction that wasn't placed: `full`, `missing K`, `exists K tx <m>` or
/// `modified K tx <m>`. Want of memory has no reply, and is handed on.
#[tactic(auto, unfolding(crate::specs::Reads::place_reply))]
pub fn place_text(alloc: Global, why: &PlaceError) -> Result<Vec<u8>, AllocError>
    ensures text { IfOk result (λ text. text.items ≡ place_reply why.now) }
    ensures refused { OnOk result (why.now ≢ PlaceError.Memory) }
{
    match why {
        PlaceError::Memory => Err(AllocError),
        PlaceError::Full => Vec::from_slice(alloc, b"full"),
        PlaceError::Missing { key } => with_octets(alloc, b"missing ", key.as_slice()),
        PlaceError::Exists { key, tx } => with_writer(alloc, b"exists ", key.as_slice(), *tx),
        PlaceError::Modified { key, tx } => with_writer(alloc, b"modified ", key.as_slice(), *tx),
    }
}

/// The reply of a key's last version: `value V tx <m>`, or `absent` where there is none or it is a deletion.
#[tactic(auto, unfolding(crate::specs::Reads::value_reply))]
pub fn value_text(alloc: Global, version: Option<&Version>) -> Result<Vec<u8>, AllocError>
    ensures { IfOk result (λ text. text.items ≡ value_reply (option_copied version.entry)) }
{
    match version {
        Some(version) if !version.deleted => {
            with_writer(alloc, b"value ", version.value.as_slice(), version.tx)
        }
        _ => Vec::from_slice(alloc, b"absent"),
    }
}

// Adds a key, its value, and the number of the transaction that wrote it: ` K=V@<m>`.
fn push_pair(
    alloc: Global,
    out: &mut Vec<u8>,
    key: &[u8],
    value: &[u8],
    tx: u64,
) -> Result<(), AllocError>
    ensures whole { OnOk result (out.new.items ≡ out.old.items ++ codes " " ++ bare_or_hex key.now ++ codes "=" ++ bare_or_hex value.now ++ codes "@" ++ decimal tx) }
    ensures part { OnErr result ((n : ℕ) × (out.new.items ≡ out.old.items ++ take n (codes " " ++ bare_or_hex key.now ++ codes "=" ++ bare_or_hex value.now ++ codes "@" ++ decimal tx))) }
{
    push_octets(alloc, out, b" ", key)?;
    push_written(alloc, out, b"=", value, b"@", tx)
}

// Adds a live key of a scan: ` K=V@<m>`.
#[tactic(auto, unfolding(crate::specs::Reads::scanned_text))]
fn push_scanned(alloc: Global, out: &mut Vec<u8>, version: &Version) -> Result<(), AllocError>
    ensures whole { OnOk result (out.new.items ≡ out.old.items ++ scanned_text version.now) }
    ensures part { OnErr result ((n : ℕ) × (out.new.items ≡ out.old.items ++ take n (scanned_text version.now))) }
{
    let key = version.key.as_slice();
    let value = version.value.as_slice();
    push_pair(alloc, out, key, value, version.tx)
}

/// The reply of live keys, each as its last version: `scan <count>` and ` K=V@<m>` for each, in their order.
#[tactic(auto, unfolding(crate::specs::Reads::scan_reply))]
pub fn scan_text(alloc: Global, shown: &[&Version]) -> Result<Vec<u8>, AllocError>
    ensures { IfOk result (λ text. text.items ≡ scan_reply (map (λ v. v.now) shown.now)) }
{
    let mut out = Vec::new(alloc);
    push_decimal(&mut out, b"scan ", shown.len() as u64)?;
    for version in shown {
        push_scanned(alloc, &mut out, version)?;
    }
    Ok(out)
}

// Adds a version of a history: ` V@<m>`, or ` !@<m>` for a deletion.
#[tactic(auto, unfolding(crate::specs::Reads::version_text))]
fn push_version(alloc: Global, out: &mut Vec<u8>, version: &Version) -> Result<(), AllocError>
    ensures whole { OnOk result (out.new.items ≡ out.old.items ++ version_text version.now) }
    ensures part { OnErr result ((n : ℕ) × (out.new.items ≡ out.old.items ++ take n (version_text version.now))) }
{
    if version.deleted {
        push_decimal(out, b" !@", version.tx)
    } else {
        push_written(alloc, out, b" ", version.value.as_slice(), b"@", version.tx)
    }
}

/// The reply of a key's versions, oldest first: `history <count>` and ` V@<m>` for each, or ` !@<m>` for a
/// deletion.
#[tactic(auto, unfolding(crate::specs::Reads::history_reply))]
pub fn history_text(alloc: Global, versions: &[Version]) -> Result<Vec<u8>, AllocError>
    ensures { IfOk result (λ text. text.items ≡ history_reply versions.now) }
{
    let mut out = Vec::new(alloc);
    push_decimal(&mut out, b"history ", versions.len() as u64)?;
    for version in versions {
        push_version(alloc, &mut out, version)?;
    }
    Ok(out)
}
