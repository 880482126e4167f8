ghost use Rattle.std.specs.Prelude.{◌≡◌, ◌≢◌, ◌++◌, IfOk, OnOk, codes};
ghost use Rattle.std.specs.Fmt.{decimal};
ghost use Rattle.im_digest.specs.Digests.{Hash};
ghost use Rattle.im_model.specs.Headers.{alh};
ghost use Rattle.im_report.specs.Replies.{beyond_reply, no_entry_reply, order_reply, refused_reply, reserved_reply, shown_header, tx_reply};
ghost use Rattle.im_report.specs.Report.{reply_line};

use im_digest::D32;
use im_draft::refusals::PrepareError;
use im_model::headers::Header;
use im_text::writing::{push_hex, push_number};
use im_wire::writing::header_json;
use std::alloc::{AllocError, Global};

// A text and a number.
fn with_number(alloc: Global, text: &[u8], n: u64) -> Result<Vec<u8>, AllocError>
    ensures { IfOk result (λ out. out.items ≡ text.now ++ decimal n) }
{
    let mut out = Vec::new(alloc);
    push_number(alloc, &mut out, text, n)?;
    Ok(out)
}

// A text and two numbers.
fn with_numbers(alloc: Global, text: &[u8], m: u64, n: u64) -> Result<Vec<u8>, AllocError>
    ensures { IfOk result (λ out. out.items ≡ text.now ++ decimal m ++ codes " " ++ decimal n) }
{
    let mut out = Vec::new(alloc);
    push_number(alloc, &mut out, text, m)?;
    push_number(alloc, &mut out, b" ", n)?;
    Ok(out)
}

/// The reply of a transaction that was placed: `tx <id>`.
#[tactic(auto, unfolding(crate::specs::Replies::tx_reply))]
pub fn tx_text(alloc: Global, id: u64) -> Result<Vec<u8>, AllocError>
    ensures { IfOk result (λ text. text.items ≡ tx_reply id) }
{
    with_number(alloc, b"tx ", id)
}

/// The reply to two numbers of which the first is 0 or above the second: `refused order <first> <second>`.
#[tactic(auto, unfolding(crate::specs::Replies::order_reply))]
pub fn order_text(alloc: Global, first: u64, second: u64) -> Result<Vec<u8>, AllocError>
    ensures { IfOk result (λ text. text.items ≡ order_reply first second) }
{
    with_numbers(alloc, b"refused order ", first, second)
}

/// The reply to an index that is not below the number of a transaction's entries: `refused noentry <number>`.
#[tactic(auto, unfolding(crate::specs::Replies::no_entry_reply))]
pub fn no_entry_text(alloc: Global, width: u64) -> Result<Vec<u8>, AllocError>
    ensures { IfOk result (λ text. text.items ≡ no_entry_reply width) }
{
    with_number(alloc, b"refused noentry ", width)
}

/// The reply to a number above that of the last transaction: `refused beyond <n>`.
#[tactic(auto, unfolding(crate::specs::Replies::beyond_reply))]
pub fn beyond_text(alloc: Global, n: u64) -> Result<Vec<u8>, AllocError>
    ensures { IfOk result (λ text. text.items ≡ beyond_reply n) }
{
    with_number(alloc, b"refused beyond ", n)
}

/// The reply that shows a header, whose Alh this is: `header <alh> <header>`. Nothing is hashed.
#[tactic(auto, unfolding(crate::specs::Replies::shown_header))]
pub fn header_shown(alloc: Global, digest: &D32, header: &Header) -> Result<Vec<u8>, AllocError>
    ensures { (hash : Hash) → digest.now ≡ alh hash header.now → IfOk result (λ text. text.items ≡ shown_header hash header.now) }
{
    let mut out = Vec::new(alloc);
    push_hex(alloc, &mut out, b"header ", digest)?;
    out.extend_from_slice(b" ")?;
    out.extend_from_slice(header_json(alloc, header)?.as_slice())?;
    Ok(out)
}

// The most octets that a reply has beside its session and its text: two spaces, a number of 64 bits, LF.
const MOST_BESIDE: usize = 23;

/// A reply as it is written: `<session> <n> <reply>` and LF. Its memory is asked for once, but for that of the number.
#[tactic(auto, unfolding(crate::specs::Report::reply_line))]
pub fn reply_text(
    alloc: Global,
    session: &[u8],
    n: u64,
    reply: &[u8],
) -> Result<Vec<u8>, AllocError>
    ensures { IfOk result (λ text. text.items ≡ reply_line session.now n reply.now) }
{
    let room = session
        .len()
        .saturating_add(reply.len())
        .saturating_add(MOST_BESIDE);
    let mut out = Vec::with_capacity(alloc, room)?;
    out.extend_from_slice(session)?;
    push_number(alloc, &mut out, b" ", n)?;
    out.extend_from_slice(b" ")?;
    out.extend_from_slice(reply)?;
    out.extend_from_slice(b"\n")?;
    Ok(out)
}

/// The reply to a key that begins with octet 00: `refused reserved <i>`.
#[tactic(auto, unfolding(crate::specs::Replies::reserved_reply))]
pub fn reserved_text(alloc: Global, i: u64) -> Result<Vec<u8>, AllocError>
    ensures { IfOk result (λ text. text.items ≡ reserved_reply i) }
{
    with_number(alloc, b"refused reserved ", i)
}

/// The reply to drafts that are no transaction, such as `refused twice <i> <j>`. Want of memory has no
/// reply, and is handed on.
#[tactic(auto, unfolding(crate::specs::Replies::refused_reply))]
pub fn refused_text(alloc: Global, why: PrepareError) -> Result<Vec<u8>, AllocError>
    ensures text { IfOk result (λ text. text.items ≡ refused_reply why) }
    ensures refused { OnOk result (why ≢ PrepareError.Memory) }
{
    match why {
        PrepareError::Memory => Err(AllocError),
        PrepareError::NoEntries => Vec::from_slice(alloc, b"refused noentries"),
        PrepareError::TooMany { n } => with_number(alloc, b"refused toomany ", n),
        PrepareError::KeyEmpty { i } => with_number(alloc, b"refused keyempty ", u64::from(i)),
        PrepareError::KeyLong { i, len } => {
            with_numbers(alloc, b"refused keylong ", u64::from(i), len)
        }
        PrepareError::ValueLong { i, len } => {
            with_numbers(alloc, b"refused valuelong ", u64::from(i), len)
        }
        PrepareError::Twice { i, j } => {
            with_numbers(alloc, b"refused twice ", u64::from(i), u64::from(j))
        }
    }
}
