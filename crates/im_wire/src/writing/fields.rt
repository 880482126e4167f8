ghost use Rattle.std.specs.Prelude.{◌≡◌, ◌++◌, OnOk};
ghost use Rattle.hex.specs.Hex.{encode_lower};
ghost use Rattle.serde_json.specs.Data.{number, string};
ghost use Rattle.serde_json.specs.Find.{of_integer};
ghost use Rattle.im_wire.specs.Texts.{hex_data, number_data, digests_data, digest_lists_data};
ghost use Rattle.im_wire.specs.Tokens.{tokens_of, field_tokens};

use im_digest::D32;
use im_mtree::digests::Digests;
use im_proof::digest_lists::DigestLists;
use json::Writer;
use std::alloc::{AllocError, Global};

// Adds octets as lower-case hex.
#[tactic(auto, unfolding(crate::specs::Tokens::tokens_of))]
fn put_hex(alloc: Global, out: &mut Writer, octets: &[u8]) -> Result<(), AllocError>
    ensures ok { OnOk result (out.new.tokens ≡ out.old.tokens ++ tokens_of (hex_data octets.now)) }
    ensures before { out.new.before ≡ out.old.before }
{
    let text = hex::encode(alloc, octets)?;
    out.string(text.as_str())
}

// Adds a member of octets.
#[tactic(auto, unfolding(crate::specs::Tokens::field_tokens))]
pub(crate) fn put_hex_field(
    alloc: Global,
    out: &mut Writer,
    name: &str,
    octets: &[u8],
) -> Result<(), AllocError>
    ensures ok { OnOk result (out.new.tokens ≡ out.old.tokens ++ field_tokens name.now (hex_data octets.now)) }
    ensures before { out.new.before ≡ out.old.before }
{
    out.key(name)?;
    put_hex(alloc, out, octets)
}

// Adds a member that is a number.
#[tactic(auto, unfolding(crate::specs::Tokens::tokens_of, crate::specs::Tokens::field_tokens))]
pub(crate) fn put_number_field(out: &mut Writer, name: &str, number: u64) -> Result<(), AllocError>
    ensures ok { OnOk result (out.new.tokens ≡ out.old.tokens ++ field_tokens name.now (number_data number)) }
    ensures before { out.new.before ≡ out.old.before }
{
    out.key(name)?;
    out.u64(number)
}

// Adds a member that is a number with a sign.
#[tactic(auto, unfolding(crate::specs::Tokens::tokens_of, crate::specs::Tokens::field_tokens))]
pub(crate) fn put_signed_field(out: &mut Writer, name: &str, count: i64) -> Result<(), AllocError>
    ensures ok { OnOk result (out.new.tokens ≡ out.old.tokens ++ field_tokens name.now (number (of_integer count))) }
    ensures before { out.new.before ≡ out.old.before }
{
    out.key(name)?;
    out.i64(count)
}

// Adds a member that is a text.
#[tactic(auto, unfolding(crate::specs::Tokens::tokens_of, crate::specs::Tokens::field_tokens))]
pub(crate) fn put_text_field(out: &mut Writer, name: &str, text: &str) -> Result<(), AllocError>
    ensures ok { OnOk result (out.new.tokens ≡ out.old.tokens ++ field_tokens name.now (string text.now)) }
    ensures before { out.new.before ≡ out.old.before }
{
    out.key(name)?;
    out.string(text)
}

// The digits of a digest in lower-case hex.
fn digits_of(digest: &D32) -> [u8; 64]
    ensures { result ≡ encode_lower digest.now }
{
    let mut digits = [0u8; 64];
    match hex::encode_to_slice(digest.as_slice(), &mut digits) {
        Ok(()) => digits,
        Err(_) => unreachable!(),
    }
}

// Adds a digest as lower-case hex. It takes no memory but what the writer has.
#[tactic(auto, unfolding(crate::specs::Tokens::tokens_of))]
fn put_digest(out: &mut Writer, digest: &D32) -> Result<(), AllocError>
    ensures ok { OnOk result (out.new.tokens ≡ out.old.tokens ++ tokens_of (hex_data digest.now)) }
    ensures before { out.new.before ≡ out.old.before }
{
    let digits = digits_of(digest);
    match str::from_utf8(&digits) {
        Ok(text) => out.string(text),
        Err(_) => unreachable!(),
    }
}

// Adds a member that is a digest.
#[tactic(auto, unfolding(crate::specs::Tokens::field_tokens))]
pub(crate) fn put_digest_field(out: &mut Writer, name: &str, digest: &D32) -> Result<(), AllocError>
    ensures ok { OnOk result (out.new.tokens ≡ out.old.tokens ++ field_tokens name.now (hex_data digest.now)) }
    ensures before { out.new.before ≡ out.old.before }
{
    out.key(name)?;
    put_digest(out, digest)
}

// Adds an array of digests.
#[tactic(auto, unfolding(crate::specs::Tokens::tokens_of, crate::specs::Tokens::tail_tokens, crate::specs::Texts::digests_data))]
fn put_digests(out: &mut Writer, digests: &[D32]) -> Result<(), AllocError>
    ensures ok { OnOk result (out.new.tokens ≡ out.old.tokens ++ tokens_of (digests_data digests.now)) }
    ensures before { out.new.before ≡ out.old.before }
{
    out.begin_array()?;
    for digest in digests {
        put_digest(out, digest)?;
    }
    out.end_array()
}

// Adds a member that is an array of digests.
#[tactic(auto, unfolding(crate::specs::Tokens::field_tokens))]
pub(crate) fn put_digests_field(
    out: &mut Writer,
    name: &str,
    digests: &Digests,
) -> Result<(), AllocError>
    ensures ok { OnOk result (out.new.tokens ≡ out.old.tokens ++ field_tokens name.now (digests_data digests.now)) }
    ensures before { out.new.before ≡ out.old.before }
{
    out.key(name)?;
    put_digests(out, digests.as_slice())
}

// Adds an array of arrays of digests.
#[tactic(auto, unfolding(crate::specs::Tokens::tokens_of, crate::specs::Tokens::tail_tokens, crate::specs::Texts::digest_lists_data))]
fn put_digest_lists(out: &mut Writer, lists: &[Digests]) -> Result<(), AllocError>
    ensures ok { OnOk result (out.new.tokens ≡ out.old.tokens ++ tokens_of (digest_lists_data lists.now)) }
    ensures before { out.new.before ≡ out.old.before }
{
    out.begin_array()?;
    for digests in lists {
        put_digests(out, digests.as_slice())?;
    }
    out.end_array()
}

// Adds a member that is an array of arrays of digests.
#[tactic(auto, unfolding(crate::specs::Tokens::field_tokens))]
pub(crate) fn put_digest_lists_field(
    out: &mut Writer,
    name: &str,
    lists: &DigestLists,
) -> Result<(), AllocError>
    ensures ok { OnOk result (out.new.tokens ≡ out.old.tokens ++ field_tokens name.now (digest_lists_data lists.now)) }
    ensures before { out.new.before ≡ out.old.before }
{
    out.key(name)?;
    put_digest_lists(out, lists.as_slice())
}
