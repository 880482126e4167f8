ghost use Rattle.std.specs.Prelude.{◌≡◌, ◌∷◌, ◌++◌, bytes_eq, IfSome, option_copied, option_map};
ghost use Rattle.im_mtree.specs.Checks.{first_fail};
ghost use Rattle.im_mtree.specs.PathChecks.{path_checks};
ghost use Rattle.im_model.specs.Entries.{entry_digest};
ghost use Rattle.im_model.specs.Headers.{alh};
ghost use Rattle.im_proof.specs.HeaderChecks.{header_checks};
ghost use Rattle.im_proof.specs.Duals.{as_faults, dual_checks};
ghost use Rattle.im_client.specs.LineChecks.{same_state_checks, state_checks, dual_line_checks, is_anchored, anchor_ends_checks, anchor_checks, advance_line_checks, line_checks};
ghost use Rattle.im_client.specs.declared.faults.LineFault.TheVariants.{State, Dual, Anchor, AnchorTargetAlh, Path};

use crate::faults::LineFault;
use im_digest::{D32, Hash32};
use im_dual::check::check_known as check_dual_proof;
use im_dual::headers::check_header;
use im_entry::digests::digest;
use im_header::alh;
use im_model::entries::Entry;
use im_model::headers::Header;
use im_mtree::paths::check_path;
use im_proof::proofs::DualProof;
use im_wire::messages::Message;

/// The header that a client keeps as its state, and its Alh.
#[derive(Clone, Copy)]
pub struct KnownHeader<'k> {
    /// The header.
    pub header: &'k Header,
    /// Its Alh under the client's hash function.
    pub alh: D32,
}

/// Whether a message passes every check under the kept state. Without a kept state only a state does. It takes no
/// memory. It hashes each header once, the kept one too, each term of a list at most twice, a leaf for each path, and
/// an item's entry once.
///
/// # Errors
///
/// The first check that fails, with what was wanted and what was found.
pub fn check_message<H: Hash32>(
    hash: &H,
    kept: Option<&Header>,
    message: &Message,
) -> Result<(), LineFault>
    ensures { result ≡ first_fail (line_checks (H.digest hash.now) (option_copied kept.entry) message.now) }
{
    let Some(header) = kept else {
        return check_known(hash, None, message);
    };
    let alh = alh(hash, header);
    check_known(hash, Some(KnownHeader { header, alh }), message)
}

/// The same where the Alh of the kept state is known, and not hashed again: what a client that keeps it beside the header
/// stands on.
///
/// # Errors
///
/// The first check that fails, with what was wanted and what was found.
pub fn check_known<H: Hash32>(
    hash: &H,
    kept: Option<KnownHeader<'_>>,
    message: &Message,
) -> Result<(), LineFault>
    requires { IfSome kept (λ known. known.alh ≡ alh (H.digest hash.now) known.header.now) }
    ensures { result ≡ first_fail (line_checks (H.digest hash.now) (option_map (λ known. known.header.now) kept.entry) message.now) }
{
    match message {
        Message::State { header } => check_state(hash, kept, header),
        Message::Dual { dual } => match kept {
            Some(kept) => check_dual_line(hash, kept, dual),
            None => Err(LineFault::NoState),
        },
        Message::Advance { dual, anchor } => match kept {
            Some(kept) => check_advance_line(hash, kept, dual, anchor.as_ref()),
            None => Err(LineFault::NoState),
        },
        Message::Item {
            dual,
            entry,
            index,
            path,
        } => match kept {
            Some(kept) => check_item_line(hash, kept, dual, entry, *index, path.as_slice()),
            None => Err(LineFault::NoState),
        },
    }
}

// Whether a state is well formed, and the kept one where one is kept.
#[tactic(auto, using(im_mtree::proofs::CheckLemmas::fail_both, im_mtree::proofs::CheckLemmas::fail_append))]
fn check_state<H: Hash32>(
    hash: &H,
    kept: Option<KnownHeader<'_>>,
    header: &Header,
) -> Result<(), LineFault>
    requires { IfSome kept (λ known. known.alh ≡ alh (H.digest hash.now) known.header.now) }
    ensures { result ≡ first_fail (state_checks (H.digest hash.now) (option_map (λ known. known.header.now) kept.entry) header.now) }
{
    check_state_header(header)?;
    check_same_state(hash, kept, header)
}

// Whether a state's header is one that this store makes.
fn check_state_header(header: &Header) -> Result<(), LineFault>
    ensures { result ≡ first_fail (as_faults State (header_checks header.now)) }
{
    check_header(header).map_err(|fault| LineFault::State { fault })
}

// Whether a state is the kept one, where one is kept.
fn check_same_state<H: Hash32>(
    hash: &H,
    kept: Option<KnownHeader<'_>>,
    header: &Header,
) -> Result<(), LineFault>
    requires { IfSome kept (λ known. known.alh ≡ alh (H.digest hash.now) known.header.now) }
    ensures { result ≡ first_fail (same_state_checks (H.digest hash.now) (option_map (λ known. known.header.now) kept.entry) header.now) }
{
    let Some(kept) = kept else {
        return Ok(());
    };
    if header.id != kept.header.id {
        return Err(LineFault::StateId {
            want: kept.header.id,
            got: header.id,
        });
    }
    let want = kept.alh;
    let got = alh(hash, header);
    if got != want {
        return Err(LineFault::StateAlh { want, got });
    }
    Ok(())
}

// Whether a dual proof leads to the kept state.
fn check_dual_line<H: Hash32>(
    hash: &H,
    kept: KnownHeader<'_>,
    dual: &DualProof,
) -> Result<(), LineFault>
    requires { kept.alh ≡ alh (H.digest hash.now) kept.header.now }
    ensures { result ≡ first_fail (dual_line_checks (H.digest hash.now) kept.entry.header.now dual.now) }
{
    if dual.target.id != kept.header.id {
        return Err(LineFault::TargetId {
            want: kept.header.id,
            got: dual.target.id,
        });
    }
    let want = kept.alh;
    let got = alh(hash, &dual.target);
    if got != want {
        return Err(LineFault::TargetAlh { want, got });
    }
    let source_alh = alh(hash, &dual.source);
    check_dual(hash, dual, &source_alh, &got)
}

// Whether the dual proof of a line holds, the Alh of its headers being these.
fn check_dual<H: Hash32>(
    hash: &H,
    dual: &DualProof,
    source_alh: &D32,
    target_alh: &D32,
) -> Result<(), LineFault>
    requires source { source_alh.now ≡ alh (H.digest hash.now) dual.now.source }
    requires target { target_alh.now ≡ alh (H.digest hash.now) dual.now.target }
    ensures { result ≡ first_fail (as_faults Dual (dual_checks (H.digest hash.now) dual.now)) }
{
    match check_dual_proof(hash, dual, source_alh, target_alh) {
        Ok(()) => Ok(()),
        Err(fault) => Err(LineFault::Dual { fault }),
    }
}

// Whether an advance leads from the kept state on.
fn check_advance_line<H: Hash32>(
    hash: &H,
    kept: KnownHeader<'_>,
    dual: &DualProof,
    anchor: Option<&DualProof>,
) -> Result<(), LineFault>
    requires { kept.alh ≡ alh (H.digest hash.now) kept.header.now }
    ensures { result ≡ first_fail (advance_line_checks (H.digest hash.now) kept.entry.header.now dual.now (option_copied anchor.entry)) }
{
    if dual.source.id != kept.header.id {
        return Err(LineFault::SourceId {
            want: kept.header.id,
            got: dual.source.id,
        });
    }
    let want = kept.alh;
    let got = alh(hash, &dual.source);
    if got != want {
        return Err(LineFault::SourceAlh { want, got });
    }
    check_anchored(hash, dual, &got, anchor)
}

// Whether the dual proof of an advance, whose source has this Alh, holds, and its anchor is as is due.
#[tactic(auto, using(im_mtree::proofs::CheckLemmas::fail_both, im_mtree::proofs::CheckLemmas::fail_append))]
fn check_anchored<H: Hash32>(
    hash: &H,
    dual: &DualProof,
    source_alh: &D32,
    anchor: Option<&DualProof>,
) -> Result<(), LineFault>
    requires { source_alh.now ≡ alh (H.digest hash.now) dual.now.source }
    ensures { result ≡ first_fail (as_faults Dual (dual_checks (H.digest hash.now) dual.now) ++ anchor_checks (H.digest hash.now) dual.now (option_copied anchor.entry)) }
{
    let target_alh = alh(hash, &dual.target);
    check_dual(hash, dual, source_alh, &target_alh)?;
    check_anchor(hash, dual, source_alh, anchor)
}

// Whether an advance has an anchor: the target's tree ends behind the source's, and before the source.
fn is_anchored(dual: &DualProof) -> bool
    ensures { result ≡ is_anchored dual.now }
{
    dual.source.bl_tx_id < dual.target.bl_tx_id && dual.target.bl_tx_id < dual.source.id
}

// Whether the anchor of an advance, whose source has this Alh, is there exactly where it is due, and holds.
fn check_anchor<H: Hash32>(
    hash: &H,
    dual: &DualProof,
    source_alh: &D32,
    anchor: Option<&DualProof>,
) -> Result<(), LineFault>
    requires { source_alh.now ≡ alh (H.digest hash.now) dual.now.source }
    ensures { result ≡ first_fail (anchor_checks (H.digest hash.now) dual.now (option_copied anchor.entry)) }
{
    let due = is_anchored(dual);
    match anchor {
        None if due => Err(LineFault::AnchorMissing),
        None => Ok(()),
        Some(_) if !due => Err(LineFault::AnchorExtra),
        Some(anchor) => check_due_anchor(hash, dual, source_alh, anchor),
    }
}

// Whether an anchor leads from the end of the target's tree to the source, which has this Alh, and holds.
fn check_due_anchor<H: Hash32>(
    hash: &H,
    dual: &DualProof,
    source_alh: &D32,
    anchor: &DualProof,
) -> Result<(), LineFault>
    requires { source_alh.now ≡ alh (H.digest hash.now) dual.now.source }
    ensures { result ≡ first_fail (anchor_ends_checks (H.digest hash.now) dual.now anchor.now ++ as_faults Anchor (dual_checks (H.digest hash.now) anchor.now)) }
{
    if anchor.source.id != dual.target.bl_tx_id {
        return Err(LineFault::AnchorSourceId {
            want: dual.target.bl_tx_id,
            got: anchor.source.id,
        });
    }
    if anchor.target.id != dual.source.id {
        return Err(LineFault::AnchorTargetId {
            want: dual.source.id,
            got: anchor.target.id,
        });
    }
    let want = dual.target_bl_tx_alh;
    let got = alh(hash, &anchor.source);
    if got != want {
        return Err(LineFault::AnchorSourceAlh { want, got });
    }
    check_due_target(hash, source_alh, anchor, &got)
}

// Whether an anchor, whose source has the Alh `first`, leads to this Alh, and holds.
fn check_due_target<H: Hash32>(
    hash: &H,
    wanted: &D32,
    anchor: &DualProof,
    first: &D32,
) -> Result<(), LineFault>
    requires { first.now ≡ alh (H.digest hash.now) anchor.now.source }
    ensures { result ≡ first_fail ((bytes_eq (alh (H.digest hash.now) anchor.now.target) wanted.now, AnchorTargetAlh wanted.now (alh (H.digest hash.now) anchor.now.target))
        ∷ as_faults Anchor (dual_checks (H.digest hash.now) anchor.now)) }
{
    let want = *wanted;
    let got = alh(hash, &anchor.target);
    if got != want {
        return Err(LineFault::AnchorTargetAlh { want, got });
    }
    check_anchor_dual(hash, anchor, first, &got)
}

// Whether the dual proof of an anchor holds, the Alh of its headers being these.
fn check_anchor_dual<H: Hash32>(
    hash: &H,
    anchor: &DualProof,
    source_alh: &D32,
    target_alh: &D32,
) -> Result<(), LineFault>
    requires source { source_alh.now ≡ alh (H.digest hash.now) anchor.now.source }
    requires target { target_alh.now ≡ alh (H.digest hash.now) anchor.now.target }
    ensures { result ≡ first_fail (as_faults Anchor (dual_checks (H.digest hash.now) anchor.now)) }
{
    match check_dual_proof(hash, anchor, source_alh, target_alh) {
        Ok(()) => Ok(()),
        Err(fault) => Err(LineFault::Anchor { fault }),
    }
}

// Whether a dual proof leads to the kept state, and an entry is in its source's transaction.
#[tactic(auto, using(im_mtree::proofs::CheckLemmas::fail_both, im_mtree::proofs::CheckLemmas::fail_append))]
fn check_item_line<H: Hash32>(
    hash: &H,
    kept: KnownHeader<'_>,
    dual: &DualProof,
    entry: &Entry,
    index: u32,
    path: &[D32],
) -> Result<(), LineFault>
    requires { kept.alh ≡ alh (H.digest hash.now) kept.header.now }
    ensures { result ≡ first_fail (dual_line_checks (H.digest hash.now) kept.entry.header.now dual.now ++ as_faults Path (path_checks (H.digest hash.now) (entry_digest (H.digest hash.now) entry.now) index dual.now.source.nentries path.now dual.now.source.eh)) }
{
    check_dual_line(hash, kept, dual)?;
    check_entry(hash, &dual.source, entry, index, path)
}

// Whether a path leads from an entry to the root of the transaction's entries.
fn check_entry<H: Hash32>(
    hash: &H,
    source: &Header,
    entry: &Entry,
    index: u32,
    path: &[D32],
) -> Result<(), LineFault>
    ensures { result ≡ first_fail (as_faults Path (path_checks (H.digest hash.now) (entry_digest (H.digest hash.now) entry.now) index source.now.nentries path.now source.now.eh)) }
{
    let digest = digest(hash, entry);
    match check_path(hash, &digest, index, source.nentries, path, &source.eh) {
        Ok(()) => Ok(()),
        Err(fault) => Err(LineFault::Path { fault }),
    }
}
