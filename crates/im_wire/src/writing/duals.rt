ghost use Rattle.std.specs.Prelude.{◌≡◌, ◌++◌, OnOk};
ghost use Rattle.im_wire.specs.Texts.{advance_proof_data, dual_proof_data, anchor_data};
ghost use Rattle.im_wire.specs.Tokens.{tokens_of, field_tokens, dual_front_tokens, dual_middle_tokens, dual_back_tokens};

use crate::writing::fields::{put_digest_field, put_digest_lists_field, put_digests_field};
use crate::writing::records::put_header_field;
use im_proof::proofs::{AdvanceProof, DualProof};
use json::Writer;
use std::alloc::{AllocError, Global};

// Adds a linear advance.
fn put_advance_proof(out: &mut Writer, advance: &AdvanceProof) -> Result<(), AllocError>
    ensures ok { OnOk result (out.new.tokens ≡ out.old.tokens ++ tokens_of (advance_proof_data advance.now)) }
    ensures before { out.new.before ≡ out.old.before }
{
    out.begin_object()?;
    put_digest_lists_field(out, "inclusions", &advance.inclusions)?;
    put_digests_field(out, "terms", &advance.terms)?;
    out.end_object()
}

// Adds a member that is a linear advance.
#[tactic(auto, unfolding(crate::specs::Tokens::field_tokens))]
pub(crate) fn put_advance_proof_field(
    out: &mut Writer,
    name: &str,
    advance: &AdvanceProof,
) -> Result<(), AllocError>
    ensures ok { OnOk result (out.new.tokens ≡ out.old.tokens ++ field_tokens name.now (advance_proof_data advance.now)) }
    ensures before { out.new.before ≡ out.old.before }
{
    out.key(name)?;
    put_advance_proof(out, advance)
}

// Adds the first three members of a dual proof.
#[tactic(auto, unfolding(crate::specs::Tokens::dual_front_tokens))]
fn put_dual_front(out: &mut Writer, dual: &DualProof) -> Result<(), AllocError>
    ensures ok { OnOk result (out.new.tokens ≡ out.old.tokens ++ dual_front_tokens dual.now) }
    ensures before { out.new.before ≡ out.old.before }
{
    put_digests_field(out, "consistency", &dual.consistency)?;
    put_digests_field(out, "inclusion", &dual.inclusion)?;
    put_digests_field(out, "lastInclusion", &dual.last_inclusion)
}

// Adds the next two members.
#[tactic(auto, unfolding(crate::specs::Tokens::dual_middle_tokens))]
fn put_dual_middle(out: &mut Writer, dual: &DualProof) -> Result<(), AllocError>
    ensures ok { OnOk result (out.new.tokens ≡ out.old.tokens ++ dual_middle_tokens dual.now) }
    ensures before { out.new.before ≡ out.old.before }
{
    put_digests_field(out, "linear", &dual.linear)?;
    put_advance_proof_field(out, "linearAdvance", &dual.linear_advance)
}

// Adds the last three members.
#[tactic(auto, unfolding(crate::specs::Tokens::dual_back_tokens))]
fn put_dual_back(alloc: Global, out: &mut Writer, dual: &DualProof) -> Result<(), AllocError>
    ensures ok { OnOk result (out.new.tokens ≡ out.old.tokens ++ dual_back_tokens dual.now) }
    ensures before { out.new.before ≡ out.old.before }
{
    put_header_field(alloc, out, "source", &dual.source)?;
    put_header_field(alloc, out, "target", &dual.target)?;
    put_digest_field(out, "targetBlTxAlh", &dual.target_bl_tx_alh)
}

// Adds a dual proof.
fn put_dual_proof(alloc: Global, out: &mut Writer, dual: &DualProof) -> Result<(), AllocError>
    ensures ok { OnOk result (out.new.tokens ≡ out.old.tokens ++ tokens_of (dual_proof_data dual.now)) }
    ensures before { out.new.before ≡ out.old.before }
{
    out.begin_object()?;
    put_dual_front(out, dual)?;
    put_dual_middle(out, dual)?;
    put_dual_back(alloc, out, dual)?;
    out.end_object()
}

// Adds a member that is a dual proof.
#[tactic(auto, unfolding(crate::specs::Tokens::field_tokens))]
pub(crate) fn put_dual_proof_field(
    alloc: Global,
    out: &mut Writer,
    name: &str,
    dual: &DualProof,
) -> Result<(), AllocError>
    ensures ok { OnOk result (out.new.tokens ≡ out.old.tokens ++ field_tokens name.now (dual_proof_data dual.now)) }
    ensures before { out.new.before ≡ out.old.before }
{
    out.key(name)?;
    put_dual_proof(alloc, out, dual)
}

// Adds an anchor, or null where there is none.
#[tactic(auto, unfolding(crate::specs::Tokens::tokens_of))]
fn put_anchor(alloc: Global, out: &mut Writer, anchor: &Option<DualProof>) -> Result<(), AllocError>
    ensures ok { OnOk result (out.new.tokens ≡ out.old.tokens ++ tokens_of (anchor_data anchor.now)) }
    ensures before { out.new.before ≡ out.old.before }
{
    match anchor {
        Some(dual) => put_dual_proof(alloc, out, dual),
        None => out.null(),
    }
}

// Adds a member that is an anchor or null.
#[tactic(auto, unfolding(crate::specs::Tokens::field_tokens))]
pub(crate) fn put_anchor_field(
    alloc: Global,
    out: &mut Writer,
    name: &str,
    anchor: &Option<DualProof>,
) -> Result<(), AllocError>
    ensures ok { OnOk result (out.new.tokens ≡ out.old.tokens ++ field_tokens name.now (anchor_data anchor.now)) }
    ensures before { out.new.before ≡ out.old.before }
{
    out.key(name)?;
    put_anchor(alloc, out, anchor)
}
