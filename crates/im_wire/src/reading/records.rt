ghost use Rattle.std.specs.Prelude.{◌≡◌, ◌^◌, Some, codes};
ghost use Rattle.serde_json.specs.View.{view};
ghost use Rattle.im_wire.specs.Gives.{GivesReading};
ghost use Rattle.im_wire.specs.Fields.{number_of, octets_of, digest_of, digests_of, field};
ghost use Rattle.im_wire.specs.Messages.{header_of_data, entry_of_data, advance_proof_of, dual_proof_of, anchor_of};

use crate::errors::WireError;
use crate::reading::fields::{
    digest_field, digest_lists_field, digests_field, i64_field, member, octets_field, u16_field,
    u32_field, u64_field,
};
use im_digest::D32;
use im_model::entries::Entry;
use im_model::headers::Header;
use im_model::limits::Metadata;
use im_mtree::digests::Digests;
use im_proof::proofs::{AdvanceProof, DualProof};
use serde_json::Value;
use std::alloc::Global;

// The members of a header that come first by their names.
#[derive(Clone, Copy)]
struct HeaderFront {
    bl_root: D32,
    bl_tx_id: u64,
    eh: D32,
}

// Those behind them.
#[derive(Drop)]
struct HeaderMiddle {
    id: u64,
    md: Metadata,
    nentries: u32,
}

// A header. Its members are read in the order of their names, three in a function.
#[tactic(auto, unfolding(crate::specs::Messages::header_of_data))]
fn header_of_data(alloc: Global, value: &Value) -> Result<Header, WireError>
    ensures { GivesReading result (header_of_data (view value.now)) }
{
    let bl_root = digest_field(value, "blRoot")?;
    let bl_tx_id = u64_field(value, "blTxId")?;
    let eh = digest_field(value, "eh")?;
    let front = HeaderFront {
        bl_root,
        bl_tx_id,
        eh,
    };
    header_from_id(alloc, value, front)
}

// A header of which the members before `id` were read.
#[tactic(auto, unfolding(crate::specs::Messages::header_of_data))]
fn header_from_id(alloc: Global, value: &Value, front: HeaderFront) -> Result<Header, WireError>
    requires bl_root { field (codes "blRoot") digest_of (view value.now) ≡ Some front.bl_root }
    requires bl_tx_id { field (codes "blTxId") (number_of (2 ^ 64)) (view value.now) ≡ Some front.bl_tx_id }
    requires eh { field (codes "eh") digest_of (view value.now) ≡ Some front.eh }
    ensures { GivesReading result (header_of_data (view value.now)) }
{
    let id = u64_field(value, "id")?;
    let md = octets_field(alloc, value, "md")?;
    let nentries = u32_field(value, "nentries")?;
    let middle = HeaderMiddle { id, md, nentries };
    header_from_prev_alh(value, front, middle)
}

// A header of which the members before `prevAlh` were read.
#[tactic(auto, unfolding(crate::specs::Messages::header_of_data))]
fn header_from_prev_alh(
    value: &Value,
    front: HeaderFront,
    middle: HeaderMiddle,
) -> Result<Header, WireError>
    requires bl_root { field (codes "blRoot") digest_of (view value.now) ≡ Some front.bl_root }
    requires bl_tx_id { field (codes "blTxId") (number_of (2 ^ 64)) (view value.now) ≡ Some front.bl_tx_id }
    requires eh { field (codes "eh") digest_of (view value.now) ≡ Some front.eh }
    requires id { field (codes "id") (number_of (2 ^ 64)) (view value.now) ≡ Some middle.id }
    requires md { field (codes "md") (octets_of 0 256) (view value.now) ≡ Some middle.md }
    requires nentries { field (codes "nentries") (number_of (2 ^ 32)) (view value.now) ≡ Some middle.nentries }
    ensures { GivesReading result (header_of_data (view value.now)) }
{
    let HeaderMiddle { id, md, nentries } = middle;
    let prev_alh = digest_field(value, "prevAlh")?;
    let ts = i64_field(value, "ts")?;
    let version = u16_field(value, "version")?;
    let bl_root = front.bl_root;
    let eh = front.eh;
    Ok(Header {
        id,
        ts,
        bl_tx_id: front.bl_tx_id,
        bl_root,
        prev_alh,
        version,
        md,
        nentries,
        eh,
    })
}

// An entry within the limits.
#[tactic(auto, unfolding(crate::specs::Messages::entry_of_data))]
fn entry_of_data(alloc: Global, value: &Value) -> Result<Entry, WireError>
    ensures { GivesReading result (entry_of_data (view value.now)) }
{
    let key = octets_field(alloc, value, "key")?;
    let md = octets_field(alloc, value, "md")?;
    let value = octets_field(alloc, value, "value")?;
    Ok(Entry { md, key, value })
}

// A linear advance.
#[tactic(auto, unfolding(crate::specs::Messages::advance_proof_of))]
fn advance_proof_of(alloc: Global, value: &Value) -> Result<AdvanceProof, WireError>
    ensures { GivesReading result (advance_proof_of (view value.now)) }
{
    let inclusions = digest_lists_field(alloc, value, "inclusions")?;
    let terms = digests_field(alloc, value, "terms")?;
    Ok(AdvanceProof { terms, inclusions })
}

// The member that is a header.
pub(crate) fn header_field(alloc: Global, value: &Value, name: &str) -> Result<Header, WireError>
    ensures { GivesReading result (field name.now header_of_data (view value.now)) }
{
    header_of_data(alloc, member(value, name)?)
}

// The member that is a linear advance.
fn advance_proof_field(alloc: Global, value: &Value, name: &str) -> Result<AdvanceProof, WireError>
    ensures { GivesReading result (field name.now advance_proof_of (view value.now)) }
{
    advance_proof_of(alloc, member(value, name)?)
}

// The lists of a dual proof that come first by their names.
#[derive(Drop)]
struct DualLists {
    consistency: Digests,
    inclusion: Digests,
    last_inclusion: Digests,
}

// What comes behind them.
#[derive(Drop)]
struct DualChain {
    linear: Digests,
    linear_advance: AdvanceProof,
}

// The headers of a dual proof.
#[derive(Drop)]
struct DualHeaders {
    source: Header,
    target: Header,
}

// A dual proof. Its members are read in the order of their names, at most three in a function.
#[tactic(auto, unfolding(crate::specs::Messages::dual_proof_of))]
fn dual_proof_of(alloc: Global, value: &Value) -> Result<DualProof, WireError>
    ensures { GivesReading result (dual_proof_of (view value.now)) }
{
    let consistency = digests_field(alloc, value, "consistency")?;
    let inclusion = digests_field(alloc, value, "inclusion")?;
    let last_inclusion = digests_field(alloc, value, "lastInclusion")?;
    let lists = DualLists {
        consistency,
        inclusion,
        last_inclusion,
    };
    dual_proof_from_linear(alloc, value, lists)
}

// A dual proof of which the members before `linear` were read.
#[tactic(auto, unfolding(crate::specs::Messages::dual_proof_of))]
fn dual_proof_from_linear(
    alloc: Global,
    value: &Value,
    lists: DualLists,
) -> Result<DualProof, WireError>
    requires consistency { field (codes "consistency") digests_of (view value.now) ≡ Some lists.consistency }
    requires inclusion { field (codes "inclusion") digests_of (view value.now) ≡ Some lists.inclusion }
    requires last_inclusion { field (codes "lastInclusion") digests_of (view value.now) ≡ Some lists.last_inclusion }
    ensures { GivesReading result (dual_proof_of (view value.now)) }
{
    let linear = match digests_field(alloc, value, "linear") {
        Ok(linear) => linear,
        Err(error) => {
            drop(lists);
            return Err(error);
        }
    };
    match advance_proof_field(alloc, value, "linearAdvance") {
        Ok(linear_advance) => {
            let chain = DualChain {
                linear,
                linear_advance,
            };
            dual_proof_from_source(alloc, value, lists, chain)
        }
        Err(error) => {
            drop(lists);
            drop(linear);
            Err(error)
        }
    }
}

// A dual proof of which the members before `source` were read.
#[tactic(auto, unfolding(crate::specs::Messages::dual_proof_of))]
fn dual_proof_from_source(
    alloc: Global,
    value: &Value,
    lists: DualLists,
    chain: DualChain,
) -> Result<DualProof, WireError>
    requires consistency { field (codes "consistency") digests_of (view value.now) ≡ Some lists.consistency }
    requires inclusion { field (codes "inclusion") digests_of (view value.now) ≡ Some lists.inclusion }
    requires last_inclusion { field (codes "lastInclusion") digests_of (view value.now) ≡ Some lists.last_inclusion }
    requires linear { field (codes "linear") digests_of (view value.now) ≡ Some chain.linear }
    requires linear_advance { field (codes "linearAdvance") advance_proof_of (view value.now) ≡ Some chain.linear_advance }
    ensures { GivesReading result (dual_proof_of (view value.now)) }
{
    let source = match header_field(alloc, value, "source") {
        Ok(source) => source,
        Err(error) => {
            drop(lists);
            drop(chain);
            return Err(error);
        }
    };
    match header_field(alloc, value, "target") {
        Ok(target) => {
            let headers = DualHeaders { source, target };
            dual_proof_from_alh(value, lists, chain, headers)
        }
        Err(error) => {
            drop(lists);
            drop(chain);
            drop(source);
            Err(error)
        }
    }
}

// A dual proof of which all members but `targetBlTxAlh` were read.
#[tactic(auto, unfolding(crate::specs::Messages::dual_proof_of))]
fn dual_proof_from_alh(
    value: &Value,
    lists: DualLists,
    chain: DualChain,
    headers: DualHeaders,
) -> Result<DualProof, WireError>
    requires consistency { field (codes "consistency") digests_of (view value.now) ≡ Some lists.consistency }
    requires inclusion { field (codes "inclusion") digests_of (view value.now) ≡ Some lists.inclusion }
    requires last_inclusion { field (codes "lastInclusion") digests_of (view value.now) ≡ Some lists.last_inclusion }
    requires linear { field (codes "linear") digests_of (view value.now) ≡ Some chain.linear }
    requires linear_advance { field (codes "linearAdvance") advance_proof_of (view value.now) ≡ Some chain.linear_advance }
    requires source { field (codes "source") header_of_data (view value.now) ≡ Some headers.source }
    requires target { field (codes "target") header_of_data (view value.now) ≡ Some headers.target }
    ensures { GivesReading result (dual_proof_of (view value.now)) }
{
    match digest_field(value, "targetBlTxAlh") {
        Ok(target_bl_tx_alh) => Ok(dual_proof(lists, chain, headers, target_bl_tx_alh)),
        Err(error) => {
            drop(lists);
            drop(chain);
            drop(headers);
            Err(error)
        }
    }
}

// A dual proof, of its members.
fn dual_proof(
    lists: DualLists,
    chain: DualChain,
    headers: DualHeaders,
    target_bl_tx_alh: D32,
) -> DualProof
    ensures { result ≡ record {
      source = headers.source;
      target = headers.target;
      inclusion = lists.inclusion;
      consistency = lists.consistency;
      target_bl_tx_alh = target_bl_tx_alh;
      last_inclusion = lists.last_inclusion;
      linear = chain.linear;
      linear_advance = chain.linear_advance;
    } }
{
    let DualLists {
        consistency,
        inclusion,
        last_inclusion,
    } = lists;
    let DualChain {
        linear,
        linear_advance,
    } = chain;
    let DualHeaders { source, target } = headers;
    DualProof {
        source,
        target,
        inclusion,
        consistency,
        target_bl_tx_alh,
        last_inclusion,
        linear,
        linear_advance,
    }
}

// The member that is a dual proof.
pub(crate) fn dual_proof_field(
    alloc: Global,
    value: &Value,
    name: &str,
) -> Result<DualProof, WireError>
    ensures { GivesReading result (field name.now dual_proof_of (view value.now)) }
{
    dual_proof_of(alloc, member(value, name)?)
}

// The member that is an entry.
pub(crate) fn entry_field(alloc: Global, value: &Value, name: &str) -> Result<Entry, WireError>
    ensures { GivesReading result (field name.now entry_of_data (view value.now)) }
{
    entry_of_data(alloc, member(value, name)?)
}

// An anchor, or none where the value is null.
#[tactic(auto, unfolding(crate::specs::Messages::anchor_of))]
fn anchor_of(alloc: Global, value: &Value) -> Result<Option<DualProof>, WireError>
    ensures { GivesReading result (anchor_of (view value.now)) }
{
    if value.is_null() {
        return Ok(None);
    }
    Ok(Some(dual_proof_of(alloc, value)?))
}

// The member that is an anchor or null.
pub(crate) fn anchor_field(
    alloc: Global,
    value: &Value,
    name: &str,
) -> Result<Option<DualProof>, WireError>
    ensures { GivesReading result (field name.now anchor_of (view value.now)) }
{
    anchor_of(alloc, member(value, name)?)
}
