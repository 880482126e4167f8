ghost use Rattle.std.specs.Prelude.{◌≡◌, ◌++◌, IfOk, OnOk};
ghost use Rattle.std.specs.Fmt.{decimal};
ghost use Rattle.im_client.specs.Texts.{with_numbers, with_digests, header_fault_text, dual_fault_text, path_fault_text, fault_text, refused_line};

use crate::faults::LineFault;
use im_digest::D32;
use im_mtree::faults::PathFault;
use im_proof::faults::{DualFault, HeaderFault};
use im_text::writing::{push_hex, push_number};
use std::alloc::{AllocError, Global};

// Adds a name and two numbers, the one wanted and the one found.
#[tactic(auto, unfolding(crate::specs::Texts::with_numbers))]
fn push_numbers(out: &mut Vec<u8>, name: &[u8], want: u64, got: u64) -> Result<(), AllocError>
    ensures { OnOk result (out.new.items ≡ out.old.items ++ with_numbers name.now want got) }
{
    let alloc = *out.allocator();
    out.extend_from_slice(name)?;
    push_number(alloc, out, b" ", want)?;
    push_number(alloc, out, b" ", got)
}

// Adds a name and two digests, the one wanted and the one found.
#[tactic(auto, unfolding(crate::specs::Texts::with_digests))]
fn push_digests(out: &mut Vec<u8>, name: &[u8], want: &D32, got: &D32) -> Result<(), AllocError>
    ensures { OnOk result (out.new.items ≡ out.old.items ++ with_digests name.now want.now got.now) }
{
    let alloc = *out.allocator();
    out.extend_from_slice(name)?;
    push_hex(alloc, out, b" ", want)?;
    push_hex(alloc, out, b" ", got)
}

// Adds the check of a dual proof that failed.
#[tactic(auto, unfolding(crate::specs::Texts::dual_fault_text))]
fn push_dual_fault(out: &mut Vec<u8>, fault: &DualFault) -> Result<(), AllocError>
    ensures { OnOk result (out.new.items ≡ out.old.items ++ dual_fault_text fault.now) }
{
    use DualFault as Fault;
    match fault {
        Fault::Source { fault } => push_header_fault(out, b"source", fault),
        Fault::Target { fault } => push_header_fault(out, b"target", fault),
        Fault::Order { source, target } => push_numbers(out, b"order", *source, *target),
        Fault::Shrink { source, target } => push_numbers(out, b"shrink", *source, *target),
        Fault::InclusionLength { want, got } => push_numbers(out, b"inclusion-length", *want, *got),
        Fault::InclusionRoot { want, got } => push_digests(out, b"inclusion-root", want, got),
        Fault::ConsistencyLength { want, got } => {
            push_numbers(out, b"consistency-length", *want, *got)
        }
        Fault::ConsistencyOld { want, got } => push_digests(out, b"consistency-old", want, got),
        Fault::ConsistencyNew { want, got } => push_digests(out, b"consistency-new", want, got),
        Fault::LastLength { want, got } => push_numbers(out, b"last-length", *want, *got),
        Fault::LastRoot { want, got } => push_digests(out, b"last-root", want, got),
        Fault::BlAlh { want, got } => push_digests(out, b"bl-alh", want, got),
        Fault::LinearLength { want, got } => push_numbers(out, b"linear-length", *want, *got),
        Fault::LinearStart { want, got } => push_digests(out, b"linear-start", want, got),
        Fault::LinearEnd { want, got } => push_digests(out, b"linear-end", want, got),
        Fault::AdvanceLength { want, got } => push_numbers(out, b"advance-length", *want, *got),
        Fault::AdvanceCount { want, got } => push_numbers(out, b"advance-count", *want, *got),
        Fault::AdvancePathLength { number, want, got } => {
            push_numbers_of(out, b"advance-path-length ", *number, *want, *got)
        }
        Fault::AdvancePathRoot { number, want, got } => {
            push_digests_of(out, b"advance-path-root ", *number, want, got)
        }
        Fault::AdvanceEnd { want, got } => push_digests(out, b"advance-end", want, got),
    }
}

// Adds the check of a header that failed, behind the header's role.
#[tactic(auto, unfolding(crate::specs::Texts::header_fault_text))]
fn push_header_fault(out: &mut Vec<u8>, role: &[u8], fault: &HeaderFault) -> Result<(), AllocError>
    ensures { OnOk result (out.new.items ≡ out.old.items ++ header_fault_text role.now fault.now) }
{
    match *fault {
        HeaderFault::Version { got } => push_of_role(out, role, b"-version", 1, u64::from(got)),
        HeaderFault::Entries { want, got } => {
            push_of_role(out, role, b"-entries", u64::from(want), u64::from(got))
        }
        HeaderFault::Tree { id, bl } => push_of_role(out, role, b"-tree", id, bl),
    }
}

// Adds a name behind a role, and two numbers.
fn push_of_role(
    out: &mut Vec<u8>,
    role: &[u8],
    name: &[u8],
    want: u64,
    got: u64,
) -> Result<(), AllocError>
    ensures { OnOk result (out.new.items ≡ out.old.items ++ with_numbers (role.now ++ name.now) want got) }
{
    out.extend_from_slice(role)?;
    push_numbers(out, name, want, got)
}

// Adds a name and a transaction's number, and then two numbers.
fn push_numbers_of(
    out: &mut Vec<u8>,
    name: &[u8],
    number: u64,
    want: u64,
    got: u64,
) -> Result<(), AllocError>
    ensures { OnOk result (out.new.items ≡ out.old.items ++ with_numbers (name.now ++ decimal number) want got) }
{
    push_one(out, name, number)?;
    push_numbers(out, b"", want, got)
}

// Adds a name and a transaction's number, and then two digests.
fn push_digests_of(
    out: &mut Vec<u8>,
    name: &[u8],
    number: u64,
    want: &D32,
    got: &D32,
) -> Result<(), AllocError>
    ensures { OnOk result (out.new.items ≡ out.old.items ++ with_digests (name.now ++ decimal number) want.now got.now) }
{
    push_one(out, name, number)?;
    push_digests(out, b"", want, got)
}

// Adds the check of an entry's path that failed.
#[tactic(auto, unfolding(crate::specs::Texts::path_fault_text))]
fn push_path_fault(out: &mut Vec<u8>, fault: &PathFault) -> Result<(), AllocError>
    ensures { OnOk result (out.new.items ≡ out.old.items ++ path_fault_text fault.now) }
{
    match fault {
        PathFault::Index { width, got } => {
            push_numbers(out, b"path-index", u64::from(*width), u64::from(*got))
        }
        PathFault::Length { want, got } => push_numbers(out, b"path-length", *want, *got),
        PathFault::Root { want, got } => push_digests(out, b"path-root", want, got),
    }
}

// Adds the check of a line that failed, with its values.
#[tactic(auto, unfolding(crate::specs::Texts::fault_text))]
fn push_fault(out: &mut Vec<u8>, fault: &LineFault) -> Result<(), AllocError>
    ensures { OnOk result (out.new.items ≡ out.old.items ++ fault_text fault.now) }
{
    use LineFault as Fault;
    match fault {
        Fault::Syntax => out.extend_from_slice(b"syntax"),
        Fault::State { fault } => push_header_fault(out, b"state", fault),
        Fault::StateId { want, got } => push_numbers(out, b"state-id", *want, *got),
        Fault::StateAlh { want, got } => push_digests(out, b"state-alh", want, got),
        Fault::NoState => out.extend_from_slice(b"no-state"),
        Fault::SourceId { want, got } => push_numbers(out, b"source-id", *want, *got),
        Fault::SourceAlh { want, got } => push_digests(out, b"source-alh", want, got),
        Fault::TargetId { want, got } => push_numbers(out, b"target-id", *want, *got),
        Fault::TargetAlh { want, got } => push_digests(out, b"target-alh", want, got),
        Fault::Dual { fault } => push_dual_fault(out, fault),
        Fault::AnchorMissing => out.extend_from_slice(b"anchor-missing"),
        Fault::AnchorExtra => out.extend_from_slice(b"anchor-extra"),
        Fault::AnchorSourceId { want, got } => push_numbers(out, b"anchor-source-id", *want, *got),
        Fault::AnchorTargetId { want, got } => push_numbers(out, b"anchor-target-id", *want, *got),
        Fault::AnchorSourceAlh { want, got } => push_digests(out, b"anchor-source-alh", want, got),
        Fault::AnchorTargetAlh { want, got } => push_digests(out, b"anchor-target-alh", want, got),
        Fault::Anchor { fault } => {
            out.extend_from_slice(b"anchor-")?;
            push_dual_fault(out, fault)
        }
        Fault::Path { fault } => push_path_fault(out, fault),
    }
}

// Adds a text and a number.
fn push_one(out: &mut Vec<u8>, text: &[u8], n: u64) -> Result<(), AllocError>
    ensures { OnOk result (out.new.items ≡ out.old.items ++ text.now ++ decimal n) }
{
    let alloc = *out.allocator();
    push_number(alloc, out, text, n)
}

/// What is written of line n, with its LF, where a check of it fails.
#[tactic(auto, unfolding(crate::specs::Texts::refused_line))]
pub fn refused_text(alloc: Global, n: u64, fault: &LineFault) -> Result<Vec<u8>, AllocError>
    ensures { IfOk result (λ text. text.items ≡ refused_line n fault.now) }
{
    let mut out = Vec::new(alloc);
    push_one(&mut out, b"refused ", n)?;
    out.extend_from_slice(b" ")?;
    push_fault(&mut out, fault)?;
    out.extend_from_slice(b"\n")?;
    Ok(out)
}
