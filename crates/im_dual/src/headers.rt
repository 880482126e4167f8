ghost use Rattle.std.specs.Prelude.{◌≡◌, ◌<◌, ◌≤◌, IfOk};
ghost use Rattle.im_mtree.specs.Checks.{first_fail};
ghost use Rattle.im_proof.specs.declared.faults.DualFault.TheVariants.{Source, Target};
ghost use Rattle.im_proof.specs.HeaderChecks.{header_checks};
ghost use Rattle.im_proof.specs.Duals.{as_faults, order_checks, both_headers_checks};

use im_model::headers::Header;
use im_model::limits::MOST_ENTRIES;
use im_proof::faults::{DualFault, HeaderFault};

/// Whether a header is one that this store makes. It takes no memory.
///
/// # Errors
///
/// The first of these that is so: the version isn't 1, the number of entries isn't 1 to 1024, or the tree
/// isn't below the transaction's number.
pub fn check_header(header: &Header) -> Result<(), HeaderFault>
    ensures first { result ≡ first_fail (header_checks header.now) }
    ensures tree { IfOk result (λ u. header.now.bl_tx_id < header.now.id) }
{
    if header.version != 1 {
        return Err(HeaderFault::Version {
            got: header.version,
        });
    }
    if header.nentries == 0 {
        return Err(HeaderFault::Entries { want: 1, got: 0 });
    }
    if header.nentries > MOST_ENTRIES {
        return Err(HeaderFault::Entries {
            want: MOST_ENTRIES,
            got: header.nentries,
        });
    }
    if header.bl_tx_id >= header.id {
        return Err(HeaderFault::Tree {
            id: header.id,
            bl: header.bl_tx_id,
        });
    }
    Ok(())
}

/// Whether both headers are such as this store makes, and neither the source's number nor the size of its
/// tree is above the target's. It takes no memory.
///
/// # Errors
///
/// The first check that fails: of the source's header, of the target's, of their numbers, of their trees.
#[tactic(auto, using(im_mtree::proofs::CheckLemmas::fail_both, im_mtree::proofs::CheckLemmas::fail_append), unfolding(im_proof::specs::Duals::both_headers_checks))]
pub fn check_headers(source: &Header, target: &Header) -> Result<(), DualFault>
    ensures first { result ≡ first_fail (both_headers_checks source.now target.now) }
    ensures source { IfOk result (λ u. source.now.bl_tx_id < source.now.id) }
    ensures target { IfOk result (λ u. target.now.bl_tx_id < target.now.id) }
    ensures order { IfOk result (λ u. source.now.id ≤ target.now.id) }
    ensures trees { IfOk result (λ u. source.now.bl_tx_id ≤ target.now.bl_tx_id) }
{
    check_source(source)?;
    check_target(target)?;
    check_order(source, target)
}

// Whether the source's header is one that this store makes.
fn check_source(header: &Header) -> Result<(), DualFault>
    ensures first { result ≡ first_fail (as_faults Source (header_checks header.now)) }
    ensures tree { IfOk result (λ u. header.now.bl_tx_id < header.now.id) }
{
    check_header(header).map_err(|fault| DualFault::Source { fault })
}

// Whether the target's header is one that this store makes.
fn check_target(header: &Header) -> Result<(), DualFault>
    ensures first { result ≡ first_fail (as_faults Target (header_checks header.now)) }
    ensures tree { IfOk result (λ u. header.now.bl_tx_id < header.now.id) }
{
    check_header(header).map_err(|fault| DualFault::Target { fault })
}

// Whether neither the source's number nor the size of its tree is above the target's.
fn check_order(source: &Header, target: &Header) -> Result<(), DualFault>
    ensures first { result ≡ first_fail (order_checks source.now target.now) }
    ensures order { IfOk result (λ u. source.now.id ≤ target.now.id) }
    ensures trees { IfOk result (λ u. source.now.bl_tx_id ≤ target.now.bl_tx_id) }
{
    if source.id > target.id {
        return Err(DualFault::Order {
            source: source.id,
            target: target.id,
        });
    }
    if source.bl_tx_id > target.bl_tx_id {
        return Err(DualFault::Shrink {
            source: source.bl_tx_id,
            target: target.bl_tx_id,
        });
    }
    Ok(())
}
