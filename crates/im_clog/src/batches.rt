ghost use Rattle.std.specs.Prelude.{◌≡◌};
ghost use Rattle.im_format.specs.Batches.{batch_octets};

use arrayvec::ArrayVec;
use im_format::files::BATCH_OCTETS;
use im_octet::buffers::append;
use im_octet::fields::eight;

/// The octet that is staged for the next gate.
const CLOSED: u8 = 0;

/// What is staged of a batch, for the place behind its gate: the batch, and the next gate, which is closed.
///
/// ```text
/// log       = nothing, or gate 1 {batch gate 1}
/// batch     = first ID 8 | count 8 | end of the transaction log 8
/// ```
///
/// Its fields are the ID of its first transaction, the number of its transactions, and where their records end
/// in the transaction log. It takes no memory.
#[tactic(auto, unfolding(im_format::specs::Batches::batch_octets, im_format::specs::Batches::batch_fields))]
pub fn batch_octets(first: u64, count: u64, end: u64) -> [u8; BATCH_OCTETS]
    ensures { result ≡ batch_octets first count end }
{
    let mut octets = ArrayVec::<u8, BATCH_OCTETS>::new();
    append(&mut octets, &eight(first));
    append(&mut octets, &eight(count));
    append(&mut octets, &eight(end));
    append(&mut octets, &[CLOSED]);
    octets.into_inner().unwrap()
}
