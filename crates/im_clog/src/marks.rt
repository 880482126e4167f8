ghost use Rattle.std.specs.Prelude.{◌≡◌, ◌≤◌, ◌+◌, ◌↔◌, length, IfOk, IfErr, IsOk};
ghost use Rattle.im_format.specs.Batches.{Counts};
ghost use Rattle.im_format.specs.Reading.{number8};
ghost use Rattle.im_clog.specs.Marks.{mark_at, IsUncounted};

use im_format::files::BATCH_OCTETS;

/// The octet of an open gate. Any other octet is a closed one.
const OPEN: u8 = 1;

/// A batch that counts, as the commit log has it.
#[derive(Clone, Copy, Debug, PartialEq, Eq)]
pub struct Mark {
    /// The ID of its first transaction.
    pub first: u64,
    /// The number of its transactions.
    pub count: u64,
    /// Where their records end in the transaction log, in octets.
    pub end: u64,
}

/// Why no batch counts at a gate. The first reason in this order is told.
#[derive(Clone, Copy, Debug, PartialEq, Eq)]
pub enum Uncounted {
    /// The commit log ends before the gate.
    Missing,
    /// The gate is closed: this octet stands there.
    Closed { octet: u8 },
    /// The gate is open, but the commit log, of this many octets, ends before the next gate's octet.
    Short { len: usize },
}

/// The batch whose gate stands at the place `gate` of the commit log's octets, where it counts: the gate is
/// open, and all octets up to the next gate's are there.
///
/// ```text
/// log       = nothing, or gate 1 {batch gate 1}
/// batch     = first ID 8 | count 8 | end of the transaction log 8
/// ```
///
/// It takes no memory.
pub fn batch_at(log: &[u8], gate: usize) -> Result<Mark, Uncounted>
    ensures counts { IsOk result ↔ Counts log.now gate }
    ensures mark { IfOk result (λ mark. mark ≡ mark_at log.now gate) }
    ensures reason { IfErr result (λ reason. IsUncounted log.now gate reason) }
{
    let Some(octet) = log.get(gate) else {
        return Err(Uncounted::Missing);
    };
    if *octet != OPEN {
        return Err(Uncounted::Closed { octet: *octet });
    }
    if log.len() - gate <= BATCH_OCTETS {
        return Err(Uncounted::Short { len: log.len() });
    }
    Ok(Mark {
        first: number8(log, gate + 1),
        count: number8(log, gate + 9),
        end: number8(log, gate + 17),
    })
}

// The number that the eight octets at a place are, the highest first.
#[tactic(auto, unfolding(im_format::specs::Reading::number8))]
fn number8(log: &[u8], at: usize) -> u64
    requires { at + 8 ≤ length log.now }
    ensures { result ≡ number8 log.now at }
{
    let octets = log[at..].first_chunk::<8>().unwrap();
    u64::from_be_bytes(*octets)
}
