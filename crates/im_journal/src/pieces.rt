// The writes of a batch.
ghost use Rattle.std.specs.Prelude.{◌≡◌, ◌<◌, ◌≤◌, ◌+◌, ◌^◌, ◌++◌, [], ℕ, IfOk, OnOk, length, All};
ghost use Rattle.im_format.specs.Places.{log_values};
ghost use Rattle.im_format.specs.Records.{records_octets};
ghost use Rattle.im_record.specs.Writing.{IsWhole};
ghost use Rattle.im_journal.specs.Pieces.{end_of, ends_after, log_pieces, pieces_of, value_piece};

use crate::ends::Ends;
use im_clog::batches::batch_octets;
use im_format::files::{BATCH_OCTETS, COMMIT_LOG, FIRST_VALUE_LOG, TRANSACTION_LOG};
use im_format::records::Record;
use im_format::spans::Span;
use im_octet::octets::Octets;
use im_record::writing::records_octets;
use im_vlog::octets::log_values;
use std::alloc::{AllocError, Global};

/// The writes of a batch, and where the files end behind it.
#[derive(Drop)]
pub(crate) struct Plan {
    pub(crate) pieces: Vec<Span>,
    pub(crate) ends: Ends,
}

/// The writes of a batch of these records, of which the first has this ID, behind these ends.
pub(crate) fn plan_of(
    alloc: Global,
    ends: &Ends,
    id: u64,
    records: &[Record],
) -> Result<Plan, AllocError>
    requires whole { All IsWhole records.now }
    requires few { id + length records.now < 2 ^ 63 }
    requires room { (k : ℕ) → end_of ends.now k < 2 ^ 61 }
    ensures pieces { IfOk result (λ plan. plan.pieces.items ≡ pieces_of ends.now id records.now) }
    ensures ends { IfOk result (λ plan. plan.ends ≡ ends_after ends.now id records.now) }
{
    let mut pieces = Vec::new(alloc);
    match push_pieces(alloc, &mut pieces, ends, id, records) {
        Ok(ends) => Ok(Plan { pieces, ends }),
        Err(error) => {
            drop(pieces);
            Err(error)
        }
    }
}

// Adds the writes of a batch to none, and gives where the files end behind it.
fn push_pieces(
    alloc: Global,
    pieces: &mut Vec<Span>,
    ends: &Ends,
    id: u64,
    records: &[Record],
) -> Result<Ends, AllocError>
    requires none { pieces.old.items ≡ [] }
    requires whole { All IsWhole records.now }
    requires few { id + length records.now < 2 ^ 63 }
    requires room { (k : ℕ) → end_of ends.now k < 2 ^ 61 }
    ensures pieces { OnOk result (pieces.new.items ≡ pieces_of ends.now id records.now) }
    ensures ends { IfOk result (λ behind. behind ≡ ends_after ends.now id records.now) }
{
    let first = push_value_piece(alloc, pieces, 0, ends.values[0], records)?;
    let second = push_value_piece(alloc, pieces, 1, ends.values[1], records)?;
    let third = push_value_piece(alloc, pieces, 2, ends.values[2], records)?;
    let fourth = push_value_piece(alloc, pieces, 3, ends.values[3], records)?;
    let end = push_log_pieces(alloc, pieces, ends, id, records)?;
    Ok(Ends {
        records: end,
        commits: ends.commits + BATCH_OCTETS as u64,
        values: [first, second, third, fourth],
    })
}

// Adds the write of a value log, where it gets octets, and gives the log's end behind it.
fn push_value_piece(
    alloc: Global,
    pieces: &mut Vec<Span>,
    log: u8,
    at: u64,
    records: &[Record],
) -> Result<u64, AllocError>
    requires log { log ≤ 3 }
    requires place { at < 2 ^ 61 }
    ensures piece { OnOk result (pieces.new.items ≡ pieces.old.items ++ value_piece (2 + log) at (log_values log records.now)) }
    ensures end { IfOk result (λ end. end ≡ at + length (log_values log records.now)) }
{
    let octets = log_values(alloc, log, records)?;
    let end = at + octets.len() as u64;
    if !octets.is_empty() {
        let file = FIRST_VALUE_LOG + log;
        let octets = Octets::from_vec(octets);
        pieces
            .push(Span { file, at, octets })
            .map_err(AllocError::from)?;
    }
    Ok(end)
}

// Adds the writes of the transaction log and of the commit log, and gives the transaction log's end
// behind them.
fn push_log_pieces(
    alloc: Global,
    pieces: &mut Vec<Span>,
    ends: &Ends,
    id: u64,
    records: &[Record],
) -> Result<u64, AllocError>
    requires whole { All IsWhole records.now }
    requires few { id + length records.now < 2 ^ 63 }
    requires log { ends.now.records < 2 ^ 61 }
    requires gate { ends.now.commits < 2 ^ 61 }
    ensures pieces { OnOk result (pieces.new.items ≡ pieces.old.items ++ log_pieces ends.now id records.now) }
    ensures end { IfOk result (λ end. end ≡ ends.now.records + length (records_octets id records.now)) }
{
    let octets = records_octets(alloc, id, records)?;
    let end = ends.records + octets.len() as u64;
    let fields = batch_octets(id, records.len() as u64, end);
    let fields = Octets::from_slice(alloc, &fields)?;
    let octets = Octets::from_vec(octets);
    pieces
        .push(Span {
            file: TRANSACTION_LOG,
            at: ends.records,
            octets,
        })
        .map_err(AllocError::from)?;
    pieces
        .push(Span {
            file: COMMIT_LOG,
            at: ends.commits + 1,
            octets: fields,
        })
        .map_err(AllocError::from)?;
    Ok(end)
}
