ghost use Rattle.std.specs.Prelude.{◌≡◌, ◌≤◌, ◌+◌, length, IfOk, OnOk, MatchResult, Ok, Err};
ghost use Rattle.im_mtree.specs.Checks.{first_fail};
ghost use Rattle.im_format.specs.Damages.{head_checks};
ghost use Rattle.im_format.specs.Reading.{number4, number8};
ghost use Rattle.im_record.specs.Heads.{head_at, tree_size_checks, count_checks};

use crate::fields::{number4, number8, numbers};
use im_format::damages::Damage;
use im_model::limits::MOST_ENTRIES;

/// What a record begins with, behind its ID.
#[derive(Clone, Copy, Debug, PartialEq, Eq)]
pub struct Head {
    /// When the transaction was placed, in Unix seconds.
    pub ts: i64,
    /// How many earlier transactions the tree held.
    pub bl: u64,
    /// The number of the entries, 1 to 1024.
    pub count: u32,
}

/// Reads the head of the record of transaction `id` at a place of the transaction log, where the tree of the
/// transaction before had `least_bl` leaves:
///
/// ```text
/// record    = ID 8 | Ts 8 | BlTxID 8 | entry count 4 | {entry} | Alh 32
/// ```
///
/// It takes no memory.
///
/// # Errors
///
/// The first damage, field by field: the log ends within the field; another ID; a tree that shrinks, or that
/// isn't below the ID; not 1 to 1024 entries.
pub fn read_head(log: &[u8], at: u64, id: u64, least_bl: u64) -> Result<Head, Damage>
    requires { at ≤ length log.now }
    ensures head { IfOk result (λ head. head ≡ head_at log.now at) }
    ensures within { OnOk result (at + 28 ≤ length log.now) }
    ensures first { MatchResult result (λ head. first_fail (head_checks log.now id least_bl at) ≡ Ok tt) (λ d. first_fail (head_checks log.now id least_bl at) ≡ Err d) }
{
    let found = number8(log, at)?;
    if found != id {
        return Err(numbers(at, id, found));
    }
    let ts = number8(log, at + 8)?.cast_signed();
    let bl = read_bl(log, at + 16, id, least_bl)?;
    let count = read_count(log, at + 24)?;
    Ok(Head { ts, bl, count })
}

// Reads BlTxID: no less than that of the transaction before, and below the ID.
fn read_bl(log: &[u8], at: u64, id: u64, least: u64) -> Result<u64, Damage>
    requires { at ≤ length log.now }
    ensures bl { IfOk result (λ bl. bl ≡ number8 log.now at) }
    ensures within { OnOk result (at + 8 ≤ length log.now) }
    ensures first { MatchResult result (λ bl. first_fail (tree_size_checks log.now id least at) ≡ Ok tt) (λ d. first_fail (tree_size_checks log.now id least at) ≡ Err d) }
{
    let bl = number8(log, at)?;
    if bl < least {
        return Err(numbers(at, least, bl));
    }
    let most = id.saturating_sub(1);
    if bl > most {
        return Err(numbers(at, most, bl));
    }
    Ok(bl)
}

// Reads the entry count: 1 to 1024.
fn read_count(log: &[u8], at: u64) -> Result<u32, Damage>
    requires { at ≤ length log.now }
    ensures count { IfOk result (λ count. count ≡ number4 log.now at) }
    ensures within { OnOk result (at + 4 ≤ length log.now) }
    ensures first { MatchResult result (λ count. first_fail (count_checks log.now at) ≡ Ok tt) (λ d. first_fail (count_checks log.now at) ≡ Err d) }
{
    let count = number4(log, at)?;
    if count == 0 {
        return Err(numbers(at, 1, 0));
    }
    if count > MOST_ENTRIES {
        return Err(numbers(at, MOST_ENTRIES as u64, count as u64));
    }
    Ok(count)
}
