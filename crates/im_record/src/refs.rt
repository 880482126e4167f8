ghost use Rattle.std.specs.Prelude.{◌≡◌, ◌<◌, ◌≤◌, ◌+◌, ◌*◌, ◌^◌, length, slice_index, IfOk, OnOk, MatchResult, Ok, Err};
ghost use Rattle.im_mtree.specs.Checks.{first_fail};
ghost use Rattle.im_format.specs.Reading.{number4, number8};
ghost use Rattle.im_record.specs.Slots.{ref_at, len_part, log_part, place_part, ref_part, LiesInLogs};

use crate::fields::{field, number4, number8, numbers};
use im_format::damages::Damage;
use im_format::files::LAST_VALUE_LOG;
use im_format::references::ValueRef;
use im_model::limits::MOST_VALUE_OCTETS;

// A value of transaction id ends at most at this many octets for each transaction up to it.
const PLACES_EACH: u64 = 4_194_304;

// Reads the reference of a value of transaction id, where the value logs have these lengths:
//
//     reference = hVal 32 | value length 4 | log 1 | place 8
pub(crate) fn read_ref(log: &[u8], at: u64, id: u64, logs: &[u64; 4]) -> Result<ValueRef, Damage>
    requires place { at ≤ length log.now }
    requires some { 1 ≤ id }
    requires few { id < 2 ^ 42 }
    ensures value { IfOk result (λ value. value ≡ ref_at log.now at) }
    ensures within { OnOk result (at + 45 ≤ length log.now) }
    ensures lies { IfOk result (LiesInLogs logs.now id) }
    ensures first { MatchResult result (λ value. first_fail (ref_part log.now logs.now id at) ≡ Ok tt) (λ d. first_fail (ref_part log.now logs.now id at) ≡ Err d) }
{
    let hval = field::<32>(log, at)?;
    let len = read_len(log, at + 32)?;
    let number = read_log(log, at + 36)?;
    let size = logs[number as usize];
    let place = read_place(log, at + 37, id, len, size)?;
    Ok(ValueRef {
        hval,
        len,
        log: number,
        at: place,
    })
}

// Reads a value's length: at most 4096.
fn read_len(log: &[u8], at: u64) -> Result<u32, Damage>
    requires { at ≤ length log.now }
    ensures len { IfOk result (λ len. len ≡ number4 log.now at) }
    ensures short { IfOk result (λ len. len ≤ 4096) }
    ensures within { OnOk result (at + 4 ≤ length log.now) }
    ensures first { MatchResult result (λ len. first_fail (len_part log.now at) ≡ Ok tt) (λ d. first_fail (len_part log.now at) ≡ Err d) }
{
    let len = number4(log, at)?;
    if len as usize > MOST_VALUE_OCTETS {
        return Err(numbers(at, MOST_VALUE_OCTETS as u64, len as u64));
    }
    Ok(len)
}

// Reads the number of a value log: 0 to 3.
fn read_log(log: &[u8], at: u64) -> Result<u8, Damage>
    requires { at ≤ length log.now }
    ensures number { IfOk result (λ number. number ≡ slice_index log.now at) }
    ensures few { IfOk result (λ number. number ≤ 3) }
    ensures within { OnOk result (at + 1 ≤ length log.now) }
    ensures first { MatchResult result (λ number. first_fail (log_part log.now at) ≡ Ok tt) (λ d. first_fail (log_part log.now at) ≡ Err d) }
{
    let Some(number) = log.get(at as usize) else {
        return Err(numbers(at, at + 1, log.len() as u64));
    };
    if *number > LAST_VALUE_LOG {
        return Err(numbers(at, LAST_VALUE_LOG as u64, *number as u64));
    }
    Ok(*number)
}

// Reads the place of a value of transaction id of `len` octets, in a value log of `size` octets.
fn read_place(log: &[u8], at: u64, id: u64, len: u32, size: u64) -> Result<u64, Damage>
    requires place { at ≤ length log.now }
    requires some { 1 ≤ id }
    requires few { id < 2 ^ 42 }
    requires short { len ≤ 4096 }
    ensures number { IfOk result (λ place. place ≡ number8 log.now at) }
    ensures room { IfOk result (λ place. place + len ≤ id * 2 ^ 22) }
    ensures lies { IfOk result (λ place. place + len ≤ size) }
    ensures within { OnOk result (at + 8 ≤ length log.now) }
    ensures first { MatchResult result (λ place. first_fail (place_part log.now id len size at) ≡ Ok tt) (λ d. first_fail (place_part log.now id len size at) ≡ Err d) }
{
    let place = number8(log, at)?;
    let most = id * PLACES_EACH - len as u64;
    if place > most {
        return Err(numbers(at, most, place));
    }
    let end = place + len as u64;
    if end > size {
        return Err(numbers(at, end, size));
    }
    Ok(place)
}
