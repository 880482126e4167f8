ghost use Rattle.std.specs.Prelude.{◌≡◌, ◌<◌, ◌≤◌, ◌+◌, length, IfErr, IfOk, OnOk};
ghost use Rattle.im_format.specs.Damages.{digests, numbers};
ghost use Rattle.im_format.specs.Reading.{number2, number4, number8};
ghost use Rattle.im_format.specs.Spans.{octets_at};

use im_digest::D32;
use im_format::damages::{Damage, Difference};
use im_format::files::TRANSACTION_LOG;

// Two numbers of the transaction log that differ where they should not.
pub(crate) fn numbers(at: u64, want: u64, got: u64) -> Damage
    ensures { result ≡ numbers 0 at want got }
{
    let found = Difference::Numbers { want, got };
    Damage {
        file: TRANSACTION_LOG,
        at,
        found,
    }
}

// Two digests of the transaction log that differ where they should not.
pub(crate) fn digests(at: u64, want: &D32, got: &D32) -> Damage
    ensures { result ≡ digests 0 at want.now got.now }
{
    let found = Difference::Digests {
        want: *want,
        got: *got,
    };
    Damage {
        file: TRANSACTION_LOG,
        at,
        found,
    }
}

// The `n` octets at a place, which aren't copied; else the log doesn't reach that far.
pub(crate) fn octets_at(log: &[u8], at: u64, n: u16) -> Result<&[u8], Damage>
    requires { at ≤ length log.now }
    ensures octets { IfOk result (λ octets. octets.now ≡ octets_at log.now at n) }
    ensures within { OnOk result (at + n ≤ length log.now) }
    ensures short { IfErr result (λ d. (length log.now < at + n) × (d ≡ numbers 0 at (at + n) (length log.now))) }
{
    let end = at + n as u64;
    let len = log.len() as u64;
    if len < end {
        return Err(numbers(at, end, len));
    }
    Ok(&log[at as usize..end as usize])
}

// The octets of a field of fixed size.
pub(crate) fn field<const N: usize>(log: &[u8], at: u64) -> Result<[u8; N], Damage>
    requires place { at ≤ length log.now }
    requires small { N ≤ 32 }
    ensures octets { IfOk result (λ octets. octets ≡ octets_at log.now at N) }
    ensures within { OnOk result (at + N ≤ length log.now) }
    ensures short { IfErr result (λ d. (length log.now < at + N) × (d ≡ numbers 0 at (at + N) (length log.now))) }
{
    match log[at as usize..].first_chunk::<N>() {
        Some(octets) => Ok(*octets),
        None => Err(numbers(at, at + N as u64, log.len() as u64)),
    }
}

// A number of 2 octets.
#[tactic(auto, unfolding(im_format::specs::Reading::number2))]
pub(crate) fn number2(log: &[u8], at: u64) -> Result<u16, Damage>
    requires { at ≤ length log.now }
    ensures number { IfOk result (λ n. n ≡ number2 log.now at) }
    ensures within { OnOk result (at + 2 ≤ length log.now) }
    ensures short { IfErr result (λ d. (length log.now < at + 2) × (d ≡ numbers 0 at (at + 2) (length log.now))) }
{
    Ok(u16::from_be_bytes(field::<2>(log, at)?))
}

// A number of 4 octets.
#[tactic(auto, unfolding(im_format::specs::Reading::number4))]
pub(crate) fn number4(log: &[u8], at: u64) -> Result<u32, Damage>
    requires { at ≤ length log.now }
    ensures number { IfOk result (λ n. n ≡ number4 log.now at) }
    ensures within { OnOk result (at + 4 ≤ length log.now) }
    ensures short { IfErr result (λ d. (length log.now < at + 4) × (d ≡ numbers 0 at (at + 4) (length log.now))) }
{
    Ok(u32::from_be_bytes(field::<4>(log, at)?))
}

// A number of 8 octets.
#[tactic(auto, unfolding(im_format::specs::Reading::number8))]
pub(crate) fn number8(log: &[u8], at: u64) -> Result<u64, Damage>
    requires { at ≤ length log.now }
    ensures number { IfOk result (λ n. n ≡ number8 log.now at) }
    ensures within { OnOk result (at + 8 ≤ length log.now) }
    ensures short { IfErr result (λ d. (length log.now < at + 8) × (d ≡ numbers 0 at (at + 8) (length log.now))) }
{
    Ok(u64::from_be_bytes(field::<8>(log, at)?))
}
