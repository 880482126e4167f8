ghost use Rattle.std.specs.Prelude.{◌≡◌, ◌≤◌, ◌+◌, length, IfOk, OnOk, MatchResult, Ok, Err};
ghost use Rattle.im_mtree.specs.Checks.{first_fail};
ghost use Rattle.im_format.specs.Damages.{alh_checks};

use crate::fields::{digests, field};
use im_digest::D32;
use im_format::damages::Damage;

/// Reads the Alh that ends a record, at a place of the transaction log, and gives the place where the record
/// ends:
///
/// ```text
/// record    = ID 8 | Ts 8 | BlTxID 8 | entry count 4 | {entry} | Alh 32
/// ```
///
/// It takes no memory.
///
/// # Errors
///
/// The log ends within the field, or the Alh isn't the one wanted.
pub fn read_alh(log: &[u8], at: u64, want: &D32) -> Result<u64, Damage>
    requires { at ≤ length log.now }
    ensures end { IfOk result (λ end. end ≡ at + 32) }
    ensures within { OnOk result (at + 32 ≤ length log.now) }
    ensures first { MatchResult result (λ end. first_fail (alh_checks log.now at want.now) ≡ Ok tt) (λ d. first_fail (alh_checks log.now at want.now) ≡ Err d) }
{
    let got = field::<32>(log, at)?;
    if got == *want {
        Ok(at + 32)
    } else {
        Err(digests(at, want, &got))
    }
}
