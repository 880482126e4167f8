ghost use Rattle.std.specs.Prelude.{◌≡◌, ◌++◌, IfOk};
ghost use Rattle.im_model.specs.Headers.{alh, header_strings};
ghost use Rattle.im_forge.specs.Same.{IsSame};

use crate::ranges::header_fits;
use crate::same::{Same, compared};
use crate::strings::{alh_octets, inner_octets};
use im_digest::Hash32;
use im_model::headers::Header;
use std::alloc::{AllocError, Global};

/// Whether two headers of one Alh are equal. They are, just where all their fields are; else the two strings
/// are those of the Alh, or those of the inner digest. It hashes each header once. The only error is want of
/// memory.
pub fn same_header<H: Hash32>(
    alloc: Global,
    hash: &H,
    header: &Header,
    header2: &Header,
) -> Result<Same, AllocError>
    requires { alh (H.digest hash.now) header.now ≡ alh (H.digest hash.now) header2.now }
    ensures { IfOk result (IsSame (header.now ≡ header2.now) (H.digest hash.now) (header_strings (H.digest hash.now) header.now ++ header_strings (H.digest hash.now) header2.now)) }
{
    header_fits(header);
    header_fits(header2);
    let x = alh_octets(alloc, hash, header)?;
    let y = alh_octets(alloc, hash, header2)?;
    match compared(x, y) {
        Same::Pair { x, y } => Ok(Same::Pair { x, y }),
        Same::Equal => {
            let x = inner_octets(alloc, header)?;
            let y = inner_octets(alloc, header2)?;
            Ok(compared(x, y))
        }
    }
}
