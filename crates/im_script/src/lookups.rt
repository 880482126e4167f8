ghost use Rattle.std.specs.Prelude.{IfOk};
ghost use Rattle.im_text.specs.Finds.{Finds};
ghost use Rattle.im_script.specs.Script.{IsLookup};

use crate::fields::first_field;
use crate::numbers::read_at;
use im_octet::octets::Octets;
use im_text::octets::read_octets;
use std::alloc::{AllocError, Global};

// Octets that are looked for, and the transaction after which they are, if one is named.
pub(crate) fn read_lookup(
    alloc: Global,
    text: &[u8],
) -> Result<Option<(Octets, Option<u64>)>, AllocError>
    ensures { IfOk result (λ lookup. Finds lookup (λ l. IsLookup text.now l.0 l.1)) }
{
    let (word, mark) = first_field(text);
    let Some(at) = read_at(mark) else {
        return Ok(None);
    };
    let Some(octets) = read_octets(alloc, word)? else {
        return Ok(None);
    };
    Ok(Some((octets, at)))
}
