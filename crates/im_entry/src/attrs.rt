ghost use Rattle.std.specs.Prelude.{IfErr, IfOk};
ghost use Rattle.im_entry.specs.Attrs.{IsFirstBad, IsMetadata};

use im_draft::drafts::Attrs;
use thiserror::Error;

/// These octets are no metadata of an entry: octet `at`, from 0, is the first that can't stand there.
#[derive(Clone, Copy, Debug, PartialEq, Eq, Error)]
#[error("octet {at} of the metadata can't stand there")]
pub struct BadMeta {
    /// The place of that octet, from 0.
    pub at: u32,
}

/// Reads the metadata of an entry: the codes of its attributes in rising order, 0 for a deletion and 2 for
/// an entry that no index shows, each at most once. It takes no memory.
pub fn read_attrs(octets: &[u8]) -> Result<Attrs, BadMeta>
    ensures ok { IfOk result (IsMetadata octets.now) }
    ensures err { IfErr result (λ e. IsFirstBad octets.now e.at) }
{
    let (deleted, non_indexable) = match octets {
        [] => (false, false),
        [0] => (true, false),
        [2] => (false, true),
        [0, 2] => (true, true),
        [0, 2, ..] => return Err(BadMeta { at: 2 }),
        [0, ..] | [2, ..] => return Err(BadMeta { at: 1 }),
        _ => return Err(BadMeta { at: 0 }),
    };
    Ok(Attrs {
        deleted,
        non_indexable,
    })
}
