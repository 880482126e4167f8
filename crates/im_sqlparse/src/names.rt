//! Names, as the grammar lets tables and columns have them.

ghost use Rattle.std.specs.Prelude.{◌≡◌, ◌↔◌, IsTrue};
ghost use Rattle.std.specs.List.{list_all};
ghost use Rattle.im_sqlparse.specs.Formed.{IsName, is_name_octet};

use crate::kinds::Kind;
use crate::lex::{keyword, same_kind};

// The most octets of a name.
pub(crate) const MOST_NAME: usize = 48;

fn is_name_octet(octet: u8) -> bool
    ensures { result ≡ is_name_octet octet }
{
    octet.is_ascii_lowercase() || octet.is_ascii_digit() || octet == b'_'
}

fn are_name_octets(octets: &[u8]) -> bool
    ensures { result ≡ list_all is_name_octet octets.now }
{
    octets.iter().all(|octet| is_name_octet(*octet))
}

/// Whether octets are a name in lower case: 1 to 48 of a-z, 0-9 and `_`, a letter first, and no keyword.
#[tactic(auto, using(crate::proofs::NameRules::other_octets))]
pub fn is_name(name: &[u8]) -> bool
    ensures { IsTrue result ↔ IsName name.now }
{
    if name.is_empty() || MOST_NAME < name.len() {
        return false;
    }
    if !name[0].is_ascii_lowercase() || !are_name_octets(name) {
        return false;
    }
    same_kind(keyword(name), Kind::Word)
}
