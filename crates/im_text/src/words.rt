//! Sessions, and bare words, which are octets that stand for themselves.

ghost use Rattle.std.specs.Prelude.{◌≡◌, ◌≤◌, ◌↔◌, length, nat_eq, codes, IsTrue};
ghost use Rattle.std.specs.List.{list_all, starts_with};
ghost use Rattle.im_text.specs.Fields.{is_session_octet, IsSession, is_bare_octet, is_bare};

// The most octets of a session's name.
const MOST_SESSION: usize = 16;

// a-z 0-9
fn is_session_octet(octet: u8) -> bool
    ensures { result ≡ is_session_octet octet }
{
    octet.is_ascii_lowercase() || octet.is_ascii_digit()
}

// Whether each octet may stand in a session's name.
fn are_session_octets(text: &[u8]) -> bool
    ensures { result ≡ list_all is_session_octet text.now }
{
    text.iter().all(|octet| is_session_octet(*octet))
}

/// Whether a text is a session's name: 1 to 16 of a-z 0-9.
#[tactic(auto, unfolding(crate::specs::Words::is_word))]
pub fn is_session(text: &[u8]) -> bool
    ensures { IsTrue result ↔ IsSession text.now }
{
    (1..=MOST_SESSION).contains(&text.len()) && are_session_octets(text)
}

// A-Z a-z 0-9 _ - . /
fn is_bare_octet(octet: u8) -> bool
    ensures { result ≡ is_bare_octet octet }
{
    octet.is_ascii_uppercase()
        || octet.is_ascii_lowercase()
        || (b'-'..=b'9').contains(&octet)
        || octet == b'_'
}

// Whether each octet may stand in a bare word.
fn are_bare_octets(text: &[u8]) -> bool
    ensures { result ≡ list_all is_bare_octet text.now }
{
    text.iter().all(|octet| is_bare_octet(*octet))
}

// Whether a text begins as hex does.
fn has_hex_mark(text: &[u8]) -> bool
    ensures { result ≡ starts_with nat_eq text.now (codes "0x") }
{
    text.starts_with(b"0x")
}

/// Whether a text is a bare word: one or more of A-Z a-z 0-9 _ - . /, not beginning with `0x`.
#[tactic(auto, unfolding(crate::specs::Fields::is_bare))]
pub fn is_bare(text: &[u8]) -> bool
    ensures value { result ≡ is_bare text.now }
    ensures some { IsTrue result → 1 ≤ length text.now }
{
    !text.is_empty() && are_bare_octets(text) && !has_hex_mark(text)
}
