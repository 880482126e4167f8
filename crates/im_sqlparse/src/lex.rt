//! Finds the token at the front of a text.

ghost use Rattle.std.specs.Prelude.{◌≡◌, ◌≢◌, ◌<◌, ◌≤◌, ◌+◌, ◌^◌, length, drop, map, slice_index, IfSome, true, false};
ghost use Rattle.std.specs.List.{prefix_len};
ghost use Rattle.std.specs.Char.{is_ascii_digit, is_ascii_hexdigit, is_ascii_alphabetic};
ghost use Rattle.std.specs.Str.{str_eq_ignore_ascii_case};
ghost use Rattle.im_sqlparse.specs.Lex as spec;

use crate::kinds::{KEYWORDS, Kind};

/// A kind, and a length in octets.
pub type Token = (Kind, usize);

// Classes of octets.
#[derive(Clone, Copy)]
enum Class {
    Blank,
    Word,
    Digit,
    Hex,
}

fn is_in(class: Class, octet: u8) -> bool
    ensures { result ≡ spec.is_in class octet }
{
    match class {
        Class::Blank => octet == b' ' || octet == b'\t',
        Class::Word => octet.is_ascii_alphanumeric() || octet == b'_',
        Class::Digit => octet.is_ascii_digit(),
        Class::Hex => octet.is_ascii_hexdigit(),
    }
}

/// Whether two kinds are one.
#[tactic(auto, unfolding(crate::specs::Lex::same_kind))]
pub fn same_kind(a: Kind, b: Kind) -> bool
    ensures value { result ≡ spec.same_kind a b }
    ensures same { result ≡ true → a ≡ b }
    ensures other { result ≡ false → a ≢ b }
{
    a == b
}

// The octet at a place, or 0 past the end.
fn octet_at(text: &[u8], at: usize) -> u8
    ensures value { result ≡ slice_index text.now at }
    ensures within { result ≢ 0 → at < length text.now }
{
    if at < text.len() { text[at] } else { 0 }
}

// How many octets in front are of the class.
fn run_len(class: Class, text: &[u8]) -> usize
    ensures value { result ≡ prefix_len (spec.is_in class) text.now }
    ensures within { result ≤ length text.now }
{
    let mut end = 0;
    while end < text.len() && is_in(class, text[end]) {
        end += 1;
    }
    end
}

fn same_word(a: &[u8], b: &[u8]) -> bool
    ensures { result ≡ str_eq_ignore_ascii_case a.now b.now }
{
    a.eq_ignore_ascii_case(b)
}

fn lookup(mut table: &[(&[u8], Kind)], word: &[u8]) -> Kind
    ensures { result ≡ spec.lookup (map (λ k. (k.0.now, k.1)) table.entry.now) word.now }
{
    while let [entry, rest @ ..] = table {
        if same_word(entry.0, word) {
            return entry.1;
        }
        table = rest;
    }
    Kind::Word
}

/// What a word that begins with a letter is: a keyword, in any case, or else `Word`.
#[tactic(auto, unfolding(crate::specs::Lex::keyword))]
pub fn keyword(word: &[u8]) -> Kind
    ensures { result ≡ spec.keyword word.now }
{
    lookup(&KEYWORDS, word)
}

#[tactic(auto, unfolding(crate::specs::Lex::word))]
fn word(text: &[u8]) -> Token
    ensures value { result ≡ spec.word text.now }
    ensures within { result.1 ≤ length text.now }
{
    let end = run_len(Class::Word, text);
    (keyword(&text[..end]), end)
}

#[tactic(auto, unfolding(crate::specs::Lex::underscored))]
fn underscored(text: &[u8]) -> Token
    ensures value { result ≡ spec.underscored text.now }
    ensures within { result.1 ≤ length text.now }
{
    let end = run_len(Class::Word, text);
    if same_word(b"_rev", &text[..end]) {
        (Kind::Rev, end)
    } else {
        (Kind::Bad, end)
    }
}

#[tactic(auto, unfolding(crate::specs::Lex::minus))]
fn minus(text: &[u8]) -> Token
    requires { 0 < length text.now }
    ensures value { result ≡ spec.minus text.now }
    ensures within { result.1 ≤ length text.now }
{
    let digits = run_len(Class::Digit, &text[1..]);
    if digits == 0 {
        (Kind::Bad, 1)
    } else {
        (Kind::Number, digits + 1)
    }
}

// The place behind the quote that closes a text, for octets that begin at 1.
fn closing(mut text: &[u8]) -> Option<usize>
    requires { length text.now < 2 ^ 63 }
    ensures value { result ≡ spec.closing false 1 text.entry.now }
    ensures within { IfSome result (λ end. (1 ≤ end) × (end ≤ length text.entry.now + 1)) }
{
    let mut is_second = false;
    let mut at = 1;
    while let [octet, rest @ ..] = text {
        if !is_second && *octet == b'\'' && octet_at(rest, 0) != b'\'' {
            return Some(at + 1);
        }
        is_second = !is_second && *octet == b'\'';
        at += 1;
        text = rest;
    }
    None
}

#[tactic(auto, unfolding(crate::specs::Lex::quoted))]
fn quoted(text: &[u8]) -> Token
    requires { 0 < length text.now }
    ensures value { result ≡ spec.quoted text.now }
    ensures within { result.1 ≤ length text.now }
{
    match closing(&text[1..]) {
        None => (Kind::Bad, 1),
        Some(end) => (Kind::Text, end),
    }
}

#[tactic(auto, unfolding(crate::specs::Lex::hex))]
fn hex(text: &[u8]) -> Token
    requires { 1 < length text.now }
    ensures value { result ≡ spec.hex text.now }
    ensures within { result.1 ≤ length text.now }
{
    let digits = run_len(Class::Hex, &text[2..]);
    if octet_at(text, digits + 2) == b'\'' && digits % 2 == 0 {
        (Kind::Hex, digits + 3)
    } else {
        (Kind::Bad, 1)
    }
}

#[tactic(auto, unfolding(crate::specs::Lex::sign))]
fn sign(octet: u8, next: u8) -> Token
    ensures value { result ≡ spec.sign octet next }
    ensures within { spec.IsShort next result.1 }
{
    match octet {
        b'(' => (Kind::Open, 1),
        b')' => (Kind::Close, 1),
        b'[' => (Kind::OpenBracket, 1),
        b']' => (Kind::CloseBracket, 1),
        b',' => (Kind::Comma, 1),
        b';' => (Kind::Semicolon, 1),
        b'*' => (Kind::Star, 1),
        b'=' => (Kind::Equal, 1),
        b'!' | b'<' | b'>' => comparison_sign(octet, next),
        _ => (Kind::Bad, 1),
    }
}

// A sign that begins with `!`, `<` or `>`.
#[tactic(auto, unfolding(crate::specs::Lex::comparison_sign))]
fn comparison_sign(octet: u8, next: u8) -> Token
    ensures value { result ≡ spec.comparison_sign octet next }
    ensures within { spec.IsShort next result.1 }
{
    match (octet, next) {
        (b'!', b'=') => (Kind::Unequal, 2),
        (b'!', _) => (Kind::Bad, 1),
        (b'<', b'=') => (Kind::AtMost, 2),
        (b'<', b'>') => (Kind::Unequal, 2),
        (b'<', _) => (Kind::Less, 1),
        (_, b'=') => (Kind::AtLeast, 2),
        _ => (Kind::Greater, 1),
    }
}

/// The token at the front of a text that doesn't begin with a blank.
#[tactic(auto, unfolding(crate::specs::Lex::token))]
pub fn token(text: &[u8]) -> Token
    ensures value { result ≡ spec.token text.now }
    ensures within { result.1 ≤ length text.now }
{
    if text.is_empty() {
        return (Kind::End, 0);
    }
    let octet = octet_at(text, 0);
    if octet == b'x' && octet_at(text, 1) == b'\'' {
        hex(text)
    } else if octet.is_ascii_alphabetic() {
        word(text)
    } else if octet == b'_' {
        underscored(text)
    } else if octet.is_ascii_digit() {
        (Kind::Number, run_len(Class::Digit, text))
    } else if octet == b'-' {
        minus(text)
    } else if octet == b'\'' {
        quoted(text)
    } else {
        sign(octet, octet_at(text, 1))
    }
}

/// The text from its first token on.
#[tactic(auto, unfolding(crate::specs::Lex::skip))]
pub fn skip(text: &[u8]) -> &[u8]
    ensures rest { result.now ≡ spec.skip text.now }
    ensures within { length result.now ≤ length text.now }
{
    &text[run_len(Class::Blank, text)..]
}
