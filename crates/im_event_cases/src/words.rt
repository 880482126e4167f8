//! The words of an event.

use crate::wrong::Wrong;
use im_octet::octets::Octets;
use im_text::octets::read_octets;
use std::alloc::Global;

/// The words of a line, one after the other. Behind the last one they are empty.
#[derive(Drop)]
pub struct Words<'t> {
    rest: &'t str,
}

impl<'t> Words<'t> {
    /// The words of a text, which blanks part.
    pub fn new(rest: &'t str) -> Self {
        Words { rest }
    }

    /// The next word.
    pub fn word(&mut self) -> &'t str {
        let (word, rest) = self.rest.split_once(' ').unwrap_or((self.rest, ""));
        self.rest = rest;
        word
    }

    /// The number that the next word says.
    pub fn number(&mut self) -> Result<u64, Wrong> {
        number(self.word())
    }

    /// The octets that the next word says.
    pub fn octets(&mut self, alloc: Global) -> Result<Octets, Wrong> {
        octets(alloc, self.word())
    }

    /// What stands behind the words so far.
    pub fn rest(&self) -> &'t str {
        self.rest
    }

    /// Whether a call fails, of which the last word tells, `fails` or none.
    pub fn fails(&mut self) -> Result<bool, Wrong> {
        match self.rest {
            "fails" => Ok(true),
            "" => Ok(false),
            _ => Err(Wrong::Event),
        }
    }
}

/// The number that decimal digits say.
pub fn number(text: &str) -> Result<u64, Wrong> {
    im_text::numbers::read_number(text.as_bytes()).ok_or(Wrong::Number)
}

/// The octets that a bare word, or `0x` and hex digits, say.
pub fn octets(alloc: Global, text: &str) -> Result<Octets, Wrong> {
    read_octets(alloc, text.as_bytes())?.ok_or(Wrong::Octets)
}
