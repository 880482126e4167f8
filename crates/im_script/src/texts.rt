ghost use Rattle.std.specs.Prelude.{◌≡◌, IfOk};
ghost use Rattle.im_text.specs.Finds.{Finds};
ghost use Rattle.im_script.specs.Script.{IsStatementText};

use std::alloc::{AllocError, Global};
use std::marker::Model;
use std::str;

/// A text in UTF-8 that isn't empty. A clause sees its octets.
#[derive(Drop)]
pub struct Text {
    text: String,
}

impl Model for Text {
    ghost use Rattle.std.specs.Prelude.{ℕ, List};
    ghost use Rattle.std.specs.String.{string_bytes};

    ghost Value = { List ℕ };

    ghost view = { λ s. string_bytes s.text };
}

impl Text {
    /// Lends the text.
    pub fn as_str(&self) -> &str
        ensures { result.now ≡ self.now }
    {
        self.text.as_str()
    }
}

// The text that octets are, copied, or `None` where they are empty, or aren't UTF-8.
pub(crate) fn read_text(alloc: Global, octets: &[u8]) -> Result<Option<Text>, AllocError>
    ensures { IfOk result (λ text. Finds text (IsStatementText octets.now)) }
{
    if octets.is_empty() {
        return Ok(None);
    }
    match str::from_utf8(octets) {
        Ok(text) => Ok(Some(Text {
            text: String::from_str(alloc, text)?,
        })),
        Err(_) => Ok(None),
    }
}
