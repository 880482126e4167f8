//! Lines of a text, each ended by LF.
ghost use Rattle.std.specs.Prelude.{◌≡◌, [], ◌∷◌, ◌++◌, IfOk};
ghost use Rattle.im_text.specs.Lines.{AreTexts};

use im_octet::octets::Octets;
use im_text::cuts::first_line;
use std::alloc::{AllocError, Global};

/// A copy of the text of each line, without its LF. The last line may lack its LF where it isn't empty.
pub fn texts_of(alloc: Global, octets: &[u8]) -> Result<Vec<Octets>, AllocError>
    ensures { IfOk result (λ texts. AreTexts octets.now texts.items) }
{
    let mut texts = Vec::new(alloc);
    let mut rest = octets;
    while !rest.is_empty() {
        let (text, behind) = first_line(rest);
        texts.push(Octets::from_slice(alloc, text)?)?;
        rest = behind;
    }
    Ok(texts)
}

/// A line: its text, and LF.
pub fn line_of(alloc: Global, text: &[u8]) -> Result<Vec<u8>, AllocError>
    ensures { IfOk result (λ line. line.items ≡ text.now ++ 10 ∷ []) }
{
    let mut line = Vec::from_slice(alloc, text)?;
    line.push(b'\n')?;
    Ok(line)
}
