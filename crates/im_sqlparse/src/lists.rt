//! Lists with commas between, read once for all that stands in one.

ghost use Rattle.std.specs.Prelude.{Bool};
ghost use Rattle.im_sqlparse.specs.Input as spec;
ghost use Rattle.im_sqlparse.specs.Input.{Reader, ReadsTokens};

use crate::errors::ParseError;
use crate::kinds::Kind;
use crate::tokens::Tokens;
use sqlite_items::Items;
use std::alloc::Global;

/// What stands in a list.
pub trait Listed: Sized + Drop {
    /// The rule by which one is read. The parameter says whether `_rev` may stand where a column may.
    ghost rule: { Bool → Reader Self };

    /// Reads one.
    fn read(alloc: Global, tokens: &mut Tokens<'_>, rev: bool) -> Result<Self, ParseError>
        ensures { ReadsTokens (rule rev tokens.old) result tokens.new };
}

/// One or more, with commas between.
pub fn separated<T: Listed>(
    alloc: Global,
    tokens: &mut Tokens<'_>,
    rev: bool,
) -> Result<Items<T>, ParseError>
    ensures { ReadsTokens (spec.separated Kind.Comma (T.rule rev) tokens.old) result tokens.new }
{
    let mut found = Items::new(alloc);
    for _turn in 0..tokens.left() {
        found.push(T::read(alloc, tokens, rev)?)?;
        if !tokens.eat(Kind::Comma) {
            return Ok(found);
        }
    }
    Err(tokens.refuse())
}
