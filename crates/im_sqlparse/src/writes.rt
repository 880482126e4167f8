//! Statements that write rows.

ghost use Rattle.std.specs.Prelude.{◌≡◌};
ghost use Rattle.im_sqlparse.specs.Statements as spec;
ghost use Rattle.im_sqlparse.specs.Input as input;
ghost use Rattle.im_sqlparse.specs.Input.{ReadsTokens};

use crate::conditions::filter;
use crate::errors::ParseError;
use crate::kinds::Kind;
use crate::lists::separated;
use crate::statements::{Delete, Form, Insertion, Literal};
use crate::tokens::Tokens;
use crate::values::{name, names};
use sqlite_items::Items;
use std::alloc::Global;

// Behind UPSERT or INSERT.
#[tactic(auto, unfolding(crate::specs::Statements::insertion))]
fn insertion(alloc: Global, tokens: &mut Tokens<'_>) -> Result<Insertion, ParseError>
    ensures { ReadsTokens (spec.insertion tokens.old) result tokens.new }
{
    tokens.expect(Kind::Into)?;
    let table = name(alloc, tokens)?;
    let columns = names(alloc, tokens)?;
    tokens.expect(Kind::Values)?;
    let rows = separated::<Items<Literal>>(alloc, tokens, false)?;
    Ok(Insertion {
        table,
        columns,
        rows,
    })
}

/// Behind UPSERT.
pub fn upsert(alloc: Global, tokens: &mut Tokens<'_>) -> Result<Form, ParseError>
    ensures { ReadsTokens (input.and_then (spec.insertion tokens.old) (λ rows. input.pure (Form.Upsert rows))) result tokens.new }
{
    Ok(Form::Upsert(insertion(alloc, tokens)?))
}

/// Behind INSERT.
pub fn insert(alloc: Global, tokens: &mut Tokens<'_>) -> Result<Form, ParseError>
    ensures { ReadsTokens (input.and_then (spec.insertion tokens.old) (λ rows. input.pure (Form.Insert rows))) result tokens.new }
{
    Ok(Form::Insert(insertion(alloc, tokens)?))
}

/// Behind DELETE.
#[tactic(auto, unfolding(crate::specs::Statements::delete_statement))]
pub fn delete_statement(alloc: Global, tokens: &mut Tokens<'_>) -> Result<Form, ParseError>
    ensures { ReadsTokens (spec.delete_statement tokens.old) result tokens.new }
{
    tokens.expect(Kind::From)?;
    let table = name(alloc, tokens)?;
    let filter = filter(alloc, tokens, false)?;
    Ok(Form::Delete(Delete { table, filter }))
}
