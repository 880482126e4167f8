//! The statement of a whole text.

ghost use Rattle.std.specs.Prelude.{◌≡◌};
ghost use Rattle.im_sqlparse.specs.Statements as spec;
ghost use Rattle.im_sqlparse.specs.Input.{ReadsTokens};

use crate::creations::create;
use crate::errors::ParseError;
use crate::kinds::Kind;
use crate::selects::select;
use crate::statements::{Form, Stmt};
use crate::tokens::Tokens;
use crate::writes::{delete_statement, insert, upsert};
use std::alloc::Global;

#[tactic(auto, unfolding(crate::specs::Statements::statement))]
fn statement(alloc: Global, tokens: &mut Tokens<'_>) -> Result<Form, ParseError>
    ensures { ReadsTokens (spec.statement tokens.old) result tokens.new }
{
    match tokens.peek() {
        Kind::Create => {
            tokens.take();
            create(alloc, tokens)
        }
        Kind::Upsert => {
            tokens.take();
            upsert(alloc, tokens)
        }
        Kind::Insert => {
            tokens.take();
            insert(alloc, tokens)
        }
        Kind::Delete => {
            tokens.take();
            delete_statement(alloc, tokens)
        }
        Kind::Select => {
            tokens.take();
            select(alloc, tokens)
        }
        _ => Err(tokens.refuse()),
    }
}

// A statement, one `;` if it comes next, and then the end.
#[tactic(auto, unfolding(crate::specs::Statements::whole_statement))]
fn whole_statement(alloc: Global, tokens: &mut Tokens<'_>) -> Result<Form, ParseError>
    ensures { ReadsTokens (spec.whole_statement tokens.old) result tokens.new }
{
    let found = statement(alloc, tokens)?;
    tokens.eat(Kind::Semicolon);
    match tokens.expect(Kind::End) {
        Ok(()) => Ok(found),
        Err(fault) => {
            drop(found);
            Err(fault)
        }
    }
}

// What the statement says that a text is.
#[tactic(auto, unfolding(crate::specs::Statements::statement_of))]
fn form_of(alloc: Global, text: &str) -> Result<Form, ParseError>
    ensures { spec.Parses (spec.statement_of text.now) result }
{
    let mut tokens = Tokens::new(text.as_bytes());
    whole_statement(alloc, &mut tokens)
}

/// The statement that a text is, or the first fault of it from the left. Its names are in lower case.
///
/// # Errors
///
/// `ParseError::Syntax` exactly where the text isn't in the grammar, with its first fault; else only
/// `ParseError::Memory`.
#[tactic(auto, using(crate::proofs::FormedStatements::statement_formed))]
pub fn parse(alloc: Global, text: &str) -> Result<Stmt, ParseError>
    ensures { spec.Parses (spec.statement_of text.now) result }
{
    let form = form_of(alloc, text)?;
    Ok(Stmt::new(form))
}
