//! Statements that begin with CREATE.

ghost use Rattle.std.specs.Prelude.{◌≡◌};
ghost use Rattle.im_sqlparse.specs.Statements as spec;
ghost use Rattle.im_sqlparse.specs.Input.{ReadsTokens};

use crate::errors::{ParseError, SyntaxKind};
use crate::kinds::Kind;
use crate::numbers::number;
use crate::statements::{ColumnDefinition, CreateIndex, CreateTable, DeclaredType, Form, Name};
use crate::tokens::Tokens;
use crate::values::{name, names};
use sqlite_items::Items;
use std::alloc::Global;

// The most columns of a table.
const MOST_COLUMNS: usize = 64;

// The most octets of a text or a blob, which is also what a column holds where no number is given.
const MOST_OCTETS: u64 = 1024;

// The number of octets in brackets, if they come next.
#[tactic(auto, unfolding(crate::specs::Statements::size))]
fn size(tokens: &mut Tokens<'_>) -> Result<u64, ParseError>
    ensures { ReadsTokens (spec.size tokens.old) result tokens.new }
{
    if !tokens.eat(Kind::OpenBracket) {
        return Ok(MOST_OCTETS);
    }
    let octets = number(tokens, 1, MOST_OCTETS)?;
    tokens.expect(Kind::CloseBracket)?;
    Ok(octets)
}

#[tactic(auto, unfolding(crate::specs::Statements::column_type))]
fn column_type(tokens: &mut Tokens<'_>) -> Result<DeclaredType, ParseError>
    ensures { ReadsTokens (spec.column_type tokens.old) result tokens.new }
{
    match tokens.peek() {
        Kind::Integer => {
            tokens.take();
            Ok(DeclaredType::Integer)
        }
        Kind::Boolean => {
            tokens.take();
            Ok(DeclaredType::Boolean)
        }
        Kind::Varchar => {
            tokens.take();
            Ok(DeclaredType::Varchar(size(tokens)?))
        }
        Kind::Blob => {
            tokens.take();
            Ok(DeclaredType::Blob(size(tokens)?))
        }
        _ => Err(tokens.refuse()),
    }
}

#[tactic(auto, unfolding(crate::specs::Statements::not_null))]
fn not_null(tokens: &mut Tokens<'_>) -> Result<bool, ParseError>
    ensures { ReadsTokens (spec.not_null tokens.old) result tokens.new }
{
    if !tokens.eat(Kind::Not) {
        return Ok(false);
    }
    tokens.expect(Kind::Null)?;
    Ok(true)
}

// The name of a column behind so many others.
#[tactic(auto, unfolding(crate::specs::Statements::new_column))]
fn new_column(alloc: Global, tokens: &mut Tokens<'_>, count: usize) -> Result<Name, ParseError>
    ensures { ReadsTokens (spec.new_column count tokens.old) result tokens.new }
{
    let too_many = tokens.fault(SyntaxKind::Number);
    let found = name(alloc, tokens)?;
    if count >= MOST_COLUMNS {
        return Err(too_many);
    }
    Ok(found)
}

#[tactic(auto, unfolding(crate::specs::Statements::definition))]
fn definition(
    alloc: Global,
    tokens: &mut Tokens<'_>,
    count: usize,
) -> Result<ColumnDefinition, ParseError>
    ensures { ReadsTokens (spec.definition count tokens.old) result tokens.new }
{
    let name = new_column(alloc, tokens, count)?;
    let holds = column_type(tokens)?;
    let not_null = not_null(tokens)?;
    Ok(ColumnDefinition {
        name,
        holds,
        not_null,
    })
}

// Definitions up to PRIMARY, each with a comma behind it.
#[tactic(auto, unfolding(crate::specs::Statements::definitions))]
fn definitions(
    alloc: Global,
    tokens: &mut Tokens<'_>,
) -> Result<Items<ColumnDefinition>, ParseError>
    ensures { ReadsTokens (spec.definitions tokens.old) result tokens.new }
{
    let mut found = Items::new(alloc);
    for _turn in 0..tokens.left() {
        found.push(definition(alloc, tokens, found.len())?)?;
        tokens.expect(Kind::Comma)?;
        if tokens.eat(Kind::Primary) {
            return Ok(found);
        }
    }
    Err(tokens.refuse())
}

// The columns of a primary key, behind PRIMARY KEY.
#[tactic(auto, unfolding(crate::specs::Statements::key))]
fn key(alloc: Global, tokens: &mut Tokens<'_>) -> Result<Items<Name>, ParseError>
    ensures { ReadsTokens (spec.key tokens.old) result tokens.new }
{
    if tokens.sees(Kind::Open) {
        return names(alloc, tokens);
    }
    let mut found = Items::new(alloc);
    found.push(name(alloc, tokens)?)?;
    Ok(found)
}

#[tactic(auto, unfolding(crate::specs::Statements::if_not_exists))]
fn if_not_exists(tokens: &mut Tokens<'_>) -> Result<bool, ParseError>
    ensures { ReadsTokens (spec.if_not_exists tokens.old) result tokens.new }
{
    if !tokens.eat(Kind::If) {
        return Ok(false);
    }
    tokens.expect(Kind::Not)?;
    tokens.expect(Kind::Exists)?;
    Ok(true)
}

// Behind CREATE TABLE.
#[tactic(auto, unfolding(crate::specs::Statements::create_table))]
fn create_table(alloc: Global, tokens: &mut Tokens<'_>) -> Result<Form, ParseError>
    ensures { ReadsTokens (spec.create_table tokens.old) result tokens.new }
{
    let if_not_exists = if_not_exists(tokens)?;
    let table = name(alloc, tokens)?;
    tokens.expect(Kind::Open)?;
    let columns = definitions(alloc, tokens)?;
    tokens.expect(Kind::Key)?;
    let key = key(alloc, tokens)?;
    tokens.expect(Kind::Close)?;
    Ok(Form::CreateTable(CreateTable {
        if_not_exists,
        table,
        columns,
        key,
    }))
}

// Behind CREATE INDEX.
#[tactic(auto, unfolding(crate::specs::Statements::create_index))]
fn create_index(alloc: Global, tokens: &mut Tokens<'_>, unique: bool) -> Result<Form, ParseError>
    ensures { ReadsTokens (spec.create_index unique tokens.old) result tokens.new }
{
    tokens.expect(Kind::On)?;
    let table = name(alloc, tokens)?;
    let columns = names(alloc, tokens)?;
    Ok(Form::CreateIndex(CreateIndex {
        unique,
        table,
        columns,
    }))
}

/// Behind CREATE.
#[tactic(auto, unfolding(crate::specs::Statements::create))]
pub fn create(alloc: Global, tokens: &mut Tokens<'_>) -> Result<Form, ParseError>
    ensures { ReadsTokens (spec.create tokens.old) result tokens.new }
{
    match tokens.peek() {
        Kind::Table => {
            tokens.take();
            create_table(alloc, tokens)
        }
        Kind::Index => {
            tokens.take();
            create_index(alloc, tokens, false)
        }
        Kind::Unique => {
            tokens.take();
            tokens.expect(Kind::Index)?;
            create_index(alloc, tokens, true)
        }
        _ => Err(tokens.refuse()),
    }
}
