//! SELECT.

ghost use Rattle.std.specs.Prelude.{◌≡◌, Bool};
ghost use Rattle.im_sqlparse.specs.Statements as spec;
ghost use Rattle.im_sqlparse.specs.Input as input;
ghost use Rattle.im_sqlparse.specs.Input.{ReadsTokens};
ghost use Rattle.im_sqlparse.specs.Values as values;

use crate::conditions::filter;
use crate::errors::ParseError;
use crate::kinds::Kind;
use crate::lists::{Listed, separated};
use crate::numbers::number;
use crate::statements::{Form, Name, OrderTerm, Period, Select};
use crate::tokens::Tokens;
use crate::values::{column, name};
use sqlite_items::Items;
use std::alloc::Global;

// The columns that are shown: `*` is all.
#[tactic(auto, unfolding(crate::specs::Statements::select_list))]
fn select_list(alloc: Global, tokens: &mut Tokens<'_>) -> Result<Option<Items<Name>>, ParseError>
    ensures { ReadsTokens (spec.select_list tokens.old) result tokens.new }
{
    if tokens.eat(Kind::Star) {
        return Ok(None);
    }
    let columns = separated::<Items<u8>>(alloc, tokens, true)?;
    Ok(Some(columns))
}

// A table, and whether its history is meant.
#[tactic(auto, unfolding(crate::specs::Statements::source))]
fn source(alloc: Global, tokens: &mut Tokens<'_>) -> Result<(Name, bool), ParseError>
    ensures { ReadsTokens (spec.source tokens.old) result tokens.new }
{
    if !tokens.eat(Kind::Open) {
        return Ok((name(alloc, tokens)?, false));
    }
    tokens.expect(Kind::History)?;
    tokens.expect(Kind::Of)?;
    let table = name(alloc, tokens)?;
    tokens.expect(Kind::Close)?;
    Ok((table, true))
}

// Behind BEFORE.
fn before(tokens: &mut Tokens<'_>) -> Result<Period, ParseError>
    ensures { ReadsTokens (input.and_then (input.expect Kind.Tx tokens.old) (λ _ i. input.and_then (values.number 1 spec.most_number i) (λ n. input.pure (Period.Before n)))) result tokens.new }
{
    tokens.expect(Kind::Tx)?;
    Ok(Period::Before(number(tokens, 1, u64::MAX)?))
}

// Behind UNTIL.
fn until(tokens: &mut Tokens<'_>) -> Result<Period, ParseError>
    ensures { ReadsTokens (input.and_then (input.expect Kind.Tx tokens.old) (λ _ i. input.and_then (values.number 0 spec.most_number i) (λ n. input.pure (Period.Until n)))) result tokens.new }
{
    tokens.expect(Kind::Tx)?;
    Ok(Period::Until(number(tokens, 0, u64::MAX)?))
}

#[tactic(auto, unfolding(crate::specs::Statements::when))]
fn when(tokens: &mut Tokens<'_>) -> Result<Period, ParseError>
    ensures { ReadsTokens (spec.when tokens.old) result tokens.new }
{
    match tokens.peek() {
        Kind::Before => {
            tokens.take();
            before(tokens)
        }
        Kind::Until => {
            tokens.take();
            until(tokens)
        }
        _ => Ok(Period::Now),
    }
}

// A column, and whether the greatest comes first.
#[tactic(auto, unfolding(crate::specs::Statements::order_term))]
fn order_term(alloc: Global, tokens: &mut Tokens<'_>) -> Result<OrderTerm, ParseError>
    ensures { ReadsTokens (spec.order_term tokens.old) result tokens.new }
{
    let column = column(alloc, tokens, true)?;
    let descending = tokens.eat(Kind::Desc);
    if !descending {
        tokens.eat(Kind::Asc);
    }
    Ok(OrderTerm { column, descending })
}

impl Listed for OrderTerm {
    ghost rule = { λ _. spec.order_term };

    fn read(alloc: Global, tokens: &mut Tokens<'_>, _: bool) -> Result<Self, ParseError> {
        order_term(alloc, tokens)
    }
}

#[tactic(auto, unfolding(crate::specs::Statements::order))]
fn order(alloc: Global, tokens: &mut Tokens<'_>) -> Result<Items<OrderTerm>, ParseError>
    ensures { ReadsTokens (spec.order tokens.old) result tokens.new }
{
    if !tokens.eat(Kind::Order) {
        return Ok(Items::new(alloc));
    }
    tokens.expect(Kind::By)?;
    separated::<OrderTerm>(alloc, tokens, true)
}

// A number behind a keyword, if that comes next.
#[tactic(auto, unfolding(crate::specs::Statements::count_behind))]
fn count_behind(tokens: &mut Tokens<'_>, word: Kind) -> Result<Option<u64>, ParseError>
    ensures { ReadsTokens (spec.count_behind word tokens.old) result tokens.new }
{
    if !tokens.eat(word) {
        return Ok(None);
    }
    Ok(Some(number(tokens, 0, u64::MAX)?))
}

/// Behind SELECT.
#[tactic(auto, unfolding(crate::specs::Statements::select))]
pub fn select(alloc: Global, tokens: &mut Tokens<'_>) -> Result<Form, ParseError>
    ensures { ReadsTokens (spec.select tokens.old) result tokens.new }
{
    let columns = select_list(alloc, tokens)?;
    tokens.expect(Kind::From)?;
    let (table, history) = source(alloc, tokens)?;
    let period = when(tokens)?;
    let filter = filter(alloc, tokens, true)?;
    let order = order(alloc, tokens)?;
    let limit = count_behind(tokens, Kind::Limit)?;
    let offset = count_behind(tokens, Kind::Offset)?;
    Ok(Form::Select(Select {
        columns,
        table,
        history,
        period,
        filter,
        order,
        limit,
        offset,
    }))
}
