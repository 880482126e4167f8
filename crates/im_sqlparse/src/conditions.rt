//! Conditions. `rev` says whether `_rev` may stand where a column may, and `depth` how many NOT and parentheses
//! may still stand in one another.

ghost use Rattle.std.specs.Prelude.{◌≡◌, IfOk};
ghost use Rattle.im_sqlparse.specs.Conditions as spec;
ghost use Rattle.im_sqlparse.specs.Input as input;
ghost use Rattle.im_sqlparse.specs.Input.{ReadsTokens};

use crate::errors::{ParseError, SyntaxKind};
use crate::kinds::Kind;
use crate::lex::same_kind;
use crate::statements::{Condition, Name, Operand, Operator};
use crate::tokens::Tokens;
use crate::values::{column, value};
use sqlite_items::{Boxed, Items};
use std::alloc::Global;

// How deep NOT and parentheses may stand in one another.
const MOST_DEPTH: usize = 64;

#[tactic(auto, unfolding(crate::specs::Conditions::begins_column))]
fn begins_column(rev: bool, kind: Kind) -> bool
    ensures { result ≡ spec.begins_column rev kind }
{
    same_kind(kind, Kind::Word) || (rev && same_kind(kind, Kind::Rev))
}

// One side of a comparison.
#[tactic(auto, unfolding(crate::specs::Conditions::side))]
fn side(alloc: Global, tokens: &mut Tokens<'_>, rev: bool) -> Result<Operand, ParseError>
    ensures { ReadsTokens (spec.side rev tokens.old) result tokens.new }
{
    if begins_column(rev, tokens.peek()) {
        Ok(Operand::Column(column(alloc, tokens, rev)?))
    } else {
        Ok(Operand::Literal(value(alloc, tokens)?))
    }
}

fn operator_of(kind: Kind) -> Option<Operator>
    ensures { result ≡ spec.operator_of kind }
{
    match kind {
        Kind::Equal => Some(Operator::Equal),
        Kind::Unequal => Some(Operator::Unequal),
        Kind::Less => Some(Operator::Less),
        Kind::AtMost => Some(Operator::AtMost),
        Kind::Greater => Some(Operator::Greater),
        Kind::AtLeast => Some(Operator::AtLeast),
        _ => None,
    }
}

#[tactic(auto, unfolding(crate::specs::Conditions::comparator))]
fn comparator(tokens: &mut Tokens<'_>) -> Result<Operator, ParseError>
    ensures { ReadsTokens (spec.comparator tokens.old) result tokens.new }
{
    match operator_of(tokens.peek()) {
        Some(operator) => {
            tokens.take();
            Ok(operator)
        }
        None => Err(tokens.refuse()),
    }
}

// What follows the left side of a comparison.
#[tactic(auto, unfolding(crate::specs::Conditions::compared))]
fn compared(
    alloc: Global,
    tokens: &mut Tokens<'_>,
    rev: bool,
    left: Operand,
) -> Result<Condition, ParseError>
    ensures { ReadsTokens (spec.compared rev left tokens.old) result tokens.new }
{
    let at = tokens.place();
    let operator = match comparator(tokens) {
        Ok(operator) => operator,
        Err(fault) => {
            drop(left);
            return Err(fault);
        }
    };
    match side(alloc, tokens, rev) {
        Ok(right) => Ok(Condition::Compare {
            left,
            operator,
            at,
            right,
        }),
        Err(fault) => {
            drop(left);
            Err(fault)
        }
    }
}

// What follows a column and IS.
#[tactic(auto, unfolding(crate::specs::Conditions::nullness))]
fn nullness(tokens: &mut Tokens<'_>, column: Name) -> Result<Condition, ParseError>
    ensures { ReadsTokens (spec.nullness column tokens.old) result tokens.new }
{
    let negated = tokens.eat(Kind::Not);
    tokens.expect(Kind::Null)?;
    Ok(Condition::Nullness { column, negated })
}

// What follows a column.
#[tactic(auto, unfolding(crate::specs::Conditions::of_column))]
fn of_column(
    alloc: Global,
    tokens: &mut Tokens<'_>,
    rev: bool,
    column: Name,
) -> Result<Condition, ParseError>
    ensures { ReadsTokens (spec.of_column rev column tokens.old) result tokens.new }
{
    if tokens.eat(Kind::Is) {
        nullness(tokens, column)
    } else {
        compared(alloc, tokens, rev, Operand::Column(column))
    }
}

// A comparison, or a column that is NULL or isn't.
#[tactic(auto, unfolding(crate::specs::Conditions::comparison))]
fn comparison(alloc: Global, tokens: &mut Tokens<'_>, rev: bool) -> Result<Condition, ParseError>
    ensures { ReadsTokens (spec.comparison rev tokens.old) result tokens.new }
{
    if begins_column(rev, tokens.peek()) {
        let column = column(alloc, tokens, rev)?;
        of_column(alloc, tokens, rev, column)
    } else {
        let left = Operand::Literal(value(alloc, tokens)?);
        compared(alloc, tokens, rev, left)
    }
}

#[tactic(auto, unfolding(crate::specs::Conditions::opens))]
fn opens(kind: Kind) -> bool
    ensures { result ≡ spec.opens kind }
{
    same_kind(kind, Kind::Not) || same_kind(kind, Kind::Open)
}

// Factors with AND between.
#[cycle(condition)]
fn conjunction(
    alloc: Global,
    tokens: &mut Tokens<'_>,
    rev: bool,
    depth: usize,
) -> Result<Condition, ParseError>
    ensures { ReadsTokens (spec.conjunction (spec.factor rev depth) tokens.old) result tokens.new }
{
    let mut found = Items::new(alloc);
    for _turn in 0..tokens.left() {
        found.push(factor(alloc, tokens, rev, depth)?)?;
        if !tokens.eat(Kind::And) {
            return Ok(Condition::All(found));
        }
    }
    Err(tokens.refuse())
}

// Conjunctions with OR between.
#[cycle(condition)]
fn disjunction(
    alloc: Global,
    tokens: &mut Tokens<'_>,
    rev: bool,
    depth: usize,
) -> Result<Condition, ParseError>
    ensures { ReadsTokens (spec.disjunction (spec.factor rev depth) tokens.old) result tokens.new }
{
    let mut found = Items::new(alloc);
    for _turn in 0..tokens.left() {
        found.push(conjunction(alloc, tokens, rev, depth)?)?;
        if !tokens.eat(Kind::Or) {
            return Ok(Condition::Any(found));
        }
    }
    Err(tokens.refuse())
}

// Behind NOT.
#[cycle(condition)]
fn negation(
    alloc: Global,
    tokens: &mut Tokens<'_>,
    rev: bool,
    depth: usize,
) -> Result<Condition, ParseError>
    ensures { ReadsTokens (spec.negation (spec.factor rev depth) tokens.old) result tokens.new }
{
    let inner = factor(alloc, tokens, rev, depth)?;
    Ok(Condition::Not(Boxed::new(alloc, inner)?))
}

// Behind an opening parenthesis.
#[cycle(condition)]
fn nested(
    alloc: Global,
    tokens: &mut Tokens<'_>,
    rev: bool,
    depth: usize,
) -> Result<Condition, ParseError>
    ensures { ReadsTokens (spec.nested (spec.factor rev depth) tokens.old) result tokens.new }
{
    let found = disjunction(alloc, tokens, rev, depth)?;
    match tokens.expect(Kind::Close) {
        Ok(()) => Ok(found),
        Err(fault) => {
            drop(found);
            Err(fault)
        }
    }
}

// NOT or a parenthesis, in which factors of this depth stand.
#[cycle(condition)]
fn deeper(
    alloc: Global,
    tokens: &mut Tokens<'_>,
    rev: bool,
    depth: usize,
) -> Result<Condition, ParseError>
    ensures { ReadsTokens (spec.deeper (spec.factor rev depth) tokens.old) result tokens.new }
{
    if tokens.eat(Kind::Not) {
        return negation(alloc, tokens, rev, depth);
    }
    tokens.take();
    nested(alloc, tokens, rev, depth)
}

// A factor in which so many NOT and parentheses may stand in one another.
#[cycle(condition)]
fn factor(
    alloc: Global,
    tokens: &mut Tokens<'_>,
    rev: bool,
    depth: usize,
) -> Result<Condition, ParseError>
    ensures { ReadsTokens (spec.factor rev depth tokens.old) result tokens.new }
{
    if !opens(tokens.peek()) {
        return comparison(alloc, tokens, rev);
    }
    if depth == 0 {
        return Err(tokens.fault(SyntaxKind::Deep));
    }
    deeper(alloc, tokens, rev, depth - 1)
}

/// A condition behind WHERE, if that comes next.
#[tactic(auto, unfolding(crate::specs::Conditions::filter, crate::specs::Conditions::whole_condition))]
pub fn filter(
    alloc: Global,
    tokens: &mut Tokens<'_>,
    rev: bool,
) -> Result<Option<Boxed<Condition>>, ParseError>
    ensures { ReadsTokens (spec.filter rev tokens.old) result tokens.new }
{
    if !tokens.eat(Kind::Where) {
        return Ok(None);
    }
    let found = disjunction(alloc, tokens, rev, MOST_DEPTH)?;
    Ok(Some(Boxed::new(alloc, found)?))
}
