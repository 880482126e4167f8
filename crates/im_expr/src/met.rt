//! Whether a row meets a condition. Logic is two-valued: NULL is a value, the least, and equal to itself.

ghost use Rattle.std.specs.Prelude.{◌≡◌};
ghost use Rattle.std.specs.List.{list_any, list_all};
ghost use Rattle.im_sqltype.specs.Orders.{value_cmp};
ghost use Rattle.im_sqlmodel.specs.Conditions as spec;
ghost use Rattle.im_expr.specs.Lent.{lent_value};

use crate::lent::{Lent, compare, is_null, of_literal};
use crate::levels::MOST_LEVELS;
use crate::scopes::value_named;
use im_sqlmodel::tables::Nameable;
use im_sqlparse::statements::{Condition, Operand, Operator};
use im_sqltype::values::Value;
use sqlite_items::Boxed;
use std::cmp::Ordering;

// The value of a side.
fn operand_value<'v>(scope: &[Nameable], row: &'v [Value], operand: &'v Operand) -> Lent<'v>
    ensures { lent_value result ≡ spec.operand_value scope.now row.now operand.now }
{
    match operand {
        Operand::Column(name) => value_named(scope, row, name.as_slice()),
        Operand::Literal(found) => of_literal(found),
    }
}

fn compares(operator: Operator, ordering: Ordering) -> bool
    ensures { result ≡ spec.compares operator ordering }
{
    match operator {
        Operator::Equal => ordering.is_eq(),
        Operator::Unequal => !ordering.is_eq(),
        Operator::Less => ordering.is_lt(),
        Operator::AtMost => !ordering.is_gt(),
        Operator::Greater => ordering.is_gt(),
        Operator::AtLeast => !ordering.is_lt(),
    }
}

// Whether the values of two sides compare so.
fn sides_compare(
    scope: &[Nameable],
    row: &[Value],
    left: &Operand,
    operator: Operator,
    right: &Operand,
) -> bool
    ensures { result ≡ spec.compares operator (value_cmp (spec.operand_value scope.now row.now left.now) (spec.operand_value scope.now row.now right.now)) }
{
    let left = operand_value(scope, row, left);
    let right = operand_value(scope, row, right);
    compares(operator, compare(left, right))
}

// Whether one of these conditions, of at most so many levels, holds.
#[cycle(met)]
fn any_met(scope: &[Nameable], row: &[Value], conditions: &[Condition], levels: usize) -> bool
    ensures { result ≡ list_any (spec.meets_to levels scope.now row.now) conditions.now }
{
    for condition in conditions {
        if meets_to(scope, row, condition, levels) {
            return true;
        }
    }
    false
}

// Whether all of these conditions, of at most so many levels, hold.
#[cycle(met)]
fn all_met(scope: &[Nameable], row: &[Value], conditions: &[Condition], levels: usize) -> bool
    ensures { result ≡ list_all (spec.meets_to levels scope.now row.now) conditions.now }
{
    for condition in conditions {
        if !meets_to(scope, row, condition, levels) {
            return false;
        }
    }
    true
}

// Whether a condition holds in which others of at most so many levels stand.
#[cycle(met)]
fn meets_by(scope: &[Nameable], row: &[Value], condition: &Condition, levels: usize) -> bool
    ensures { result ≡ spec.meets_by (spec.meets_to levels scope.now row.now) scope.now row.now condition.now }
{
    match condition {
        Condition::Any(inner) => any_met(scope, row, inner.as_slice(), levels),
        Condition::All(inner) => all_met(scope, row, inner.as_slice(), levels),
        Condition::Not(inner) => !meets_to(scope, row, inner.get(), levels),
        Condition::Compare {
            left,
            operator,
            right,
            ..
        } => sides_compare(scope, row, left, *operator, right),
        Condition::Nullness { column, negated } => {
            let null = is_null(value_named(scope, row, column.as_slice()));
            if *negated { !null } else { null }
        }
    }
}

// Whether a condition of at most so many levels holds.
#[cycle(met)]
fn meets_to(scope: &[Nameable], row: &[Value], condition: &Condition, levels: usize) -> bool
    ensures { result ≡ spec.meets_to levels scope.now row.now condition.now }
{
    if levels == 0 {
        return false;
    }
    meets_by(scope, row, condition, levels - 1)
}

/// Whether a row is one of those that are meant: that it meets the condition, if there is one. It takes no memory.
pub fn meets(scope: &[Nameable], filter: &Option<Boxed<Condition>>, row: &[Value]) -> bool
    ensures { result ≡ spec.meets scope.now filter.now row.now }
{
    match filter {
        Some(condition) => meets_to(scope, row, condition.get(), MOST_LEVELS),
        None => true,
    }
}
