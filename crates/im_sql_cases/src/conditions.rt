//! Conditions.

use crate::values::{push_name, push_value};
use im_sqlparse::statements::{Condition, Name, Operand, Operator};
use sqlite_items::Boxed;
use std::alloc::AllocError;

/// Adds which rows are meant: a condition, or `all` where there is none.
pub fn push_filter(out: &mut String, filter: &Option<Boxed<Condition>>) -> Result<(), AllocError> {
    match filter {
        Some(condition) => push_condition(out, condition.get()),
        None => out.push_str("all"),
    }
}

// Adds a condition: `(any C ..)`, `(all C ..)`, `(not C)`, `(compare OPERAND OP AT OPERAND)`, `(is-null NAME)` or
// `(is-not-null NAME)`.
#[cycle(conditions)]
fn push_condition(out: &mut String, condition: &Condition) -> Result<(), AllocError> {
    match condition {
        Condition::Any(conditions) => push_conditions(out, "any", conditions.as_slice()),
        Condition::All(conditions) => push_conditions(out, "all", conditions.as_slice()),
        Condition::Not(condition) => {
            out.push_str("(not ")?;
            push_condition(out, condition.get())?;
            out.push(')')
        }
        Condition::Compare {
            left,
            operator,
            at,
            right,
        } => push_comparison(out, left, *operator, *at, right),
        Condition::Nullness { column, negated } => push_nullness(out, column, *negated),
    }
}

// Adds a list of conditions: `(WORD C ..)`.
#[cycle(conditions)]
fn push_conditions(
    out: &mut String,
    word: &str,
    conditions: &[Condition],
) -> Result<(), AllocError> {
    write!(out, "({word}")?;
    for condition in conditions {
        out.push(' ')?;
        push_condition(out, condition)?;
    }
    out.push(')')
}

fn push_comparison(
    out: &mut String,
    left: &Operand,
    operator: Operator,
    at: usize,
    right: &Operand,
) -> Result<(), AllocError> {
    out.push_str("(compare ")?;
    push_operand(out, left)?;
    let sign = sign(operator);
    write!(out, " {sign} {at} ")?;
    push_operand(out, right)?;
    out.push(')')
}

fn sign(operator: Operator) -> &'static str {
    match operator {
        Operator::Equal => "=",
        Operator::Unequal => "<>",
        Operator::Less => "<",
        Operator::AtMost => "<=",
        Operator::Greater => ">",
        Operator::AtLeast => ">=",
    }
}

// Adds a side of a comparison: `(column NAME)`, or a value.
fn push_operand(out: &mut String, operand: &Operand) -> Result<(), AllocError> {
    match operand {
        Operand::Column(name) => {
            out.push_str("(column ")?;
            push_name(out, name)?;
            out.push(')')
        }
        Operand::Literal(value) => push_value(out, value),
    }
}

fn push_nullness(out: &mut String, column: &Name, negated: bool) -> Result<(), AllocError> {
    out.push_str(if negated {
        "(is-not-null "
    } else {
        "(is-null "
    })?;
    push_name(out, column)?;
    out.push(')')
}
