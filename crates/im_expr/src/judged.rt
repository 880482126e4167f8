//! What is wrong with a condition: a name that is no column, or a comparison of two types.

ghost use Rattle.std.specs.Prelude.{◌≡◌, IfOk};
ghost use Rattle.im_sqlmodel.specs.Conditions as spec;
ghost use Rattle.im_sqlmodel.specs.Options.{first_found};

use crate::lent::{kind_in, of_literal};
use crate::levels::MOST_LEVELS;
use crate::scopes::{kind_at, place_of};
use im_octet::octets::Octets;
use im_sqlmodel::answers::SqlError;
use im_sqlmodel::tables::Nameable;
use im_sqlparse::statements::{Condition, Operand};
use im_sqltype::kinds::ValueKind;
use sqlite_items::Boxed;
use std::alloc::{AllocError, Global};

/// What is wrong with a name: that it is no column's. Its only error is want of memory.
pub fn name_fault(
    alloc: Global,
    scope: &[Nameable],
    name: &[u8],
) -> Result<Option<SqlError>, AllocError>
    ensures { IfOk result (λ fault. fault ≡ spec.name_fault scope.now name.now) }
{
    match place_of(scope, name) {
        Some(_) => Ok(None),
        None => {
            let name = Octets::from_slice(alloc, name)?;
            Ok(Some(SqlError::NoColumn { name }))
        }
    }
}

fn operand_fault(
    alloc: Global,
    scope: &[Nameable],
    operand: &Operand,
) -> Result<Option<SqlError>, AllocError>
    ensures { IfOk result (λ fault. fault ≡ spec.operand_fault scope.now operand.now) }
{
    match operand {
        Operand::Column(name) => name_fault(alloc, scope, name.as_slice()),
        Operand::Literal(_) => Ok(None),
    }
}

// The kind of a side; none of NULL and of a column that isn't there.
fn operand_kind(scope: &[Nameable], operand: &Operand) -> Option<ValueKind>
    ensures { result ≡ spec.operand_kind scope.now operand.now }
{
    match operand {
        Operand::Column(name) => match place_of(scope, name.as_slice()) {
            Some(at) => Some(kind_at(scope, at)),
            None => None,
        },
        Operand::Literal(found) => kind_in(of_literal(found)),
    }
}

#[tactic(auto, unfolding(im_sqlmodel::specs::Conditions::same_value_kind))]
fn same_value_kind(a: ValueKind, b: ValueKind) -> bool
    ensures { result ≡ spec.same_value_kind a b }
{
    a == b
}

fn kinds_differ(a: Option<ValueKind>, b: Option<ValueKind>) -> bool
    ensures { result ≡ spec.kinds_differ a b }
{
    match (a, b) {
        (Some(a), Some(b)) => !same_value_kind(a, b),
        (Some(_), None) => false,
        (None, _) => false,
    }
}

fn comparison_fault(
    alloc: Global,
    scope: &[Nameable],
    left: &Operand,
    at: usize,
    right: &Operand,
) -> Result<Option<SqlError>, AllocError>
    ensures { IfOk result (λ fault. fault ≡ spec.comparison_fault scope.now left.now at right.now) }
{
    if let Some(fault) = operand_fault(alloc, scope, left)? {
        return Ok(Some(fault));
    }
    if let Some(fault) = operand_fault(alloc, scope, right)? {
        return Ok(Some(fault));
    }
    if kinds_differ(operand_kind(scope, left), operand_kind(scope, right)) {
        return Ok(Some(SqlError::Compare { at }));
    }
    Ok(None)
}

// The first fault of these conditions, whose levels are at most so many.
#[cycle(fault)]
fn first_fault(
    alloc: Global,
    scope: &[Nameable],
    conditions: &[Condition],
    levels: usize,
) -> Result<Option<SqlError>, AllocError>
    ensures { IfOk result (λ fault. fault ≡ first_found (spec.fault_to levels scope.now) conditions.now) }
{
    for condition in conditions {
        if let Some(fault) = fault_to(alloc, scope, condition, levels)? {
            return Ok(Some(fault));
        }
    }
    Ok(None)
}

// The fault of a condition in which others of at most so many levels stand.
#[cycle(fault)]
fn fault_by(
    alloc: Global,
    scope: &[Nameable],
    condition: &Condition,
    levels: usize,
) -> Result<Option<SqlError>, AllocError>
    ensures { IfOk result (λ fault. fault ≡ spec.fault_by (spec.fault_to levels scope.now) scope.now condition.now) }
{
    match condition {
        Condition::Any(inner) => first_fault(alloc, scope, inner.as_slice(), levels),
        Condition::All(inner) => first_fault(alloc, scope, inner.as_slice(), levels),
        Condition::Not(inner) => fault_to(alloc, scope, inner.get(), levels),
        Condition::Compare {
            left,
            at,
            right,
            ..
        } => comparison_fault(alloc, scope, left, *at, right),
        Condition::Nullness { column, .. } => name_fault(alloc, scope, column.as_slice()),
    }
}

// The fault of a condition of at most so many levels.
#[cycle(fault)]
fn fault_to(
    alloc: Global,
    scope: &[Nameable],
    condition: &Condition,
    levels: usize,
) -> Result<Option<SqlError>, AllocError>
    ensures { IfOk result (λ fault. fault ≡ spec.fault_to levels scope.now condition.now) }
{
    if levels == 0 {
        return Ok(None);
    }
    fault_by(alloc, scope, condition, levels - 1)
}

/// What is wrong with a condition, if there is one: from the left, the first name that is no column, or the first
/// comparison of two types. Its only error is want of memory.
pub fn filter_fault(
    alloc: Global,
    scope: &[Nameable],
    filter: &Option<Boxed<Condition>>,
) -> Result<Option<SqlError>, AllocError>
    ensures { IfOk result (λ fault. fault ≡ spec.filter_fault scope.now filter.now) }
{
    match filter {
        Some(condition) => fault_to(alloc, scope, condition.get(), MOST_LEVELS),
        None => Ok(None),
    }
}
