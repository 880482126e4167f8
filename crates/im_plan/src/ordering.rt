//! Rows in the order of an ORDER BY.

ghost use Rattle.std.specs.Prelude.{◌≡◌, OnOk};
ghost use Rattle.im_sqlmodel.specs.Selects as spec;
ghost use Rattle.im_sqlmodel.specs.Sorts.{sorted};

use im_expr::lent::compare;
use im_expr::scopes::value_named;
use im_sqlmodel::tables::Nameable;
use im_sqlparse::statements::OrderTerm;
use im_sqltype::rows::Row;
use im_sqltype::values::Value;
use std::alloc::AllocError;
use std::cmp::Ordering;

fn directed(descending: bool, ordering: Ordering) -> Ordering
    ensures { result ≡ spec.directed descending ordering }
{
    if descending {
        ordering.reverse()
    } else {
        ordering
    }
}

// The order of two rows by one term.
fn term_cmp(scope: &[Nameable], term: &OrderTerm, a: &[Value], b: &[Value]) -> Ordering
    ensures { result ≡ spec.term_cmp scope.now term.now a.now b.now }
{
    let left = value_named(scope, a, term.column.as_slice());
    let right = value_named(scope, b, term.column.as_slice());
    directed(term.descending, compare(left, right))
}

// The order of two rows: the first term in which they differ decides.
fn terms_cmp(scope: &[Nameable], terms: &[OrderTerm], a: &[Value], b: &[Value]) -> Ordering
    ensures { result ≡ spec.terms_cmp scope.now terms.now a.now b.now }
{
    for term in terms {
        let ordering = term_cmp(scope, term, a, b);
        if !ordering.is_eq() {
            return ordering;
        }
    }
    Ordering::Equal
}

/// Sorts rows by the terms of an ORDER BY. Rows that tie stay as they stood. Its only error is want of memory; the rows
/// then stand as they were.
pub(crate) fn sort_rows(
    scope: &[Nameable],
    terms: &[OrderTerm],
    rows: &mut Vec<Row>,
) -> Result<(), AllocError>
    ensures { OnOk result (rows.new.items ≡ sorted (spec.terms_cmp scope.now terms.now) rows.old.items) }
{
    rows.sort_by(|a, b| terms_cmp(scope, terms, a.as_slice(), b.as_slice()))
}
