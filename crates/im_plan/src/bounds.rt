//! What a condition says that columns equal: in each row that meets it, such a column has that value. NULL is a value.

ghost use Rattle.std.specs.Prelude.{◌≡◌, ◌++◌, IfOk, OnOk, length, bytes_eq, if◌then◌else◌};
ghost use Rattle.std.specs.Option.{option_map};
ghost use Rattle.im_sqltype.specs.Texts.{row_text, value_text};
ghost use Rattle.im_sqltype.specs.declared.values.Value.TheVariants as values;
ghost use Rattle.im_sqlmodel.specs.Conditions.{literal_value};
ghost use Rattle.im_expr.specs.Lent.{lent_value};
ghost use Rattle.im_plan.specs.Bounds as spec;

use im_expr::lent::{Lent, of_literal};
use im_octet::octets::Octets;
use im_octet::writer::Writer;
use im_sqlmodel::tables::Table;
use im_sqlparse::statements::{Condition, Literal, Operand, Operator};
use im_sqltype::texts::value_text;
use im_sqltype::values::Value;
use sqlite_items::Boxed;
use std::alloc::{AllocError, Global};

/// The conditions that each row which is meant meets: those of an AND-list that stands alone.
pub(crate) fn conjuncts(filter: &Option<Boxed<Condition>>) -> &[Condition]
    ensures { result.now ≡ spec.conjuncts filter.now }
{
    match filter {
        Some(condition) => only_listed(condition.get()),
        None => &[],
    }
}

// Those of the only AND-list of an OR-list.
fn only_listed(condition: &Condition) -> &[Condition]
    ensures { result.now ≡ spec.only_listed_in condition.now }
{
    match condition {
        Condition::Any(lists) => match lists.as_slice() {
            [only] => listed(only),
            _ => &[],
        },
        _ => &[],
    }
}

fn listed(condition: &Condition) -> &[Condition]
    ensures { result.now ≡ spec.listed_in condition.now }
{
    match condition {
        Condition::All(conditions) => conditions.as_slice(),
        _ => &[],
    }
}

// The value that a comparison by `=` says a column is.
fn bound_by_sides<'c>(name: &[u8], left: &'c Operand, right: &'c Operand) -> Option<Lent<'c>>
    ensures { option_map lent_value result ≡ spec.bound_by_sides name.now left.now right.now }
{
    match (left, right) {
        (Operand::Column(column), Operand::Literal(found)) => {
            literal_of(name, column.as_slice(), found)
        }
        (Operand::Literal(found), Operand::Column(column)) => {
            literal_of(name, column.as_slice(), found)
        }
        _ => None,
    }
}

// A literal, where the column beside it is the one of this name.
fn literal_of<'c>(name: &[u8], column: &[u8], found: &'c Literal) -> Option<Lent<'c>>
    ensures { option_map lent_value result ≡ (if bytes_eq column.now name.now then Some (literal_value found.now) else None) }
{
    if column == name {
        Some(of_literal(found))
    } else {
        None
    }
}

// The value that a condition says a column is.
fn bound_by<'c>(name: &[u8], condition: &'c Condition) -> Option<Lent<'c>>
    ensures { option_map lent_value result ≡ spec.bound_by name.now condition.now }
{
    match condition {
        Condition::Compare {
            left,
            operator: Operator::Equal,
            right,
            ..
        } => bound_by_sides(name, left, right),
        Condition::Nullness {
            column,
            negated: false,
        } => null_of(name, column.as_slice()),
        _ => None,
    }
}

// NULL, where the column is the one of this name.
fn null_of<'c>(name: &[u8], column: &[u8]) -> Option<Lent<'c>>
    ensures { option_map lent_value result ≡ (if bytes_eq column.now name.now then Some values.Null else None) }
{
    if column == name {
        Some(Lent::Null)
    } else {
        None
    }
}

/// The first value that one of these conditions says a column is.
pub(crate) fn bound<'c>(conjuncts: &'c [Condition], name: &[u8]) -> Option<Lent<'c>>
    ensures { option_map lent_value result ≡ spec.bound conjuncts.now name.now }
{
    for condition in conjuncts {
        if let Some(value) = bound_by(name, condition) {
            return Some(value);
        }
    }
    None
}

// The value that these conditions say the column of a number is.
fn bound_at<'c>(table: &Table, conjuncts: &'c [Condition], number: u16) -> Option<Lent<'c>>
    ensures { option_map lent_value result ≡ spec.bound conjuncts.now (spec.name_at table.now number) }
{
    let columns = table.columns.as_slice();
    let number = number as usize;
    if number < columns.len() {
        bound(conjuncts, columns[number].name.as_slice())
    } else {
        bound(conjuncts, &[])
    }
}

/// How many of these columns, by their numbers, are bound before the first that isn't.
pub(crate) fn leading_count(table: &Table, conjuncts: &[Condition], numbers: &[u16]) -> usize
    ensures { result ≡ length (spec.leading conjuncts.now table.now numbers.now) }
{
    for (count, number) in numbers.iter().enumerate() {
        if bound_at(table, conjuncts, *number).is_none() {
            return count;
        }
    }
    numbers.len()
}

// A copy of a value that is lent.
fn owned(alloc: Global, value: Lent<'_>) -> Result<Value, AllocError>
    ensures { IfOk result (λ copy. copy ≡ lent_value value.entry) }
{
    match value {
        Lent::Null => Ok(Value::Null),
        Lent::Integer(number) => Ok(Value::Integer(number)),
        Lent::Boolean(truth) => Ok(Value::Boolean(truth)),
        Lent::Varchar(octets) => Ok(Value::Varchar(Octets::from_slice(alloc, octets)?)),
        Lent::Blob(octets) => Ok(Value::Blob(Octets::from_slice(alloc, octets)?)),
    }
}

// The text of a value that is lent.
fn lent_text(alloc: Global, value: Lent<'_>) -> Result<Octets, AllocError>
    ensures { IfOk result (λ text. text ≡ value_text (lent_value value.entry)) }
{
    let copy = owned(alloc, value)?;
    let text = value_text(alloc, &copy);
    drop(copy);
    text
}

/// Writes the texts of the values that the leading ones of these columns are bound to. Where memory is short, a part of
/// them may be written.
pub(crate) fn push_leading(
    alloc: Global,
    out: &mut Writer,
    table: &Table,
    conjuncts: &[Condition],
    numbers: &[u16],
) -> Result<(), AllocError>
    ensures { OnOk result (out.new ≡ out.old ++ row_text (spec.leading conjuncts.now table.now numbers.now)) }
{
    for number in numbers {
        let Some(value) = bound_at(table, conjuncts, *number) else {
            return Ok(());
        };
        let text = lent_text(alloc, value)?;
        out.octets(text.as_slice())?;
    }
    Ok(())
}
