//! Values that are lent, of a row or as they are written in a statement.

ghost use Rattle.std.specs.Prelude.{◌≡◌};
ghost use Rattle.im_sqltype.specs.Orders.{rank_of, value_cmp};
ghost use Rattle.im_sqlmodel.specs.Conditions.{literal_value, kind_in, is_null};
ghost use Rattle.im_expr.specs.Lent.{lent_value};

use im_sqlparse::statements::Literal;
use im_sqltype::kinds::ValueKind;
use im_sqltype::values::Value;
use std::cmp::Ordering;

/// A value that is lent.
#[derive(Clone, Copy)]
pub enum Lent<'v> {
    /// NULL.
    Null,
    /// A number.
    Integer(i64),
    /// False or true.
    Boolean(bool),
    /// A text, by its octets.
    Varchar(&'v [u8]),
    /// An octet string.
    Blob(&'v [u8]),
}

/// Lends a value.
pub fn of_value(value: &Value) -> Lent<'_>
    ensures { lent_value result ≡ value.now }
{
    match value {
        Value::Null => Lent::Null,
        Value::Integer(number) => Lent::Integer(*number),
        Value::Boolean(truth) => Lent::Boolean(*truth),
        Value::Varchar(octets) => Lent::Varchar(octets.as_slice()),
        Value::Blob(octets) => Lent::Blob(octets.as_slice()),
    }
}

/// Lends a value as it is written in a statement.
pub fn of_literal(literal: &Literal) -> Lent<'_>
    ensures { lent_value result ≡ literal_value literal.now }
{
    match literal {
        Literal::Null => Lent::Null,
        Literal::Boolean(truth) => Lent::Boolean(*truth),
        Literal::Integer(number) => Lent::Integer(*number),
        Literal::Text(octets) => Lent::Varchar(octets.as_slice()),
        Literal::Blob(octets) => Lent::Blob(octets.as_slice()),
    }
}

/// Whether it is NULL.
pub fn is_null(value: Lent<'_>) -> bool
    ensures { result ≡ is_null (lent_value value.entry) }
{
    match value {
        Lent::Null => true,
        Lent::Integer(_) => false,
        Lent::Boolean(_) => false,
        Lent::Varchar(_) => false,
        Lent::Blob(_) => false,
    }
}

/// Its kind. NULL has none.
pub fn kind_in(value: Lent<'_>) -> Option<ValueKind>
    ensures { result ≡ kind_in (lent_value value.entry) }
{
    match value {
        Lent::Null => None,
        Lent::Integer(_) => Some(ValueKind::Integer),
        Lent::Boolean(_) => Some(ValueKind::Boolean),
        Lent::Varchar(_) => Some(ValueKind::Varchar),
        Lent::Blob(_) => Some(ValueKind::Blob),
    }
}

// Where the values of its kind stand among those of others.
fn rank(value: Lent<'_>) -> u8
    ensures { result ≡ rank_of (lent_value value.entry) }
{
    match value {
        Lent::Null => 0,
        Lent::Integer(_) => 1,
        Lent::Boolean(_) => 2,
        Lent::Varchar(_) => 3,
        Lent::Blob(_) => 4,
    }
}

/// The order of values: NULL first, and equal to itself.
pub fn compare(a: Lent<'_>, b: Lent<'_>) -> Ordering
    ensures { result ≡ value_cmp (lent_value a.entry) (lent_value b.entry) }
{
    match (a, b) {
        (Lent::Integer(x), Lent::Integer(y)) => x.cmp(&y),
        (Lent::Boolean(x), Lent::Boolean(y)) => x.cmp(&y),
        (Lent::Varchar(x), Lent::Varchar(y)) => x.cmp(y),
        (Lent::Blob(x), Lent::Blob(y)) => x.cmp(y),
        _ => rank(a).cmp(&rank(b)),
    }
}
