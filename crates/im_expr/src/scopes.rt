//! The columns that a statement may name, and their values in a row.

ghost use Rattle.std.specs.Prelude.{◌≡◌, IfOk, map, slice_index_or};
ghost use Rattle.im_sqltype.specs.declared.values.Value.TheVariants as values;
ghost use Rattle.im_sqlmodel.specs.Conditions as spec;
ghost use Rattle.im_expr.specs.Lent.{lent_value};

use crate::lent::{Lent, of_value};
use im_octet::octets::Octets;
use im_sqlmodel::tables::{Column, Nameable, Table};
use im_sqltype::kinds::ValueKind;
use im_sqltype::values::Value;
use sqlite_items::Items;
use std::alloc::{AllocError, Global};

/// The columns of a table that may be named, and of its history `_rev` behind them. It copies their names. Its only
/// error is want of memory.
pub fn scope_of(alloc: Global, table: &Table, history: bool) -> Result<Items<Nameable>, AllocError>
    ensures { IfOk result (λ scope. scope ≡ spec.scope_of table.now history) }
{
    let mut scope = columns_named(alloc, table.columns.as_slice())?;
    if history {
        let name = Octets::from_slice(alloc, b"_rev")?;
        scope.push(Nameable {
            name,
            kind: ValueKind::Integer,
        })?;
    }
    Ok(Items::from_vec(scope))
}

fn columns_named(alloc: Global, columns: &[Column]) -> Result<Vec<Nameable>, AllocError>
    ensures { IfOk result (λ named. named.items ≡ map spec.named_of columns.now) }
{
    let mut named = Vec::new(alloc);
    for column in columns {
        let name = Octets::from_slice(alloc, column.name.as_slice())?;
        named.push(Nameable {
            name,
            kind: column.holds.kind(),
        })?;
    }
    Ok(named)
}

/// The place of the column of a name, from 0.
pub fn place_of(scope: &[Nameable], name: &[u8]) -> Option<usize>
    ensures { result ≡ spec.place_of scope.now name.now }
{
    scope.iter().position(|named| named.name.as_slice() == name)
}

/// The kind of the column at a place. `Integer` where there is none.
pub fn kind_at(scope: &[Nameable], at: usize) -> ValueKind
    ensures { result ≡ (slice_index_or scope.now at spec.no_column).kind }
{
    if at < scope.len() {
        scope[at].kind
    } else {
        ValueKind::Integer
    }
}

// Lends the value at a place, or NULL past the end.
fn cell_at(row: &[Value], at: usize) -> Lent<'_>
    ensures { lent_value result ≡ slice_index_or row.now at values.Null }
{
    if at < row.len() {
        of_value(&row[at])
    } else {
        Lent::Null
    }
}

/// Lends the value of a column by its name, or NULL where there is none.
pub fn value_named<'v>(scope: &[Nameable], row: &'v [Value], name: &[u8]) -> Lent<'v>
    ensures { lent_value result ≡ spec.value_named scope.now row.now name.now }
{
    match place_of(scope, name) {
        Some(at) => cell_at(row, at),
        None => Lent::Null,
    }
}
