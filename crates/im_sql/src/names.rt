//! Names in a statement: those that stand twice, and those of no column.

ghost use Rattle.std.specs.Prelude.{◌≡◌, map, position, bytes_eq, IfOk};
ghost use Rattle.std.specs.Option.{option_or};
ghost use Rattle.im_sqlmodel.specs.Creations as spec;
ghost use Rattle.im_sqlmodel.specs.Tables.{table_names};

use im_octet::octets::Octets;
use im_sqlmodel::answers::SqlError;
use im_sqlmodel::tables::Table;
use im_sqlparse::statements::{ColumnDefinition, Name};
use std::alloc::{AllocError, Global};

/// Lends names.
pub(crate) fn names_of(alloc: Global, names: &[Name]) -> Result<Vec<&[u8]>, AllocError>
    ensures { IfOk result (λ lent. map (λ n. n.now) lent.items ≡ names.now) }
{
    let mut lent = Vec::with_capacity(alloc, names.len())?;
    for name in names {
        lent.push(name.as_slice())?;
    }
    Ok(lent)
}

/// Lends the names of new columns.
pub(crate) fn names_in(
    alloc: Global,
    columns: &[ColumnDefinition],
) -> Result<Vec<&[u8]>, AllocError>
    ensures { IfOk result (λ lent. map (λ n. n.now) lent.items ≡ spec.names_in columns.now) }
{
    let mut lent = Vec::with_capacity(alloc, columns.len())?;
    for column in columns {
        lent.push(column.name.as_slice())?;
    }
    Ok(lent)
}

/// Lends the names of a table's columns.
pub(crate) fn column_names(alloc: Global, table: &Table) -> Result<Vec<&[u8]>, AllocError>
    ensures { IfOk result (λ lent. map (λ n. n.now) lent.items ≡ table_names table.now) }
{
    let columns = table.columns.as_slice();
    let mut lent = Vec::with_capacity(alloc, columns.len())?;
    for column in columns {
        lent.push(column.name.as_slice())?;
    }
    Ok(lent)
}

/// The place of a name among others, from 0, or none.
pub(crate) fn place_of(names: &[&[u8]], name: &[u8]) -> Option<usize>
    ensures { result ≡ position (bytes_eq name.now) (map (λ n. n.now) names.now) }
{
    names.iter().position(|other| name == *other)
}

/// The first name that stands earlier too, if one does. It looks at the names before each; of a table's columns one
/// stands twice among 65 names at the latest. Its only error is want of memory.
pub(crate) fn twice_fault(alloc: Global, names: &[&[u8]]) -> Result<Option<SqlError>, AllocError>
    ensures { IfOk result (λ fault. fault ≡ spec.twice_fault (map (λ n. n.now) names.now)) }
{
    for (at, name) in names.iter().enumerate() {
        if place_of(&names[..at], name).is_some() {
            let name = Octets::from_slice(alloc, name)?;
            return Ok(Some(SqlError::Twice { name }));
        }
    }
    Ok(None)
}

/// The first name that is none of these columns', if there is one. Its only error is want of memory.
pub(crate) fn column_fault(
    alloc: Global,
    columns: &[&[u8]],
    names: &[&[u8]],
) -> Result<Option<SqlError>, AllocError>
    ensures { IfOk result (λ fault. fault ≡ spec.column_fault (map (λ n. n.now) columns.now) (map (λ n. n.now) names.now)) }
{
    for name in names {
        if place_of(columns, name).is_none() {
            let name = Octets::from_slice(alloc, name)?;
            return Ok(Some(SqlError::NoColumn { name }));
        }
    }
    Ok(None)
}

/// The first of these names that is none of these columns', or else the first that stands twice. Its only error is want
/// of memory.
pub(crate) fn names_fault(
    alloc: Global,
    columns: &[&[u8]],
    names: &[Name],
) -> Result<Option<SqlError>, AllocError>
    ensures { IfOk result (λ fault. fault ≡ option_or (spec.column_fault (map (λ n. n.now) columns.now) names.now) (spec.twice_fault names.now)) }
{
    let names = names_of(alloc, names)?;
    if let Some(fault) = column_fault(alloc, columns, names.as_slice())? {
        return Ok(Some(fault));
    }
    twice_fault(alloc, names.as_slice())
}
