//! The way to the rows that a condition means.

ghost use Rattle.std.specs.Prelude.{◌≡◌, ◌≤◌, ◌<◌, ◌++◌, All, IfOk, IfSome, IfNone, length, take};
ghost use Rattle.im_sqltype.specs.Texts.{row_text};
ghost use Rattle.im_sqlmodel.specs.Keys.{rows_prefix};
ghost use Rattle.im_catalog.specs.Rows.{entries_prefix};
ghost use Rattle.im_plan.specs.Bounds as bounds;
ghost use Rattle.im_plan.specs.Plans as spec;

use crate::bounds::{conjuncts, leading_count, push_leading};
use im_octet::octets::Octets;
use im_octet::writer::Writer;
use im_sqlmodel::tables::{SqlIndex, Table};
use im_sqlparse::statements::Condition;
use sqlite_items::Boxed;
use std::alloc::{AllocError, Global};

/// The way to the rows that a condition means. Each row that meets the condition is on it.
#[derive(Drop)]
pub enum Way {
    /// By the key of one row: the condition says what each column of the primary key is.
    Row(Octets),
    /// By the front of rows' keys: it says what leading columns of the primary key are. Where it says none, the front
    /// is that of all rows.
    Rows(Octets),
    /// By the front of the keys of an index's entries: it says what leading columns of the index are.
    Entries {
        /// The index, by its place among the table's, from 0.
        index: usize,
        /// The front.
        front: Octets,
    },
}

/// The way that serves a condition: one row, where the whole primary key is bound; else the primary key or the index
/// with the most leading columns bound, of equals the primary key, and then the index of the lowest number. A column is
/// bound where the condition is a list of comparisons with AND between, one of which is `c = value`, `value = c` or
/// `c IS NULL`. It asks no view. Its only error is want of memory.
#[tactic(auto, using(crate::proofs::BestLemmas::picked))]
pub fn way_of(
    alloc: Global,
    table: &Table,
    indexes: &[SqlIndex],
    filter: &Option<Boxed<Condition>>,
) -> Result<Way, AllocError>
    ensures way { IfOk result (spec.IsWay table.now indexes.now (bounds.conjuncts filter.now)) }
    ensures best { IfOk result (spec.IsBest table.now indexes.now (bounds.conjuncts filter.now)) }
    ensures first { IfOk result (spec.IsFirst table.now indexes.now (bounds.conjuncts filter.now)) }
{
    let conjuncts = conjuncts(filter);
    let count = leading_count(table, conjuncts, table.key.as_slice());
    if count == table.key.len() {
        return Ok(Way::Row(rows_front(alloc, table, conjuncts)?));
    }
    match best_index(table, indexes, conjuncts, count) {
        Some(index) => Ok(Way::Entries {
            index,
            front: entries_front(alloc, table, &indexes[index], conjuncts)?,
        }),
        None => Ok(Way::Rows(rows_front(alloc, table, conjuncts)?)),
    }
}

// The front of the keys of rows.
fn rows_front(alloc: Global, table: &Table, conjuncts: &[Condition]) -> Result<Octets, AllocError>
    ensures { IfOk result (λ front. front ≡ rows_prefix table.now.tid ++ row_text (bounds.leading conjuncts.now table.now table.now.key)) }
{
    let mut out = Writer::new(alloc);
    out.octets(&[0, 4])?;
    out.u32(table.tid)?;
    push_leading(alloc, &mut out, table, conjuncts, table.key.as_slice())?;
    Ok(Octets::from_vec(out.into_vec()))
}

// The front of the keys of an index's entries.
fn entries_front(
    alloc: Global,
    table: &Table,
    index: &SqlIndex,
    conjuncts: &[Condition],
) -> Result<Octets, AllocError>
    ensures { IfOk result (λ front. front ≡ entries_prefix table.now index.now ++ row_text (bounds.leading conjuncts.now table.now index.now.columns)) }
{
    let prefix = im_catalog::entries::entries_prefix(alloc, table, index)?;
    let mut out = Writer::new(alloc);
    out.octets(prefix.as_slice())?;
    push_leading(alloc, &mut out, table, conjuncts, index.columns.as_slice())?;
    Ok(Octets::from_vec(out.into_vec()))
}

// The place of the first index with the most leading columns bound, if they are more than so many.
fn best_index(
    table: &Table,
    indexes: &[SqlIndex],
    conjuncts: &[Condition],
    least: usize,
) -> Option<usize>
    ensures within { IfSome result (λ at. at < length indexes.now) }
    ensures more { IfSome result (λ at. least < length (bounds.leading conjuncts.now table.now (spec.index_at indexes.now at).columns)) }
    ensures most { IfSome result (λ at. All (λ i. length (bounds.leading conjuncts.now table.now i.columns) ≤ length (bounds.leading conjuncts.now table.now (spec.index_at indexes.now at).columns)) indexes.now) }
    ensures first { IfSome result (λ at. All (λ i. length (bounds.leading conjuncts.now table.now i.columns) < length (bounds.leading conjuncts.now table.now (spec.index_at indexes.now at).columns)) (take at indexes.now)) }
    ensures none { IfNone result (All (λ i. length (bounds.leading conjuncts.now table.now i.columns) ≤ least) indexes.now) }
{
    let mut best = None;
    let mut most = least;
    for (at, index) in indexes.iter().enumerate() {
        let count = leading_count(table, conjuncts, index.columns.as_slice());
        if most < count {
            most = count;
            best = Some(at);
        }
    }
    best
}
