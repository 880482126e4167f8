//! Tests of what was read: that it is a table, or the columns of a key.

ghost use Rattle.std.specs.Prelude.{◌≡◌, ◌≢◌, ◌<◌, ◌↔◌, nat_eq, bytes_eq, All, AllPairs, IsTrue};
ghost use Rattle.std.specs.List.{list_any};
ghost use Rattle.im_sqlmodel.specs.Tables.{AreColumns, IsTable};
ghost use Rattle.im_catalog.specs.Parts.{IsReadTable};

use im_sqlmodel::tables::{Column, Table};
use im_sqlparse::names::is_name;

// The most columns of a table.
const MOST_COLUMNS: usize = 64;

fn has_number(numbers: &[u16], number: u16) -> bool
    ensures { result ≡ list_any (λ n. nat_eq n number) numbers.now }
{
    numbers.iter().any(|other| *other == number)
}

// Whether no number stands twice. It looks at those before each.
#[tactic(auto, using(crate::proofs::TestLemmas::numbers_apart))]
fn are_distinct(numbers: &[u16]) -> bool
    ensures { IsTrue result ↔ AllPairs (λ a b. a ≢ b) numbers.now }
{
    for (at, number) in numbers.iter().enumerate() {
        if has_number(&numbers[..at], *number) {
            return false;
        }
    }
    true
}

fn are_below(numbers: &[u16], count: usize) -> bool
    ensures { IsTrue result ↔ All (λ n. n < count) numbers.now }
{
    for number in numbers {
        if count <= *number as usize {
            return false;
        }
    }
    true
}

/// Whether numbers are those of some of so many columns, each once.
pub(crate) fn are_columns(numbers: &[u16], count: usize) -> bool
    ensures { IsTrue result ↔ AreColumns count numbers.now }
{
    !numbers.is_empty() && are_below(numbers, count) && are_distinct(numbers)
}

fn has_name(columns: &[Column], name: &[u8]) -> bool
    ensures { result ≡ list_any (λ c. bytes_eq c.name name.now) columns.now }
{
    columns.iter().any(|column| column.name.as_slice() == name)
}

// Whether no name stands twice. It looks at those before each.
#[tactic(auto, using(crate::proofs::TestLemmas::names_apart))]
fn are_named_apart(columns: &[Column]) -> bool
    ensures { IsTrue result ↔ AllPairs (λ a b. a.name ≢ b.name) columns.now }
{
    for (at, column) in columns.iter().enumerate() {
        if has_name(&columns[..at], column.name.as_slice()) {
            return false;
        }
    }
    true
}

/// Whether it is a table, where its columns were read.
pub(crate) fn is_table(table: &Table) -> bool
    requires { IsReadTable table.now }
    ensures { IsTrue result ↔ IsTable table.now }
{
    let columns = table.columns.as_slice();
    1 <= table.tid
        && is_name(table.name.as_slice())
        && (1..=MOST_COLUMNS).contains(&columns.len())
        && are_named_apart(columns)
        && are_columns(table.key.as_slice(), columns.len())
}
