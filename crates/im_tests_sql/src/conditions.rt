//! Conditions over the rows of the table `t`: what is wrong with one, and whether a row meets it.

use crate::tables::sample_table;
use im_expr::judged::filter_fault;
use im_expr::met::meets;
use im_expr::scopes::scope_of;
use im_octet::octets::Octets;
use im_sqlmodel::answers::SqlError;
use im_sqlmodel::tables::Nameable;
use im_sqlparse::parse;
use im_sqlparse::statements::{Form, Stmt};
use im_sqltype::rows::Row;
use im_sqltype::values::Value;
use sqlite_items::Items;
use std::alloc::{AllocError, Global};
use std::test::Fail;

// What is told of a condition.
#[derive(Clone, Copy)]
enum Told {
    Nothing,
    NoColumn(&'static [u8]),
    Compare(usize),
}

// The operator's place counts from the text's first octet.
#[rattlefmt::skip]
static JUDGED: &[(&str, Told)] = &[
    ("SELECT * FROM t WHERE q = 1", Told::NoColumn(b"q")),
    ("SELECT * FROM t WHERE v = 1", Told::Compare(24)),
    ("SELECT * FROM t WHERE 1 = 'a'", Told::Compare(24)),
    ("SELECT * FROM t WHERE q = 1 OR v = 1", Told::NoColumn(b"q")),
    ("SELECT * FROM t WHERE v = 1 OR q = 1", Told::Compare(24)),
    ("SELECT * FROM t WHERE NOT (x'00' = v)", Told::Compare(33)),
    ("SELECT * FROM t WHERE _rev = 1", Told::NoColumn(b"_rev")),
    ("SELECT * FROM t WHERE id = NULL AND v <> NULL", Told::Nothing),
    ("SELECT * FROM t", Told::Nothing),
];

// Whether the row `(NULL, 'a')` meets the condition.
#[rattlefmt::skip]
static MET: &[(&str, bool)] = &[
    ("SELECT * FROM t WHERE id < 5", true),
    ("SELECT * FROM t WHERE NOT id < 5", false),
    ("SELECT * FROM t WHERE id = NULL", true),
    ("SELECT * FROM t WHERE id IS NULL AND v <= 'a'", true),
    ("SELECT * FROM t WHERE id IS NOT NULL OR v = 'b'", false),
    ("SELECT * FROM t WHERE id IS NOT NULL OR v >= 'A'", true),
    ("SELECT * FROM t WHERE v = 'a' AND id > NULL", false),
    ("SELECT * FROM t WHERE v <> 'a'", false),
    ("SELECT * FROM t", true),
];

fn is_told(fault: &Option<SqlError>, told: Told) -> bool {
    match (fault, told) {
        (None, Told::Nothing) => true,
        (Some(SqlError::NoColumn { name }), Told::NoColumn(other)) => name.as_slice() == other,
        (Some(SqlError::Compare { at }), Told::Compare(place)) => *at == place,
        _ => false,
    }
}

// Whether this is told of the condition of a SELECT.
fn is_fault_told(
    alloc: Global,
    scope: &[Nameable],
    stmt: &Stmt,
    told: Told,
) -> Result<bool, AllocError> {
    let Form::Select(select) = stmt.form() else {
        return Ok(false);
    };
    let fault = filter_fault(alloc, scope, &select.filter)?;
    let so = is_told(&fault, told);
    drop(fault);
    Ok(so)
}

// The same of the SELECT that a text is.
fn is_told_of(alloc: Global, scope: &[Nameable], text: &str, told: Told) -> Result<bool, Fail> {
    let stmt = parse(alloc, text)?;
    let so = is_fault_told(alloc, scope, &stmt, told);
    drop(stmt);
    Ok(so?)
}

// The same over the columns of the table.
fn is_judged_so(alloc: Global, text: &str, told: Told) -> Result<bool, Fail> {
    let scope = sample_scope(alloc)?;
    let so = is_told_of(alloc, scope.as_slice(), text, told);
    drop(scope);
    so
}

// Whether a row meets the condition of a SELECT.
fn is_met(scope: &[Nameable], stmt: &Stmt, row: &[Value]) -> bool {
    match stmt.form() {
        Form::Select(select) => meets(scope, &select.filter, row),
        _ => false,
    }
}

// The row.
fn sample_row(alloc: Global) -> Result<Row, AllocError> {
    let letter = Octets::from_slice(alloc, b"a")?;
    Ok(Row::from_vec(vec![in alloc; Value::Null, Value::Varchar(letter)]?))
}

// The same of the SELECT that a text is.
fn is_met_by(alloc: Global, scope: &[Nameable], text: &str, row: &[Value]) -> Result<bool, Fail> {
    let stmt = parse(alloc, text)?;
    let met = is_met(scope, &stmt, row);
    drop(stmt);
    Ok(met)
}

// The same of the row over these columns.
fn is_met_over(alloc: Global, scope: &[Nameable], text: &str) -> Result<bool, Fail> {
    let row = sample_row(alloc)?;
    let met = is_met_by(alloc, scope, text, row.as_slice());
    drop(row);
    met
}

// The same over the columns of the table.
fn is_met_by_the_row(alloc: Global, text: &str) -> Result<bool, Fail> {
    let scope = sample_scope(alloc)?;
    let met = is_met_over(alloc, scope.as_slice(), text);
    drop(scope);
    met
}

// The columns of the table that may be named.
fn sample_scope(alloc: Global) -> Result<Items<Nameable>, AllocError> {
    let table = sample_table(alloc)?;
    let scope = scope_of(alloc, &table, false);
    drop(table);
    scope
}

#[test]
fn what_is_wrong_with_a_condition_is_told_from_the_left(rt: HostRuntime) -> Result<(), Fail> {
    for (text, told) in JUDGED {
        assert!(rt; is_judged_so(rt.alloc(), text, *told)?, "{text}");
    }
    Ok(())
}

#[test]
fn null_is_a_value_and_the_least(rt: HostRuntime) -> Result<(), Fail> {
    for (text, wanted) in MET {
        assert!(rt; is_met_by_the_row(rt.alloc(), text)? == *wanted, "{text}");
    }
    Ok(())
}
