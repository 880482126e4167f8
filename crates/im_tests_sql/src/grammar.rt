//! Texts, and whether they are statements or where they leave the grammar.

use im_sqlparse::errors::{ParseError, SqlSyntax, SyntaxKind};
use im_sqlparse::parse;
use std::alloc::{AllocError, Global};
use std::test::Fail;

#[rattlefmt::skip]
static STATEMENTS: &[&str] = &[
    "SELECT*FROM t",
    "select * from T ;",
    "SELECT\t_REV , a FROM(HISTORY OF t)",
    "CREATE TABLE t (a INTEGER, PRIMARY KEY a)",
    "create table if not exists t ( a varchar[0008] not null , b blob , primary key ( a , b ) ) ;",
    "CREATE UNIQUE INDEX ON t (a)",
    "CREATE INDEX ON t(a,a,q)",
    "UPSERT INTO t (a) VALUES (-9223372036854775808), (9223372036854775807, 'it''s', x'', x'0Af0', -0)",
    "INSERT INTO t (a) VALUES (NULL, TRUE, False)",
    "SELECT a, a FROM (HISTORY OF t) UNTIL TX 0 WHERE a=1AND b<>'x' ORDER BY a DESC, _rev LIMIT 5OFFSET 2",
    "SELECT a FROM t BEFORE TX 18446744073709551615 ORDER BY a ASC",
    "DELETE FROM t WHERE NOT (a IS NOT NULL OR NULL != x'00Ff')",
    "DELETE FROM t WHERE 1 = 'a' OR a IS NULL",
    "SELECT * FROM t LIMIT 0000000000000000000000000000000000000000000000000000000000005",
    "SELECT aaaaaaaaaaaaaaaaaaaaaaaaaaaaaaaaaaaaaaaaaaaaaaaa FROM t",
];

#[rattlefmt::skip]
static FAULTS: &[(&str, usize, SyntaxKind)] = &[
    ("SELECT * bbbbbbbbbbbbbbbbbbbbbbbbbbbbbbbbbbbbbbbbbbbbbbbbb", 9, SyntaxKind::Expect),
    ("SELECT 99999999999999999999999", 7, SyntaxKind::Expect),
    ("SELECT aaaaaaaaaaaaaaaaaaaaaaaaaaaaaaaaaaaaaaaaaaaaaaaaa FROM t", 7, SyntaxKind::Name),
    ("UPSERT INTO t (a) VALUES (-9223372036854775809)", 26, SyntaxKind::Integer),
    ("UPSERT INTO t (a) VALUES (9223372036854775808)", 26, SyntaxKind::Integer),
    ("UPSERT INTO t (a) VALUES (999999999999999999999999999999999999999999999)", 26, SyntaxKind::Integer),
    ("INSERT INTO t (a) VALUES (- 5)", 26, SyntaxKind::Token),
    ("DELETE FROM t WHERE a = -", 24, SyntaxKind::Token),
    ("DELETE FROM t WHERE a = -x", 24, SyntaxKind::Token),
    ("DELETE FROM t WHERE a = --1", 24, SyntaxKind::Token),
    ("SELECT * FROM t LIMIT -1", 22, SyntaxKind::Expect),
    ("SELECT _foo FROM t", 7, SyntaxKind::Token),
    ("SELECT _revx FROM t", 7, SyntaxKind::Token),
    ("SELECT _ FROM t", 7, SyntaxKind::Token),
    ("SELECT * FROM  ", 15, SyntaxKind::Expect),
    (" SELEC", 1, SyntaxKind::Expect),
    ("  ", 2, SyntaxKind::Expect),
    ("", 0, SyntaxKind::Expect),
    ("SELECT * FROM t WHERE a =", 25, SyntaxKind::Expect),
    ("SELECT a FROM t LIMIT 12abc", 24, SyntaxKind::Expect),
    ("DELETE FROM t WHERE a < = 1", 24, SyntaxKind::Expect),
    ("INSERT INTO t (a) VALUES (X'00')", 26, SyntaxKind::Expect),
    ("DELETE FROM t WHERE a = X'00'", 25, SyntaxKind::Expect),
    ("INSERT INTO t (a) VALUES (x'0')", 26, SyntaxKind::Token),
    ("INSERT INTO t (a) VALUES (x'0g')", 26, SyntaxKind::Token),
    ("INSERT INTO t (a) VALUES (x'00", 26, SyntaxKind::Token),
    ("INSERT INTO t (a) VALUES (x'0 0')", 26, SyntaxKind::Token),
    ("INSERT INTO t (a) VALUES ('open''", 26, SyntaxKind::Token),
    ("SELECT é FROM t", 7, SyntaxKind::Token),
    ("SELECT a FROM t WHERE a ! 1", 24, SyntaxKind::Token),
    ("SELECT key FROM t", 7, SyntaxKind::Expect),
    ("CREATE TABLE tx (a INTEGER, PRIMARY KEY a)", 13, SyntaxKind::Expect),
    ("CREATE TABLE t (a VARCHAR[0], PRIMARY KEY a)", 26, SyntaxKind::Number),
    ("CREATE TABLE t (a BLOB[1025], PRIMARY KEY a)", 23, SyntaxKind::Number),
    ("CREATE TABLE t (a BLOB[-1], PRIMARY KEY a)", 23, SyntaxKind::Expect),
    ("CREATE TABLE t (a INTEGER)", 25, SyntaxKind::Expect),
    ("CREATE TABLE t (PRIMARY KEY a)", 16, SyntaxKind::Expect),
    ("CREATE TABLE t (a INTEGER, PRIMARY KEY _rev)", 39, SyntaxKind::Expect),
    ("SELEC 'open", 0, SyntaxKind::Expect),
    ("SELECT * FROM t;;", 16, SyntaxKind::Expect),
    ("SELECT * FROM t; x", 17, SyntaxKind::Expect),
    ("SELECT * FROM _rev", 14, SyntaxKind::Expect),
    ("DELETE FROM t WHERE _rev = 1", 20, SyntaxKind::Expect),
    ("DELETE FROM t LIMIT 1", 14, SyntaxKind::Expect),
    ("SELECT a FROM t BEFORE TX 0", 26, SyntaxKind::Number),
    ("SELECT a FROM t UNTIL TX 18446744073709551616", 25, SyntaxKind::Number),
    ("SELECT a FROM t LIMIT 18446744073709551616", 22, SyntaxKind::Number),
    ("SELECT a FROM t OFFSET 1 LIMIT 1", 25, SyntaxKind::Expect),
    ("DELETE FROM t WHERE 1 IS NULL", 22, SyntaxKind::Expect),
    ("COMMIT", 0, SyntaxKind::Expect),
];

// What is wrong with a text, if anything is.
fn fault(alloc: Global, text: &str) -> Result<Option<SqlSyntax>, AllocError> {
    match parse(alloc, text) {
        Ok(statement) => {
            drop(statement);
            Ok(None)
        }
        Err(ParseError::Syntax(fault)) => Ok(Some(fault)),
        Err(ParseError::Memory) => Err(AllocError),
    }
}

#[test]
fn statements_are_read(rt: HostRuntime) -> Result<(), Fail> {
    for text in STATEMENTS {
        assert!(rt; fault(rt.alloc(), text)? == None, "{text}");
    }
    Ok(())
}

#[test]
fn the_first_fault_is_told(rt: HostRuntime) -> Result<(), Fail> {
    for (text, at, kind) in FAULTS {
        assert!(rt;
            fault(rt.alloc(), text)?
                == Some(SqlSyntax {
                    at: *at,
                    kind: *kind
                }),
            "{text}"
        );
    }
    Ok(())
}

// Writes a text, with another one so many times between its front and its back.
fn write_repeated(
    text: &mut String,
    front: &str,
    part: &str,
    times: usize,
    back: &str,
) -> Result<(), AllocError> {
    text.push_str(front)?;
    for _ in 0..times {
        text.push_str(part)?;
    }
    text.push_str(back)
}

// What is wrong with such a text, if anything is.
fn fault_of(
    alloc: Global,
    front: &str,
    part: &str,
    times: usize,
    back: &str,
) -> Result<Option<SqlSyntax>, AllocError> {
    let mut text = String::new(alloc);
    write_repeated(&mut text, front, part, times, back)?;
    fault(alloc, text.as_str())
}

// A front, a part and a back; what is wrong where the part stands 65 times between them, and where; and whether 64 times are
// no fault.
#[rattlefmt::skip]
static REPEATED: &[(&str, &str, &str, SyntaxKind, usize, bool)] = &[
    ("CREATE TABLE t (", "c INTEGER,", "PRIMARY KEY c)", SyntaxKind::Number, 16 + 64 * 10, true),
    ("DELETE FROM t WHERE ", "NOT ", "a = 1", SyntaxKind::Deep, 20 + 64 * 4, true),
    ("DELETE FROM t WHERE ", "(", "", SyntaxKind::Deep, 20 + 64, false),
];

#[test]
fn limits_are_64_columns_and_64_deep(rt: HostRuntime) -> Result<(), Fail> {
    for (front, part, back, kind, at, fits) in REPEATED {
        let beyond = fault_of(rt.alloc(), front, part, 65, back)?;
        assert!(rt;
            beyond
                == Some(SqlSyntax {
                    at: *at,
                    kind: *kind
                }),
            "{part}"
        );
        if *fits {
            assert!(rt;
                fault_of(rt.alloc(), front, part, 64, back)? == None,
                "{part}"
            );
        }
    }
    Ok(())
}
