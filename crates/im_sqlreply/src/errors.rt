//! What is wrong with a statement, as a text.

ghost use Rattle.std.specs.Prelude.{◌≡◌, ◌≢◌, ◌++◌, IfOk, OnOk, codes};
ghost use Rattle.std.specs.Fmt.{decimal};
ghost use Rattle.im_sqlreply.specs.Replies as spec;

use im_sqlmodel::answers::SqlError;
use im_sqlparse::errors::{SqlSyntax, SyntaxKind};
use im_text::writing::push_number;
use std::alloc::{AllocError, Global};

// A text and a name.
fn with_name(alloc: Global, text: &[u8], name: &[u8]) -> Result<Vec<u8>, AllocError>
    ensures { IfOk result (λ out. out.items ≡ text.now ++ name.now) }
{
    let mut out = Vec::from_slice(alloc, text)?;
    out.extend_from_slice(name)?;
    Ok(out)
}

// A text and a number.
fn with_number(alloc: Global, text: &[u8], number: u64) -> Result<Vec<u8>, AllocError>
    ensures { IfOk result (λ out. out.items ≡ text.now ++ decimal number) }
{
    let mut out = Vec::new(alloc);
    push_number(alloc, &mut out, text, number)?;
    Ok(out)
}

// A text, the number of a row, and the name of a column.
fn of_column(alloc: Global, text: &[u8], row: u64, name: &[u8]) -> Result<Vec<u8>, AllocError>
    ensures { IfOk result (λ out. out.items ≡ text.now ++ decimal row ++ codes " " ++ name.now) }
{
    let mut out = with_number(alloc, text, row)?;
    out.extend_from_slice(b" ")?;
    out.extend_from_slice(name)?;
    Ok(out)
}

// The reply to a row with another number of values than there are columns.
fn count_text(alloc: Global, row: u64, want: u64, got: u64) -> Result<Vec<u8>, AllocError>
    ensures { IfOk result (λ out. out.items ≡ codes "error count " ++ decimal row ++ codes " " ++ decimal want ++ codes " " ++ decimal got) }
{
    let mut out = with_number(alloc, b"error count ", row)?;
    push_number(alloc, &mut out, b" ", want)?;
    push_number(alloc, &mut out, b" ", got)?;
    Ok(out)
}

// The reply to a row whose key is there, by transaction `tx`.
fn duplicate_text(alloc: Global, row: u64, tx: u64) -> Result<Vec<u8>, AllocError>
    ensures { IfOk result (λ out. out.items ≡ codes "error duplicate " ++ decimal row ++ codes " tx " ++ decimal tx) }
{
    let mut out = with_number(alloc, b"error duplicate ", row)?;
    push_number(alloc, &mut out, b" tx ", tx)?;
    Ok(out)
}

// The reply to a row whose key another row has in a unique index, by transaction `tx`.
fn unique_text(alloc: Global, row: u64, index: u32, tx: u64) -> Result<Vec<u8>, AllocError>
    ensures { IfOk result (λ out. out.items ≡ codes "error unique " ++ decimal row ++ codes " " ++ decimal index ++ codes " tx " ++ decimal tx) }
{
    let mut out = with_number(alloc, b"error unique ", row)?;
    push_number(alloc, &mut out, b" ", u64::from(index))?;
    push_number(alloc, &mut out, b" tx ", tx)?;
    Ok(out)
}

/// The reply to a statement that is refused: `error` and what is wrong, or `refused beyond <n>`. Want of memory has no reply, and is handed on.
#[tactic(auto, unfolding(crate::specs::Replies::error_reply))]
pub fn error_text(alloc: Global, error: &SqlError) -> Result<Vec<u8>, AllocError>
    ensures text { IfOk result (λ text. text.items ≡ spec.error_reply error.now) }
    ensures refused { OnOk result (error.now ≢ SqlError.Memory) }
{
    match error {
        SqlError::Memory => Err(AllocError),
        SqlError::Exists { table } => with_name(alloc, b"error exists ", table.as_slice()),
        SqlError::NoTable { table } => with_name(alloc, b"error table ", table.as_slice()),
        SqlError::NoColumn { name } => with_name(alloc, b"error column ", name.as_slice()),
        SqlError::Twice { name } => with_name(alloc, b"error twice ", name.as_slice()),
        SqlError::HasRows { table } => with_name(alloc, b"error rows ", table.as_slice()),
        SqlError::Count { row, want, got } => count_text(alloc, *row, *want, *got),
        SqlError::WrongType { row, name } => {
            of_column(alloc, b"error type ", *row, name.as_slice())
        }
        SqlError::TooLong { row, name } => of_column(alloc, b"error long ", *row, name.as_slice()),
        SqlError::NullGiven { row, name } => {
            of_column(alloc, b"error null ", *row, name.as_slice())
        }
        SqlError::KeyLong { row } => with_number(alloc, b"error keylong ", *row),
        SqlError::RowLong { row } => with_number(alloc, b"error rowlong ", *row),
        SqlError::Duplicate { row, tx } => duplicate_text(alloc, *row, *tx),
        SqlError::Unique { row, index, tx } => unique_text(alloc, *row, *index, *tx),
        SqlError::TooMany { entries } => with_number(alloc, b"error toomany ", *entries),
        SqlError::Compare { at } => with_number(alloc, b"error compare ", *at as u64),
        SqlError::Beyond { n } => with_number(alloc, b"refused beyond ", *n),
    }
}

// The word of what is wrong at a token.
fn syntax_word(kind: SyntaxKind) -> &'static str
    ensures { result.now ≡ spec.syntax_word kind }
{
    match kind {
        SyntaxKind::Token => "token",
        SyntaxKind::Expect => "expect",
        SyntaxKind::Integer => "integer",
        SyntaxKind::Name => "name",
        SyntaxKind::Number => "number",
        SyntaxKind::Deep => "deep",
    }
}

/// The reply to a text that isn't in the grammar: `error syntax <at> <kind>`. Its only error is want of memory.
#[tactic(auto, unfolding(crate::specs::Replies::syntax_reply))]
pub fn syntax_text(alloc: Global, fault: SqlSyntax) -> Result<Vec<u8>, AllocError>
    ensures { IfOk result (λ text. text.items ≡ spec.syntax_reply fault) }
{
    let mut out = with_number(alloc, b"error syntax ", fault.at as u64)?;
    out.extend_from_slice(b" ")?;
    out.extend_from_slice(syntax_word(fault.kind).as_bytes())?;
    Ok(out)
}
