//! The first fault of a text, told.

use im_sqlparse::errors::{SqlSyntax, SyntaxKind};
use std::alloc::AllocError;

/// Adds the first fault of a text: `syntax AT KIND`.
pub fn push_fault(out: &mut String, fault: SqlSyntax) -> Result<(), AllocError> {
    let at = fault.at;
    let kind = kind_word(fault.kind);
    write!(out, "syntax {at} {kind}")
}

fn kind_word(kind: SyntaxKind) -> &'static str {
    match kind {
        SyntaxKind::Token => "token",
        SyntaxKind::Expect => "expect",
        SyntaxKind::Integer => "integer",
        SyntaxKind::Name => "name",
        SyntaxKind::Number => "number",
        SyntaxKind::Deep => "deep",
    }
}
