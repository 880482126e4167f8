use std::alloc::AllocError;

/// What is wrong at a token.
#[derive(Clone, Copy, Debug, PartialEq, Eq)]
pub enum SyntaxKind {
    /// No token begins there.
    Token,
    /// The token can't follow, or the text ends too early.
    Expect,
    /// An integer that doesn't fit 64 bits with a sign.
    Integer,
    /// A name of over 48 characters.
    Name,
    /// A number that is out of its range, or the name of a 65th column.
    Number,
    /// The 65th NOT or parenthesis of those that are open there.
    Deep,
}

/// The first fault of a text, from the left.
#[derive(Clone, Copy, Debug, PartialEq, Eq)]
pub struct SqlSyntax {
    /// The place of the token's first octet, from 0; the text's length where the text ends too early.
    pub at: usize,
    /// What is wrong there.
    pub kind: SyntaxKind,
}

/// Why no statement was read.
#[derive(Clone, Copy, Debug, PartialEq, Eq)]
pub enum ParseError {
    /// Memory ran out.
    Memory,
    /// The text isn't in the grammar.
    Syntax(SqlSyntax),
}

impl From<AllocError> for ParseError {
    ghost use Rattle.std.specs.Prelude.{◌≡◌};
    ghost use Rattle.im_sqlparse.specs.declared.errors.ParseError.TheVariants.{Memory};

    ghost from_gives = { λ _ e. e ≡ Memory };

    fn from(_: AllocError) -> Self {
        ParseError::Memory
    }
}
