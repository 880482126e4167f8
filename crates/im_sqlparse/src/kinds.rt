/// What a token is.
#[derive(Clone, Copy, PartialEq, Eq)]
pub enum Kind {
    /// The text's end.
    End,
    /// No token begins here.
    Bad,
    /// A word that is no keyword: letters, digits and `_`, a letter first.
    Word,
    /// The word `_rev`.
    Rev,
    /// Decimal digits, with a minus in front or without.
    Number,
    /// Octets between single quotes.
    Text,
    /// Pairs of hex digits in `x'..'`.
    Hex,
    /// `(`
    Open,
    /// `)`
    Close,
    /// `[`
    OpenBracket,
    /// `]`
    CloseBracket,
    /// `,`
    Comma,
    /// `;`
    Semicolon,
    /// `*`
    Star,
    /// `=`
    Equal,
    /// `<>` or `!=`
    Unequal,
    /// `<`
    Less,
    /// `<=`
    AtMost,
    /// `>`
    Greater,
    /// `>=`
    AtLeast,
    // Keywords, which are never names.
    And,
    Asc,
    Before,
    Blob,
    Boolean,
    By,
    Create,
    Delete,
    Desc,
    Exists,
    False,
    From,
    History,
    If,
    Index,
    Insert,
    Integer,
    Into,
    Is,
    Key,
    Limit,
    Not,
    Null,
    Of,
    Offset,
    On,
    Or,
    Order,
    Primary,
    Select,
    Table,
    True,
    Tx,
    Unique,
    Until,
    Upsert,
    Values,
    Varchar,
    Where,
}

/// The keywords. Each is written in any case.
pub const KEYWORDS: [(&[u8], Kind); 39] = [
    (b"AND", Kind::And),
    (b"ASC", Kind::Asc),
    (b"BEFORE", Kind::Before),
    (b"BLOB", Kind::Blob),
    (b"BOOLEAN", Kind::Boolean),
    (b"BY", Kind::By),
    (b"CREATE", Kind::Create),
    (b"DELETE", Kind::Delete),
    (b"DESC", Kind::Desc),
    (b"EXISTS", Kind::Exists),
    (b"FALSE", Kind::False),
    (b"FROM", Kind::From),
    (b"HISTORY", Kind::History),
    (b"IF", Kind::If),
    (b"INDEX", Kind::Index),
    (b"INSERT", Kind::Insert),
    (b"INTEGER", Kind::Integer),
    (b"INTO", Kind::Into),
    (b"IS", Kind::Is),
    (b"KEY", Kind::Key),
    (b"LIMIT", Kind::Limit),
    (b"NOT", Kind::Not),
    (b"NULL", Kind::Null),
    (b"OF", Kind::Of),
    (b"OFFSET", Kind::Offset),
    (b"ON", Kind::On),
    (b"OR", Kind::Or),
    (b"ORDER", Kind::Order),
    (b"PRIMARY", Kind::Primary),
    (b"SELECT", Kind::Select),
    (b"TABLE", Kind::Table),
    (b"TRUE", Kind::True),
    (b"TX", Kind::Tx),
    (b"UNIQUE", Kind::Unique),
    (b"UNTIL", Kind::Until),
    (b"UPSERT", Kind::Upsert),
    (b"VALUES", Kind::Values),
    (b"VARCHAR", Kind::Varchar),
    (b"WHERE", Kind::Where),
];
