/// The kind of a token, in the order of the table of tokens: punctuation, keywords, then the
/// others.
#[derive(Clone, Copy, Debug, PartialEq, Eq, Hash)]
pub enum TokenKind {
    /// `[`
    SquareOpen,
    /// `]`
    SquareClose,
    /// `(`
    RoundOpen,
    /// `)`
    RoundClose,
    /// `.`
    Dot,
    /// `:`
    Colon,
    /// `,`
    Comma,
    /// `*`
    Star,
    /// `=`
    Equal,
    /// `!=`
    Differ,
    /// `<`
    Less,
    /// `<=`
    LessEqual,
    /// `>`
    Greater,
    /// `>=`
    GreaterEqual,
    /// `AND`
    And,
    /// `OR`
    Or,
    /// `NOT`
    Not,
    /// `FOLLOWEDBY`
    FollowedBy,
    /// `WITHIN`
    Within,
    /// `SECONDS`
    Seconds,
    /// `REPEATS`
    Repeats,
    /// `TIMES`
    Times,
    /// `START`
    Start,
    /// `STOP`
    Stop,
    /// `IN`
    Among,
    /// `LIKE`
    Like,
    /// `ISSUBSET`
    Subset,
    /// `ISSUPERSET`
    Superset,
    /// `EXISTS`
    Exists,
    /// `true`
    TrueWord,
    /// `false`
    FalseWord,
    /// A name, as `value`.
    Word,
    /// A name with a hyphen, as `ipv4-addr`.
    HyphenWord,
    /// An integer, as `-5`.
    Number,
    /// A text in quotes, as `'a'`.
    String,
    /// Bytes in hexadecimal digits, as `h'ff00'`.
    Hex,
    /// Bytes in base64, as `b'/w=='`.
    Binary,
    /// A timestamp, as `t'2026-01-01T00:00:00Z'`.
    Timestamp,
}

/// A token. Its text is the byte range `from..to` of the source.
#[derive(Clone, Copy, Debug, PartialEq, Eq, Hash)]
pub struct Token {
    /// What the token is.
    pub kind: TokenKind,
    /// The byte offset of its start.
    pub from: usize,
    /// The byte offset of its end.
    pub to: usize,
}
