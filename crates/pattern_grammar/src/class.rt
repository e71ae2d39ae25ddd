ghost use Rattle.std.specs.Prelude.{◌≡◌};
ghost use Rattle.pattern_grammar.specs.TokenClass.{is_in, is_ordered};

use pattern_lexer::TokenKind;

/// A set of token kinds that the grammar allows at one point.
#[derive(Clone, Copy, Debug, PartialEq, Eq)]
pub enum TokenClass {
    /// This kind only.
    Only(TokenKind),
    /// A type of object: Word, HyphenWord.
    Root,
    /// A property: Word, String.
    Name,
    /// The index in the brackets of a path: Number, `*`.
    Index,
    /// `=`, `!=`.
    Equality,
    /// `<`, `<=`, `>`, `>=`.
    Order,
    /// LIKE, ISSUBSET, ISSUPERSET.
    Textual,
    /// Number, String, Hex, Binary, Timestamp.
    Ordered,
    /// One of `Ordered`, true, false.
    Constant,
    /// The first token of a qualifier: WITHIN, REPEATS, START.
    Qualifying,
    /// The first token of a further step of a path: `.`, `[`.
    Stepping,
}

impl TokenClass {
    /// Whether the class has this kind.
    pub fn holds(self, kind: TokenKind) -> bool
        ensures { result ≡ is_in self kind }
    {
        match self {
            TokenClass::Only(expected) => kind == expected,
            TokenClass::Root => matches!(kind, TokenKind::Word | TokenKind::HyphenWord),
            TokenClass::Name => matches!(kind, TokenKind::Word | TokenKind::String),
            TokenClass::Index => matches!(kind, TokenKind::Number | TokenKind::Star),
            TokenClass::Equality => matches!(kind, TokenKind::Equal | TokenKind::Differ),
            TokenClass::Order => matches!(
                kind,
                TokenKind::Less
                    | TokenKind::LessEqual
                    | TokenKind::Greater
                    | TokenKind::GreaterEqual
            ),
            TokenClass::Textual => {
                matches!(
                    kind,
                    TokenKind::Like | TokenKind::Subset | TokenKind::Superset
                )
            }
            TokenClass::Ordered => is_ordered(kind),
            TokenClass::Constant => {
                is_ordered(kind) || matches!(kind, TokenKind::TrueWord | TokenKind::FalseWord)
            }
            TokenClass::Qualifying => {
                matches!(
                    kind,
                    TokenKind::Within | TokenKind::Repeats | TokenKind::Start
                )
            }
            TokenClass::Stepping => matches!(kind, TokenKind::Dot | TokenKind::SquareOpen),
        }
    }
}

/// Whether the kind is that of a constant with an order.
fn is_ordered(kind: TokenKind) -> bool
    ensures { result ≡ is_ordered kind }
{
    matches!(
        kind,
        TokenKind::Number
            | TokenKind::String
            | TokenKind::Hex
            | TokenKind::Binary
            | TokenKind::Timestamp
    )
}
