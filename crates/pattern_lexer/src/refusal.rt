ghost use Rattle.std.specs.Prelude.{◌≡◌};
ghost use Rattle.pattern_lexer.specs.TokenRefusal.{token_refusal_name, token_refusal_offset};

/// Syntax of the standard that this implementation doesn't support.
#[derive(Clone, Copy, Debug, PartialEq, Eq, Hash)]
pub enum LeftWord {
    /// The word `MATCHES`.
    Matches,
    /// A number with a fraction, as `1.5`.
    Fraction,
    /// `==`.
    DoubleEqual,
    /// `<>`.
    LessGreater,
}

/// Why a text has no tokens. `at` is a byte offset, from 0.
#[derive(Clone, Copy, Debug, PartialEq, Eq, Hash)]
pub enum TokenRefusal {
    /// No token begins here, or a letter follows a number directly.
    BadToken { at: usize },
    /// The token is not supported here.
    LeftOut { at: usize, word: LeftWord },
    /// The number has a leading zero, or doesn't fit a signed 64-bit integer.
    BadNumber { at: usize },
    /// The timestamp literal isn't a valid timestamp.
    BadTime { at: usize },
    /// The literal isn't pairs of hexadecimal digits, or isn't padded base64.
    BadBytes { at: usize },
}

impl TokenRefusal {
    /// The refusal's name.
    pub fn name(self) -> &'static str
        ensures { result.now ≡ token_refusal_name self }
    {
        match self {
            TokenRefusal::BadToken { .. } => "BadToken",
            TokenRefusal::LeftOut { .. } => "LeftOut",
            TokenRefusal::BadNumber { .. } => "BadNumber",
            TokenRefusal::BadTime { .. } => "BadTime",
            TokenRefusal::BadBytes { .. } => "BadBytes",
        }
    }

    /// The byte offset of the refusal.
    pub fn at(self) -> usize
        ensures { result ≡ token_refusal_offset self }
    {
        match self {
            TokenRefusal::BadToken { at }
            | TokenRefusal::LeftOut { at, .. }
            | TokenRefusal::BadNumber { at }
            | TokenRefusal::BadTime { at }
            | TokenRefusal::BadBytes { at } => at,
        }
    }
}
