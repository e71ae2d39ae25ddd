ghost use Rattle.std.specs.Prelude.{◌≡◌, Some};
ghost use Rattle.pattern_reader.specs.PatternRefusal.{pattern_refusal_name, pattern_refusal_offset};

use crate::ValueRefusal;
use flow_values::NoMemory;
use pattern_grammar::SyntaxRefusal;
use pattern_lexer::TokenRefusal;
use std::error::Error;
use std::fmt;

/// Why a text isn't a pattern.
#[derive(Clone, Copy, Debug, PartialEq, Eq, Hash)]
pub enum PatternRefusal {
    /// The text has more than 65,536 bytes.
    TooLong,
    /// The lexer failed: its first refusal.
    Token(TokenRefusal),
    /// The parser failed: a syntax error or too deep nesting, whichever comes first in the text.
    Syntax(SyntaxRefusal),
    /// A value is not allowed: the first one, by its byte offset.
    Value(ValueRefusal),
    /// The pattern has a width over 64, or more than 1,024 pairs of brackets.
    TooWide,
    /// Out of memory.
    NoMemory,
}

impl PatternRefusal {
    /// The refusal's name, as `Syntax`.
    pub fn name(self) -> &'static str
        ensures { result.now ≡ pattern_refusal_name self }
    {
        match self {
            PatternRefusal::TooLong => "TooLong",
            PatternRefusal::Token(refusal) => refusal.name(),
            PatternRefusal::Syntax(refusal) => refusal.name(),
            PatternRefusal::Value(refusal) => refusal.name(),
            PatternRefusal::TooWide => "TooWide",
            PatternRefusal::NoMemory => "out of memory",
        }
    }

    /// The byte offset of the refusal, from 0, if it has one.
    pub fn at(self) -> Option<usize>
        ensures { result ≡ pattern_refusal_offset self }
    {
        match self {
            PatternRefusal::Token(refusal) => Some(refusal.at()),
            PatternRefusal::Syntax(refusal) => Some(refusal.at()),
            PatternRefusal::Value(refusal) => Some(refusal.at()),
            PatternRefusal::TooLong | PatternRefusal::TooWide | PatternRefusal::NoMemory => None,
        }
    }
}

/// Prints the name, and the byte offset if there is one, as `Syntax at 5`.
impl fmt::Display for PatternRefusal {
    ghost use Rattle.pattern_reader.specs.PatternRefusal.{pattern_refusal_text};

    ghost output = { λ refusal. Some (pattern_refusal_text refusal) };

    fn fmt<W: fmt::Write>(&self, f: &mut fmt::Formatter<W>) -> fmt::Result {
        let name = self.name();
        match self.at() {
            Some(at) => write!(f, "{name} at {at}"),
            None => write!(f, "{name}"),
        }
    }
}

impl Error for PatternRefusal {}

impl From<NoMemory> for PatternRefusal {
    ghost use Rattle.pattern_reader.specs.declared.pattern_refusal.PatternRefusal.TheVariants as refused;

    ghost from_gives = { λ _ refusal. refusal ≡ refused.NoMemory };

    fn from(_error: NoMemory) -> PatternRefusal {
        PatternRefusal::NoMemory
    }
}

impl From<TokenRefusal> for PatternRefusal {
    ghost use Rattle.pattern_reader.specs.declared.pattern_refusal.PatternRefusal.TheVariants as refused;

    ghost from_gives = { λ token refusal. refusal ≡ refused.Token token };

    fn from(refusal: TokenRefusal) -> PatternRefusal {
        PatternRefusal::Token(refusal)
    }
}

impl From<SyntaxRefusal> for PatternRefusal {
    ghost use Rattle.pattern_reader.specs.declared.pattern_refusal.PatternRefusal.TheVariants as refused;

    ghost from_gives = { λ syntax refusal. refusal ≡ refused.Syntax syntax };

    fn from(refusal: SyntaxRefusal) -> PatternRefusal {
        PatternRefusal::Syntax(refusal)
    }
}
