//! Limits on nesting, checked by counting tokens before parsing. The parser recurses only at an
//! open parenthesis, so the count bounds its stack.

ghost use Rattle.std.specs.Prelude.{◌≡◌, ◌<◌, ◌^◌, ◌↔◌, IsTrue, List, [], ◌∷◌, ◌++◌, length};
ghost use Rattle.std.specs.Prelude.{IfSome, IfNone};
ghost use Rattle.pattern_lexer.specs.declared.token.Token.{Token};
ghost use Rattle.pattern_grammar.specs.Depth.{IsDeepOpen, IsDeepQualifier, IsTooMany, NoneTooMany};
ghost use Rattle.pattern_grammar.specs.inner.Machine.{CountsOf, IsFirstAt};

use crate::TokenClass;
use pattern_lexer::{Token, TokenKind};

/// The greatest nesting of parentheses, and the greatest number of qualifiers of a pattern.
pub const MAX_DEPTH: usize = 64;

/// Counts over the tokens before a given one.
#[derive(Clone, Copy)]
struct Counts {
    /// The number of `(`.
    opened: usize,
    /// The number of `)`.
    closed: usize,
    /// The number of first tokens of qualifiers.
    qualifiers: usize,
    /// Whether the last token is `IN`.
    after_in: bool,
}

impl Counts {
    /// The counts before the first token.
    fn none() -> Counts
        ensures { CountsOf [] result }
    {
        Counts {
            opened: 0,
            closed: 0,
            qualifiers: 0,
            after_in: false,
        }
    }

    /// Whether the token opens a parenthesis past the limit. The one after `IN` doesn't count.
    fn is_deep_open(self, token: Token) -> bool
        ensures { (before : List Token) → CountsOf before self
            → IsTrue result ↔ IsDeepOpen before token }
    {
        TokenClass::Only(TokenKind::RoundOpen).holds(token.kind)
            && !self.after_in
            && self.opened.saturating_sub(self.closed) >= MAX_DEPTH
    }

    /// Whether the token begins a qualifier past the limit.
    fn is_deep_qualifier(self, token: Token) -> bool
        ensures { (before : List Token) → CountsOf before self
            → IsTrue result ↔ IsDeepQualifier before token }
    {
        TokenClass::Qualifying.holds(token.kind) && self.qualifiers >= MAX_DEPTH
    }

    /// Whether the token exceeds a limit.
    fn is_too_many(self, token: Token) -> bool
        ensures { (before : List Token) → CountsOf before self
            → IsTrue result ↔ IsTooMany before token }
    {
        self.is_deep_open(token) || self.is_deep_qualifier(token)
    }

    /// The counts after this token.
    fn with(self, token: Token) -> Counts
        requires opened { self.opened < 2 ^ 63 }
        requires closed { self.closed < 2 ^ 63 }
        requires qualifiers { self.qualifiers < 2 ^ 63 }
        ensures { (before : List Token) → CountsOf before self
            → CountsOf (before ++ token ∷ []) result }
    {
        let opens = TokenClass::Only(TokenKind::RoundOpen).holds(token.kind);
        let closes = TokenClass::Only(TokenKind::RoundClose).holds(token.kind);
        let qualifies = TokenClass::Qualifying.holds(token.kind);
        Counts {
            opened: self.opened + usize::from(opens),
            closed: self.closed + usize::from(closes),
            qualifiers: self.qualifiers + usize::from(qualifies),
            after_in: TokenClass::Only(TokenKind::Among).holds(token.kind),
        }
    }
}

/// The number of tokens before the first that exceeds a limit.
pub(crate) fn first_too_many(tokens: &[Token]) -> Option<usize>
    ensures some { IfSome result (IsFirstAt tokens.now) }
    ensures below { IfSome result (λ count. count < length tokens.now) }
    ensures none { IfNone result (NoneTooMany tokens.now) }
{
    let mut counts = Counts::none();
    for (before, token) in tokens.iter().enumerate() {
        if counts.is_too_many(*token) {
            return Some(before);
        }
        counts = counts.with(*token);
    }
    None
}
