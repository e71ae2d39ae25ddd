use pattern_lexer::Token;

/// A qualifier of a pattern (STIX 2.1, section 9.5.1).
#[derive(Clone, Copy, Debug, PartialEq, Eq)]
pub enum Qualifier {
    /// `WITHIN x SECONDS`: the token of `x`.
    Within(Token),
    /// `REPEATS n TIMES`: the token of `n`.
    Repeats(Token),
    /// `START .. STOP ..`: the token `START`, and those of both times.
    Between {
        start: Token,
        from: Token,
        to: Token,
    },
}
