//! Consequences of the definitions: the contract is a theorem, and its function does nothing.

ghost use Rattle.std.specs.Prelude.{◌≡◌, ℕ, List, Result};
ghost use Rattle.pattern_lexer.specs.declared.token.Token.{Token};
ghost use Rattle.pattern_lexer.specs.declared.refusal.TokenRefusal.{TokenRefusal};
ghost use Rattle.pattern_lexer.specs.Reading.{ReadsTokens};

/// A text has tokens or a refusal, exactly one of them.
pub fn one_reading()
    ensures { (text : List ℕ) (first second : Result (List Token) TokenRefusal)
        → ReadsTokens text first
        → ReadsTokens text second → first ≡ second }
{}
