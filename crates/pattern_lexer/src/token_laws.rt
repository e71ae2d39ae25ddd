//! Consequences of the definitions: the contract is a theorem, and its function does nothing.

ghost use Rattle.std.specs.Prelude.{◌≡◌, ℕ, ℤ, List};
ghost use Rattle.pattern_lexer.specs.Values.{IsIntegerText, IsStringText, IsHexText, IsBinaryText};
ghost use Rattle.pattern_lexer.specs.Values.{IsTimestampText};

use stix_times::laws::one_instant;

/// The text of a token has at most one value.
pub fn one_meaning()
    ensures integer { (text : List ℕ) (first second : ℤ) → IsIntegerText text first
        → IsIntegerText text second → first ≡ second }
    ensures string { (text first second : List ℕ) → IsStringText text first
        → IsStringText text second → first ≡ second }
    ensures hex { (text first second : List ℕ) → IsHexText text first
        → IsHexText text second → first ≡ second }
    ensures binary { (text first second : List ℕ) → IsBinaryText text first
        → IsBinaryText text second → first ≡ second }
    ensures timestamp { (text : List ℕ) (first second : ℤ) → IsTimestampText text first
        → IsTimestampText text second → first ≡ second }
{
    one_instant();
}
