//! Consequences of the definitions: each contract is a theorem, and its function does nothing.

ghost use Rattle.std.specs.Prelude.{◌≡◌, ℕ, List};
ghost use Rattle.pattern_types.specs.declared.pattern.Pattern.{Pattern};
ghost use Rattle.pattern_types.specs.PlainPattern.{plain_pattern};
ghost use Rattle.pattern_reader.specs.declared.pattern_refusal.PatternRefusal.{PatternRefusal};
ghost use Rattle.pattern_reader.specs.declared.pattern_refusal.PatternRefusal.TheVariants as PatternRefusal;
ghost use Rattle.pattern_reader.specs.declared.value_refusal.ValueRefusal.TheVariants.{NoValue};
ghost use Rattle.pattern_reader.specs.Read.{IsReadAs, IsRefusedAs};

/// A text is read as at most one pattern.
pub fn one_pattern()
    ensures { (text : List ℕ) (p q : Pattern) → IsReadAs text p → IsReadAs text q
        → plain_pattern p ≡ plain_pattern q }
{
    pattern_lexer::lexer_laws::one_reading();
    pattern_grammar::one_pattern();
    crate::meaning_laws::one_meaning();
}

/// A text that is read as a pattern has no refusal.
pub fn none_refused()
    ensures { (text : List ℕ) (p : Pattern) (refusal : PatternRefusal) → IsReadAs text p
        → ¬ IsRefusedAs text refusal }
{
    pattern_lexer::lexer_laws::one_reading();
    pattern_grammar::one_pattern();
    pattern_grammar::one_answer();
    crate::meaning_laws::one_meaning();
    crate::meaning_laws::none_refused();
}

/// A text has at most one refusal. One of more than 65,536 bytes is only TooLong, and of two values
/// at one offset one comes first.
pub fn one_refusal()
    ensures { (text : List ℕ) (first second : PatternRefusal) → IsRefusedAs text first
        → IsRefusedAs text second → first ≡ second }
{
    pattern_lexer::lexer_laws::one_reading();
    pattern_grammar::one_pattern();
    pattern_grammar::one_answer();
    crate::meaning_laws::none_refused();
    crate::meaning_laws::one_refusal();
}

/// No text is refused as `NoValue`: each token of a text has a value.
pub fn no_value()
    ensures { (text : List ℕ) (at : ℕ) → ¬ IsRefusedAs text (PatternRefusal.Value (NoValue at)) }
{}
