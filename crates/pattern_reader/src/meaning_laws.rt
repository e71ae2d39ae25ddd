//! Consequences of the definitions: each contract is a theorem, and its function does nothing.

ghost use Rattle.std.specs.Prelude.{◌≡◌, ℕ, List};
ghost use Rattle.pattern_grammar.specs.Tree.{Tree};
ghost use Rattle.pattern_types.specs.PlainPattern.{PlainPattern};
ghost use Rattle.pattern_reader.specs.declared.value_refusal.ValueRefusal.{ValueRefusal};
ghost use Rattle.pattern_reader.specs.PatternMeaning.{MeansPattern};
ghost use Rattle.pattern_types.specs.Soundness.{IsSoundPattern};
ghost use Rattle.pattern_reader.specs.ValueRefusal.{IsEarliest};
ghost use Rattle.pattern_reader.specs.Refusals.{RefusalOf};

/// A syntax tree over a text means at most one pattern.
pub fn one_meaning()
    ensures { (text : List ℕ) (tree : Tree) (first second : PlainPattern)
        → MeansPattern text tree first
        → MeansPattern text tree second → first ≡ second }
{
    pattern_lexer::one_meaning();
    pattern_types::block_laws::one_block();
}

/// A syntax tree with a sound pattern has no refused value.
pub fn none_refused()
    ensures { (text : List ℕ) (tree : Tree) (pattern : PlainPattern) (refusal : ValueRefusal)
        → MeansPattern text tree pattern
        → IsSoundPattern pattern → ¬ RefusalOf text tree refusal }
{}

/// A syntax tree has at most one first refusal.
pub fn one_refusal()
    ensures { (text : List ℕ) (tree : Tree) (first second : ValueRefusal)
        → IsEarliest (RefusalOf text tree) first
        → IsEarliest (RefusalOf text tree) second → first ≡ second }
{}
