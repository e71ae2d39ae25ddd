//! Consequences of the grammar: each contract is a theorem, and its function does nothing.

ghost use Rattle.std.specs.Prelude.{◌≡◌, ◌++◌, ℕ, List};
ghost use Rattle.pattern_lexer.specs.declared.token.Token.{Token};
ghost use Rattle.pattern_grammar.specs.declared.refusal.SyntaxRefusal.{SyntaxRefusal};
ghost use Rattle.pattern_grammar.specs.Answer.{BeginsPattern, Completes};
ghost use Rattle.pattern_grammar.specs.Prefixes.{Derives, line, pattern};
ghost use Rattle.pattern_grammar.specs.Grammar.{IsPattern};
ghost use Rattle.pattern_grammar.specs.Answer.{IsMisread, IsTreeOf};
ghost use Rattle.pattern_grammar.specs.Tree.{Tree};

/// Tokens are a viable prefix exactly if some extension of them is a pattern.
pub fn prefixes()
    ensures continues { (ts : List Token) → BeginsPattern ts → Completes ts }
    ensures begins { (ts more : List Token) (p : Tree) → IsPattern (ts ++ more) p
        → BeginsPattern ts }
{}

/// The grammar is unambiguous: a list of tokens has at most one syntax tree.
pub fn one_pattern()
    ensures { (ts : List Token) (p q : Tree) → IsPattern ts p → IsPattern ts q → p ≡ q }
{}

/// Tokens with a syntax tree have no refusal, and others have at most one.
pub fn one_answer()
    ensures tree { (ts : List Token) (end : ℕ) (p : Tree) (refusal : SyntaxRefusal) → IsTreeOf ts p
        → ¬ IsMisread ts end refusal }
    ensures refusal { (ts : List Token) (end : ℕ) (first second : SyntaxRefusal)
        → IsMisread ts end first
        → IsMisread ts end second → first ≡ second }
{}

/// The grammar as production rules, which prefixes are defined by, and the relations to syntax
/// trees define the same language.
pub fn one_language()
    ensures derived { (ts : List Token) (p : Tree) → IsPattern ts p → Derives (line pattern) ts }
    ensures spelled { (ts : List Token) → Derives (line pattern) ts → (p : Tree) × IsPattern ts p }
{}
