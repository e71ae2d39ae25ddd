//! Consequences of the definitions: each contract is a theorem, and its function does nothing.

ghost use Rattle.std.specs.Prelude.{◌≡◌, ◌<◌, ◌≤◌, ℕ, List, length};
ghost use Rattle.pattern_types.specs.PlainPattern.{PlainPattern, plain_pattern};
ghost use Rattle.pattern_reader.specs.declared.pattern_refusal.PatternRefusal.{PatternRefusal};
ghost use Rattle.pattern_reader.specs.declared.pattern_refusal.PatternRefusal.TheVariants as PatternRefusal;
ghost use Rattle.pattern_types.specs.declared.pattern.Pattern.{Pattern};
ghost use Rattle.pattern_reader.specs.declared.read.TheConstants.{MAX_TEXT};
ghost use Rattle.pattern_reader.specs.Read.{IsReadAs, IsRefusedAs};
ghost use Rattle.pattern_writer.specs.Canonical.{IsCanonical};

use stix_times::laws::one_canonical_text;

/// A pattern has one canonical text.
pub fn one_text()
    ensures { (pattern : PlainPattern) (first second : List ℕ) → IsCanonical pattern first
        → IsCanonical pattern second → first ≡ second }
{
    one_canonical_text();
}

/// If some text is read as a pattern, so is the pattern's canonical text, with the same result. A
/// canonical text of more than 65,536 bytes is refused as TooLong.
pub fn reads_back()
    ensures back { (pattern : Pattern) (text canonical : List ℕ) → IsReadAs text pattern
        → IsCanonical (plain_pattern pattern) canonical → length canonical ≤ MAX_TEXT
        → IsReadAs canonical pattern }
    ensures long { (canonical : List ℕ) (refusal : PatternRefusal) → MAX_TEXT < length canonical
        → IsRefusedAs canonical refusal → refusal ≡ PatternRefusal.TooLong }
{}
