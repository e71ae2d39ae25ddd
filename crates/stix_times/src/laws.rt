//! Consequences of the definitions: each contract is a theorem, and its function does next to
//! nothing.

ghost use Rattle.std.specs.Prelude.{◌≡◌, ◌↔◌, ℕ, ℤ, List, IsTrue, ◌<ℤ◌, ◌≤◌};
ghost use Rattle.stix_times.specs.Reading.{IsTextOfInstant, IsMillisTextOf};
ghost use Rattle.stix_times.specs.Writing.{IsCanonicalTextOf, IsTextOfDigits, IsWhole};

use crate::Instant;

/// A text names at most one instant.
pub fn one_instant()
    ensures { (text : List ℕ) (first second : ℤ) → IsTextOfInstant text first
        → IsTextOfInstant text second
        → first ≡ second }
{}

/// An instant has at most one canonical text.
pub fn one_canonical_text()
    ensures { (instant : ℤ) (first second : List ℕ) → IsCanonicalTextOf first instant
        → IsCanonicalTextOf second instant → first ≡ second }
{}

/// An instant has at most one text with a given number of fraction digits.
pub fn one_text_of_digits()
    ensures { (digits : ℕ) (instant : ℤ) (first second : List ℕ)
        → IsTextOfDigits digits first instant → IsTextOfDigits digits second instant
        → first ≡ second }
{}

/// A written text reads back as its instant. With three to six fraction digits, so does
/// `read_millis`.
pub fn written_reads_back()
    ensures shortest { (instant : ℤ) (text : List ℕ) → IsCanonicalTextOf text instant
        → IsTextOfInstant text instant }
    ensures digits { (digits : ℕ) (instant : ℤ) (text : List ℕ) → IsTextOfDigits digits text instant
        → IsTextOfInstant text instant }
    ensures millis { (digits : ℕ) (instant : ℤ) (text : List ℕ) → 3 ≤ digits → digits ≤ 6
        → IsTextOfDigits digits text instant → IsMillisTextOf text instant }
{}

/// A text with three to six fraction digits names a whole number of microseconds.
pub fn millis_are_whole()
    ensures { (text : List ℕ) (instant : ℤ) → IsMillisTextOf text instant → IsWhole 1000 instant }
{}

/// The order of instants is that of their nanoseconds.
pub fn is_before(first: Instant, second: Instant) -> bool
    ensures { IsTrue result ↔ (first <ℤ second) }
{
    first < second
}
