//! The wildcards of LIKE.
ghost use Rattle.std.specs.Prelude.{◌≡◌, ◌++◌, ◌∷◌, MatchOption};
ghost use Rattle.std.specs.Str.{chars};
ghost use Rattle.match_comparisons.specs.Like.{any_run};
ghost use Rattle.match_comparisons.specs.inner.Segments.{LacksCharacter, OccursAfter};

use memchr::memchr;

/// Matches any one character.
pub(crate) const ANY_ONE: char = '_';

/// Splits the pattern at its first `%`. None where there is no `%` after at most `most` bytes.
pub(crate) fn split_at_run(pattern: &str, most: usize) -> Option<(&str, &str)>
    ensures { MatchOption result (OccursAfter pattern.now any_run most)
        (λ (segment, rest). (chars pattern.now ≡ chars segment.now ++ any_run ∷ chars rest.now)
        × LacksCharacter (chars segment.now) any_run) }
{
    let bytes = pattern.as_bytes();
    let near = &bytes[..bytes.len().min(most.saturating_add(1))];
    let at = memchr(b'%', near)?;
    Some((&pattern[..at], &pattern[at + 1..]))
}
