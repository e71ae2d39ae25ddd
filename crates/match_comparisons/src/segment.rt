//! A segment of a LIKE pattern: a part without `%`, and where it matches a text.
ghost use Rattle.std.specs.Prelude.{◌↔◌, ◌∷◌, List, ℕ, MatchOption, IsTrue};
ghost use Rattle.std.specs.Str.{chars};
ghost use Rattle.match_comparisons.specs.Like.{any_run, IsLike};
ghost use Rattle.match_comparisons.specs.inner.Segments.{LacksCharacter, LeavesAfterPrefix};
ghost use Rattle.match_comparisons.specs.inner.Segments.{LeavesMost};

use crate::characters::{split_first, split_last};
use crate::places::skip_misses;
use crate::wildcards::ANY_ONE;

/// Whether the whole text matches the segment.
pub(crate) fn is_like_segment(text: &str, segment: &str) -> bool
    requires { LacksCharacter (chars segment.now) any_run }
    ensures { IsTrue result ↔ IsLike (chars text.now) (chars segment.now) }
{
    match strip_front(text, segment) {
        Some(left) => left.is_empty(),
        None => false,
    }
}

/// The text after a prefix that matches the segment, if there is one.
pub(crate) fn strip_front<'a>(whole_text: &'a str, whole_segment: &str) -> Option<&'a str>
    requires { LacksCharacter (chars whole_segment.now) any_run }
    ensures { MatchOption result ((left : List ℕ)
        → ¬ LeavesAfterPrefix (chars whole_text.now) (chars whole_segment.now) left)
        (λ left. LeavesAfterPrefix (chars whole_text.now) (chars whole_segment.now)
        (chars left.now)) }
{
    let mut text = whole_text;
    let mut segment = whole_segment;
    while let Some((expected, after)) = split_first(segment) {
        let (found, rest) = split_first(text)?;
        if expected != ANY_ONE && expected != found {
            return None;
        }
        text = rest;
        segment = after;
    }
    Some(text)
}

/// The text after the first match of the segment, as after a `%`.
pub(crate) fn after_first_match<'a>(text: &'a str, segment: &str) -> Option<&'a str>
    requires { LacksCharacter (chars segment.now) any_run }
    // The first match leaves the most text. None: no match at all.
    ensures { MatchOption result ((left : List ℕ)
        → ¬ LeavesAfterPrefix (chars text.now) (any_run ∷ chars segment.now) left)
        (λ left. LeavesMost (chars text.now) (chars segment.now) (chars left.now)) }
{
    if segment.contains(ANY_ONE) {
        return scan_first_match(text, segment);
    }
    let (_, left) = text.split_once(segment)?;
    Some(left)
}

/// As `after_first_match`, also with `_` in the segment: tries each place where it may match.
fn scan_first_match<'a>(whole_text: &'a str, segment: &str) -> Option<&'a str>
    requires { LacksCharacter (chars segment.now) any_run }
    ensures { MatchOption result ((left : List ℕ)
        → ¬ LeavesAfterPrefix (chars whole_text.now) (any_run ∷ chars segment.now) left)
        (λ left. LeavesMost (chars whole_text.now) (chars segment.now) (chars left.now)) }
{
    let mut text = whole_text;
    loop {
        text = skip_misses(text, segment);
        if let Some(left) = strip_front(text, segment) {
            return Some(left);
        }
        let (_, rest) = split_first(text)?;
        text = rest;
    }
}

/// Whether some suffix of the text matches the segment, as after a `%`.
pub(crate) fn has_end(whole_text: &str, whole_segment: &str) -> bool
    requires { LacksCharacter (chars whole_segment.now) any_run }
    ensures { IsTrue result ↔ IsLike (chars whole_text.now) (any_run ∷ chars whole_segment.now) }
{
    let mut text = whole_text;
    let mut segment = whole_segment;
    while let Some((before, expected)) = split_last(segment) {
        let Some((rest, found)) = split_last(text) else {
            return false;
        };
        if expected != ANY_ONE && expected != found {
            return false;
        }
        text = rest;
        segment = before;
    }
    true
}
