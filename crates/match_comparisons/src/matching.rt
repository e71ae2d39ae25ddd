//! The operator LIKE: greedy wildcard matching, segment by segment (STIX 2.1, section 9.6.1).
//!
//! A pattern splits at its `%` into segments. The first has to match a prefix of the text, the last
//! a suffix, and each one between is taken at its first match after the previous one. No other
//! match is tried, and that is enough. The first match leaves the most text: what the `%` before it
//! could skip besides, the `%` after it can skip instead.
//!
//! It costs about as many steps as text and pattern have bytes. Only a segment with a `_` between
//! two `%` may cost the product of its length and the text's.
ghost use Rattle.std.specs.Prelude.{◌↔◌, ◌∷◌, IsTrue};
ghost use Rattle.std.specs.Str.{chars};
ghost use Rattle.match_comparisons.specs.Like.{any_run, IsLike};

use crate::segment::{after_first_match, has_end, is_like_segment, strip_front};
use crate::wildcards::split_at_run;

/// Whether the whole text matches the pattern: `%` matches any run of characters, even an empty
/// one, `_` any one character, and any other character itself.
pub fn like(text: &str, pattern: &str) -> bool
    ensures { IsTrue result ↔ IsLike (chars text.now) (chars pattern.now) }
{
    match split_at_run(pattern, text.len()) {
        Some((segment, rest)) => match strip_front(text, segment) {
            Some(left) => matches_after_run(left, rest),
            None => false,
        },
        None => pattern.len() <= text.len() && is_like_segment(text, pattern),
    }
}

/// Whether some suffix of the text matches the pattern, as after a `%`: takes each segment at its
/// first match.
fn matches_after_run(whole_text: &str, whole_pattern: &str) -> bool
    ensures { IsTrue result ↔ IsLike (chars whole_text.now) (any_run ∷ chars whole_pattern.now) }
{
    let mut text = whole_text;
    let mut pattern = whole_pattern;
    while let Some((segment, rest)) = split_at_run(pattern, text.len()) {
        let Some(left) = after_first_match(text, segment) else {
            return false;
        };
        text = left;
        pattern = rest;
    }
    pattern.len() <= text.len() && has_end(text, pattern)
}
