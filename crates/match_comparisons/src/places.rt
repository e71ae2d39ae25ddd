//! The places of a text where a segment of a LIKE pattern may match, 64 at a time.
//!
//! Each place has a bit of a word. Each character of the segment clears the bits of the places
//! that it rules out, by one comparison of 64 lanes. So a `_` costs no more than another character.
ghost use Rattle.std.specs.Prelude.{◌≡◌, ◌<◌, ◌≤◌, ◌+◌, ◌==◌, ℕ, List, cond, drop, get_or, length};
ghost use Rattle.std.specs.Int.{bit_at};
ghost use Rattle.std.specs.Str.{chars};
ghost use Rattle.match_comparisons.specs.Like.{any_run};
ghost use Rattle.match_comparisons.specs.inner.Segments.{LacksCharacter};
ghost use Rattle.match_comparisons.specs.inner.Places.{FitsMark, KeepsPlaces, SamePlaces, Shows};
ghost use Rattle.match_comparisons.specs.inner.Places.{mark_at};

use crate::characters::split_first;
use crate::wildcards::ANY_ONE;
use std::simd::prelude::*;

/// How many places are compared at once.
const PLACES: usize = 64;

/// The text from the first place on where the segment may match, or its end where there is none.
pub(crate) fn skip_misses<'a>(whole_text: &'a str, segment: &str) -> &'a str
    requires { LacksCharacter (chars segment.now) any_run }
    ensures same { SamePlaces (chars whole_text.now) (chars result.now) (chars segment.now) }
    ensures within { length (chars result.now) ≤ length (chars whole_text.now) }
{
    let mut text = whole_text;
    while !text.is_empty() {
        let places = candidates(text, segment);
        // The first place that is left, or 64 where none is.
        text = skip(text, places.trailing_zeros() as usize);
        if places != 0 {
            break;
        }
    }
    text
}

/// A bit for each of the first 64 places of the text: 0 where the segment doesn't match.
fn candidates(whole_text: &str, whole_segment: &str) -> u64
    requires { LacksCharacter (chars whole_segment.now) any_run }
    ensures { KeepsPlaces (chars whole_text.now) (chars whole_segment.now) result }
{
    let (mut window, mut text) = window_of(whole_text);
    let mut segment = whole_segment;
    let mut at = 0;
    let mut places = u64::MAX;
    while let Some((expected, after)) = split_first(segment) {
        places &= equal_places(&window, at, expected);
        if places == 0 {
            return 0;
        }
        let (mark, rest) = next_mark(text);
        at = advance(&mut window, at, mark);
        text = rest;
        segment = after;
    }
    places
}

/// A bit for each of the 64 marks from `at` on: 0 where the character doesn't fit.
#[inline]
fn equal_places(window: &[u32; 128], at: usize, expected: char) -> u64
    requires { at < 64 }
    ensures { (i : ℕ) → i < 64 → bit_at result i ≡ 0
        → ¬ FitsMark expected (get_or window.now (at + i) 0) }
{
    if expected == ANY_ONE {
        !equal_lanes(window, at, 0)
    } else {
        equal_lanes(window, at, expected as u32 + 1)
    }
}

/// A bit for each of the 64 marks from `at` on: 1 where it is this one.
#[inline]
fn equal_lanes(window: &[u32], at: usize, mark: u32) -> u64
    requires { at + 63 < length window.now }
    ensures { (i : ℕ) → i < 64
        → bit_at result i ≡ cond (get_or window.now (at + i) 0 == mark) 1 0 }
{
    u32x64::from_slice(&window[at..])
        .simd_eq(u32x64::splat(mark))
        .to_bitmask()
}

/// The marks of the first 64 characters, twice in a row, and the text after these.
fn window_of(whole_text: &str) -> ([u32; 128], &str)
    ensures marks { Shows result.0 (chars whole_text.now) 0 }
    ensures rest { chars result.1.now ≡ drop 64 (chars whole_text.now) }
{
    let mut window = [0; 128];
    let mut text = whole_text;
    for at in 0..PLACES {
        let (mark, rest) = next_mark(text);
        window[at] = mark;
        window[at + PLACES] = mark;
        text = rest;
    }
    (window, text)
}

/// Moves the window by one character: `mark` replaces the one at `at`, and the next is the first.
#[inline]
fn advance(window: &mut [u32; 128], at: usize, mark: u32) -> usize
    requires { at < 64 }
    ensures { (text : List ℕ) → Shows window.old text at → mark ≡ mark_at text 64
        → Shows window.new (drop 1 text) result }
{
    window[at] = mark;
    window[at + PLACES] = mark;
    (at + 1) % PLACES
}

/// The text without its first `count` characters.
fn skip(whole_text: &str, count: usize) -> &str
    ensures { chars result.now ≡ drop count (chars whole_text.now) }
{
    let mut text = whole_text;
    for i in 0..count {
        let (_, rest) = next_mark(text);
        text = rest;
    }
    text
}

/// The mark of the first character, which is its code point and 1, and the text after it. The mark
/// is 0 where the text is empty.
#[inline]
fn next_mark(text: &str) -> (u32, &str)
    ensures mark { result.0 ≡ mark_at (chars text.now) 0 }
    ensures rest { chars result.1.now ≡ drop 1 (chars text.now) }
{
    match split_first(text) {
        Some((first, rest)) => (first as u32 + 1, rest),
        None => (0, text),
    }
}
