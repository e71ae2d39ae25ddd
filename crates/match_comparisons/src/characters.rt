//! Splitting a text at its first or last character.
ghost use Rattle.std.specs.Prelude.{◌≡◌, [], ◌∷◌, ◌++◌, MatchOption};
ghost use Rattle.std.specs.Str.{chars};

/// The first character and the text after it, or None where the text is empty.
#[inline]
pub(crate) fn split_first(text: &str) -> Option<(char, &str)>
    ensures { MatchOption result (chars text.now ≡ [])
        (λ (first, rest). chars text.now ≡ first ∷ chars rest.now) }
{
    let mut characters = text.chars();
    let first = characters.next()?;
    Some((first, characters.as_str()))
}

/// The text before the last character, and that character, or None where the text is empty.
#[inline]
pub(crate) fn split_last(text: &str) -> Option<(&str, char)>
    ensures { MatchOption result (chars text.now ≡ [])
        (λ (rest, last). chars text.now ≡ chars rest.now ++ last ∷ []) }
{
    let mut characters = text.chars();
    let last = characters.next_back()?;
    Some((characters.as_str(), last))
}
