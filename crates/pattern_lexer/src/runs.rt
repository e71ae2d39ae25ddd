ghost use Rattle.std.specs.Prelude.{◌≡◌, ◌≢◌, ◌∷◌, ◌↔◌, IsTrue, List, ℕ, IfSome, IfNone};
ghost use Rattle.pattern_lexer.specs.inner.Steps.{InClass, IsRun};

/// A class of bytes that the lexer scans as a run.
#[derive(Clone, Copy)]
pub enum CharacterClass {
    /// White space: spaces, tabs and line ends.
    Blank,
    /// Decimal digits.
    Digit,
    /// The bytes of a name after the first.
    NamePart,
    /// All bytes but `'`.
    Unquoted,
}

impl CharacterClass {
    fn has(self, byte: u8) -> bool
        ensures { IsTrue result ↔ InClass self byte }
    {
        match self {
            CharacterClass::Blank => matches!(byte, b' ' | b'\t' | b'\r' | b'\n'),
            CharacterClass::Digit => byte.is_ascii_digit(),
            CharacterClass::NamePart => byte.is_ascii_alphanumeric()
                || byte == b'_'
                || byte == b'-',
            CharacterClass::Unquoted => byte != b'\'',
        }
    }
}

/// Splits off the longest prefix of bytes in the class.
pub fn split_run(bytes: &[u8], class: CharacterClass) -> (&[u8], &[u8])
    ensures { IsRun (InClass class) bytes.now result.0.now result.1.now }
{
    let end = bytes
        .iter()
        .position(|byte| !class.has(*byte))
        .unwrap_or(bytes.len());
    bytes.split_at(end)
}

/// The bytes after a leading `first`.
pub fn strip_byte(bytes: &[u8], first: u8) -> Option<&[u8]>
    ensures some { IfSome result (λ after. bytes.now ≡ first ∷ after.now) }
    ensures none { IfNone result ((after : List ℕ) → bytes.now ≢ first ∷ after) }
{
    let (byte, after) = bytes.split_first()?;
    if *byte == first { Some(after) } else { None }
}
