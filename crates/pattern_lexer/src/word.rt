ghost use Rattle.std.specs.Prelude.{◌↔◌, IsTrue, Contains};
ghost use Rattle.pattern_lexer.specs.Word.{IsWordStart, IsWordPart, HasAt, keywords, IsWord};

/// The keywords.
const KEYWORDS: [&str; 17] = [
    "AND",
    "OR",
    "NOT",
    "FOLLOWEDBY",
    "WITHIN",
    "SECONDS",
    "REPEATS",
    "TIMES",
    "START",
    "STOP",
    "IN",
    "LIKE",
    "ISSUBSET",
    "ISSUPERSET",
    "EXISTS",
    "true",
    "false",
];

/// Whether a word may begin with the byte.
fn is_word_start(byte: u8) -> bool
    ensures { IsTrue result ↔ IsWordStart byte }
{
    byte.is_ascii_alphabetic() || byte == b'_'
}

/// Whether a word may hold the byte.
fn is_word_part(byte: u8) -> bool
    ensures { IsTrue result ↔ IsWordPart byte }
{
    is_word_start(byte) || byte.is_ascii_digit()
}

/// Whether the text begins as a word does.
fn starts_as_word(text: &str) -> bool
    ensures { IsTrue result ↔ HasAt 0 IsWordStart text.now }
{
    match text.as_bytes().first() {
        Some(byte) => is_word_start(*byte),
        None => false,
    }
}

/// Whether the text is a keyword.
fn is_keyword(text: &str) -> bool
    ensures { IsTrue result ↔ Contains keywords text.now }
{
    KEYWORDS.contains(&text)
}

/// Whether the text is a Word: a letter or `_`, then letters, digits and `_`, and not a keyword.
/// Allocates nothing.
pub fn is_word(text: &str) -> bool
    ensures { IsTrue result ↔ IsWord text.now }
{
    starts_as_word(text)
        && text.as_bytes().iter().all(|byte| is_word_part(*byte))
        && !is_keyword(text)
}
