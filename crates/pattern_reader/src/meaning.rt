use crate::ValueRefusal;
use pattern_types::Pattern;

/// The meaning of a syntax tree.
#[derive(Debug, Drop)]
pub enum Meaning {
    /// A valid pattern.
    Sound(Pattern),
    /// A pattern with valid values that is too wide.
    TooWide,
    /// The first refused value, by its byte offset.
    Refused(ValueRefusal),
}
