/// The most nested lists and objects in a value. The outermost has level 1.
pub const MAX_LEVELS: usize = 64;

/// The greatest absolute value of an integer: 2^53 - 1, the greatest one that I-JSON (RFC 7493,
/// section 2.2) and every double can represent exactly.
pub const MAX_SAFE_INTEGER: u64 = 9_007_199_254_740_991;

/// The most nested lists and objects in a text: `serde_json` rejects deeper ones.
pub(crate) const MAX_TEXT_LEVELS: usize = 127;
