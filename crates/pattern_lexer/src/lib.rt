//! The lexer of STIX 2.1 patterns (section 9). `tokens` splits a text into the longest tokens from
//! the left, or returns the first refusal with its byte offset. A `Token` is a kind and a byte
//! range.
//!
//! `integer_at`, `string_at`, `hex_at`, `binary_at` and `timestamp_at` return the value of a token
//! in its text. `integer_of` and its siblings do the same for the token's own text.
//!
//! ```ignore
//! let text = "[file:size = 25]";
//! match tokens(alloc, text)? {
//!     Ok(tokens) => handle(tokens.as_slice()), // `[`, `file`, `:`, `size`, ..
//!     Err(refusal) => report(refusal.name(), refusal.at()),
//! }
//! ```
#![tactic(auto)]

mod first;
mod lexer;
pub mod lexer_laws;
mod names;
mod number_runs;
mod number_values;
mod punctuation;
mod quoted;
mod refusal;
mod refusals;
mod runs;
mod spans;
mod token;
mod token_laws;
mod unescape;
mod values;
mod word;

pub use lexer::tokens;
pub use number_values::{count_at, index_at};
pub use refusal::{LeftWord, TokenRefusal};
pub use spans::{binary_at, hex_at, integer_at, string_at, text_of, timestamp_at};
pub use token::{Token, TokenKind};
pub use token_laws::one_meaning;
pub use values::{binary_of, hex_of, integer_of, string_of, timestamp_of};
pub use word::is_word;
