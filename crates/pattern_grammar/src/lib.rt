//! The parser of STIX 2.1 patterns (section 9), by recursive descent over tokens. `parse` returns
//! the syntax tree, or the first token that doesn't fit. `read_tree` also limits the nesting, and
//! turns tokens into byte offsets.
//!
//! specs/Grammar.antt states the grammar with one relation for each production. The theorems
//! `prefixes`, `one_language`, `one_pattern` and `one_answer` are about it: the error is always at
//! the end of the longest viable prefix, and the grammar is unambiguous.
//!
//! ```ignore
//! match read_tree(alloc, tokens.as_slice(), text.len())? {
//!     Ok(tree) => handle(tree),
//!     Err(refusal) => report(refusal.name(), refusal.at()), // "Syntax", 12
//! }
//! ```
#![tactic(auto)]

mod class;
mod comparison;
mod depth;
mod laws;
mod make;
mod parse_check;
mod parse_comparison;
mod parse_path;
mod parse_pattern;
mod path;
mod pattern;
mod qualifier;
mod read;
mod refusal;
mod stop;
mod take;

pub use class::TokenClass;
pub use comparison::{CheckTree, ComparisonTree, Conjunction, Operand, TestTree};
pub use depth::MAX_DEPTH;
pub use laws::{one_answer, one_language, one_pattern, prefixes};
pub use parse_pattern::parse;
pub use path::{PathTree, StepTree};
pub use pattern::PatternTree;
pub use qualifier::Qualifier;
pub use read::read_tree;
pub use refusal::SyntaxRefusal;
pub use stop::Stop;
