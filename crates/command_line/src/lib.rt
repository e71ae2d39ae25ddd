//! Parses the command line of `stix_command`: a command, then its options and positional arguments
//! in any order.
//!
//! ```text
//! match [--whole] [--cap N] PATTERN
//! check
//! show PATTERN
//! make SEED COUNT
//! serve --port P --connections N [--store FILE] [--base URL] COLLECTION...
//! ```
//!
//! A COLLECTION is `UUID:RIGHTS:TITLE`, with `r`, `w` or `rw` as its rights. [`read_arguments`]
//! returns the request, or that the arguments are no command line. It parses with `clap`; its
//! contract is the grammar, without `clap`.
//!
//! The arguments `match`, `--cap=7`, `--` and `-x` request the matches of the pattern `-x` with at
//! most 7 retained partial matches; a second `--cap` makes them no command line.
#![tactic(auto)]

mod arguments;
mod base;
mod collections;
pub mod laws;
mod numbers;
mod parser;
mod read;
mod request;
mod serve;

pub use arguments::program_arguments;
pub use base::MAX_BASE;
pub use collections::{MAX_COLLECTIONS, MAX_TITLE};
pub use numbers::{
    DEFAULT_RETAINED_LIMIT, MAX_CONNECTIONS, MAX_PORT, MAX_RETAINED_LIMIT, number_in,
};
pub use read::read_arguments;
pub use request::{ArgumentsRefusal, CollectionRequest, MatchRequest, Request, ServeRequest};
