//! The requests of a command line.

use flow_values::Items;

/// A parsed command line.
#[derive(Debug, Drop)]
pub enum Request<'a> {
    /// `match [--whole] [--cap N] PATTERN`
    Match(MatchRequest<'a>),
    /// `check`
    Check,
    /// `show PATTERN`
    Show {
        /// The text of the pattern.
        pattern: &'a str,
    },
    /// `make SEED COUNT`
    Make {
        /// The seed of the generator.
        seed: u32,
        /// The number of observations.
        count: u32,
    },
    /// `serve --port P --connections N [--store FILE] [--base URL] COLLECTION...`
    Serve(ServeRequest<'a>),
}

/// The request of a `match`.
#[derive(Clone, Copy, Debug)]
pub struct MatchRequest<'a> {
    /// Whether the input is one bundle, instead of one per line.
    pub whole: bool,
    /// The maximum number of retained partial matches.
    pub retained_limit: u64,
    /// The text of the pattern.
    pub pattern: &'a str,
}

/// The request of a `serve`.
#[derive(Debug, Drop)]
pub struct ServeRequest<'a> {
    /// The port to listen at.
    pub port: u16,
    /// The number of connections to serve.
    pub connections: u32,
    /// The database file. Without one, the rows are kept in memory.
    pub store: Option<&'a str>,
    /// The base URL of the server, without a trailing slash.
    pub base: Option<&'a str>,
    /// The collections, in this order, with distinct identifiers.
    pub collections: Items<CollectionRequest<'a>>,
}

/// A collection to be served.
#[derive(Clone, Copy, Debug)]
pub struct CollectionRequest<'a> {
    /// Its UUID as a number.
    pub id: u128,
    /// Whether clients may read its objects.
    pub can_read: bool,
    /// Whether clients may add objects.
    pub can_write: bool,
    /// Its title.
    pub title: &'a str,
}

/// Why arguments give no request.
#[derive(Clone, Copy, Debug, PartialEq, Eq)]
pub enum ArgumentsRefusal {
    /// They are no command line.
    NoLine,
    /// Memory ran out.
    NoMemory,
}
