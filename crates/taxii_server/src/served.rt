/// Counts of what a server has done.
#[derive(Clone, Copy, Debug, PartialEq, Eq, Hash)]
pub struct Served {
    pub connections: u64,
    /// The number of requests that were answered, at least in part.
    pub requests: u64,
}
