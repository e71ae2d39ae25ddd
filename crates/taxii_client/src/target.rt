use flow_values::Text;

/// The target of a pull: a collection of a peer, with a page size and an optional start time.
#[derive(Debug, Drop)]
pub struct Target {
    /// The peer's host name or address.
    pub host: Text,
    pub port: u16,
    /// The path of the API root, with a slash at both ends.
    pub root: Text,
    /// The collection's UUID as a number.
    pub collection: u128,
    pub limit: u64,
    /// A timestamp: only objects added after it are requested; `None` requests all (TAXII 2.1,
    /// section 3.4, `added_after`).
    pub since: Option<Text>,
}
