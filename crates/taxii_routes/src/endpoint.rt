/// The endpoint of a path, without the identifiers in it.
#[derive(Clone, Copy, Debug, PartialEq, Eq)]
pub enum Endpoint {
    Discovery,
    Root,
    Status,
    Collections,
    Collection,
    Manifest,
    Objects,
    Object,
    Versions,
}
