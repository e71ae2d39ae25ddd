/// The versions of an object that a client requests (`match[version]` of TAXII 2.1, section 3.4).
#[derive(Clone, Copy, Debug, PartialEq, Eq)]
pub enum Pick {
    /// The latest version.
    Last,
    /// The earliest version.
    First,
    /// Every version.
    All,
    /// The version of this `modified` time, in microseconds since 1970.
    At(i64),
}
