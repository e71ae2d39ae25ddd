use thiserror::Error;

/// The maximum size of a response body in bytes.
pub const MAX_REPLY: u64 = 67_108_864;

/// Why the head of a response is refused.
#[derive(Clone, Copy, Debug, PartialEq, Eq, Hash, Error)]
pub enum HeadRefusal {
    /// It does not match the grammar, or does not end within `MAX_HEAD` bytes.
    #[error("bad head")]
    BadHead,
    /// Its status is not 200.
    #[error("status {code}")]
    Status { code: u16 },
    /// The body has a transfer coding.
    #[error("transfer coding")]
    Coding,
    /// It has no Content-Length, or several that differ.
    #[error("no length")]
    NoLength,
    /// The body has more than `MAX_REPLY` bytes.
    #[error("body too large")]
    TooLarge,
}
