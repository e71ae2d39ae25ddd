use crate::{Refusal, Request};

/// The maximum size of a head in bytes, including the line ends before it.
pub const MAX_HEAD: usize = 16_384;

/// The first frame of a connection's bytes.
#[derive(Debug, Drop)]
pub enum Frame {
    /// Neither a complete request nor a refusal yet.
    More,
    Request(Request),
    Refused(Refusal),
}
