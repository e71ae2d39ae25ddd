use thiserror::Error;

/// A read or a write on a source, a sink or another I/O object failed. The object has already
/// counted the failure.
#[derive(Clone, Copy, Debug, PartialEq, Eq, Hash, Error)]
#[error("the outside failed")]
pub struct Fault;
