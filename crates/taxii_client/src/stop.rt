use crate::{ReplyRefusal, StoreRefusal};
use taxii_store::LoadRefusal;
use thiserror::Error;

/// Why a copy requests no further page.
#[derive(Clone, Copy, Debug, PartialEq, Eq, Error)]
pub enum FetchStop {
    /// The maximum number of lost fetches is reached.
    #[error("too many fetches were lost")]
    LinkLost,
    /// The response is no page.
    #[error("the reply is refused: {0}")]
    Refused(ReplyRefusal),
    /// The maximum number of pages is reached.
    #[error("too many pages")]
    TooManyPages,
    #[error("out of memory")]
    NoMemory,
}

/// Why a copy ends before all pages are absorbed.
#[derive(Clone, Copy, Debug, PartialEq, Eq, Error)]
pub enum CopyStop {
    /// The store could not be loaded.
    #[error(transparent)]
    NotLoaded(LoadRefusal),
    /// The next page did not arrive.
    #[error(transparent)]
    NotFetched(FetchStop),
    /// The last page could not be absorbed.
    #[error(transparent)]
    NotAbsorbed(StoreRefusal),
}
