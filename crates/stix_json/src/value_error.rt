use crate::location::Location;

/// Why `Json` can't represent a value.
#[derive(Clone, Copy, Debug, PartialEq, Eq)]
pub(crate) enum Reason {
    NotWhole,
    Null,
    OutOfRange,
}

/// A value that `Json` can't represent: the reason and its location.
#[derive(Debug, Drop)]
pub(crate) struct ValueError {
    pub reason: Reason,
    pub location: Location,
}
