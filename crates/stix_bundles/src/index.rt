use crate::positions::Positions;

/// The greatest number of objects that are searched without an index.
pub(crate) const MAX_UNINDEXED_OBJECTS: usize = 4;

/// An index of the latest version of each identifier.
#[derive(Drop)]
pub(crate) enum Index {
    /// A few objects without an index: a linear search costs less, and allocates nothing.
    Unindexed,
    Many(Positions),
}
