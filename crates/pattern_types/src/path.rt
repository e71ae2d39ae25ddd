use flow_values::{Items, Text};

/// The greatest number of steps of an object path.
pub const MAX_STEPS: usize = 16;

/// An object path (STIX 2.1, section 9.7): an object type, and the steps from the object to the
/// values.
#[derive(Debug, Drop)]
pub struct Path {
    /// The type of the object, as `ipv4-addr`.
    pub kind: Text,
    /// The steps; the first one is a name.
    pub steps: Items<Step>,
}

/// One step of an object path.
#[derive(Debug, Drop)]
pub enum Step {
    /// `.name`, or `.'name'`: a property, or the object that a reference property refers to.
    Name(Text),
    /// `[n]`: an item of a list, counted from 0.
    Place(u32),
    /// `[*]`: any item of a list.
    Each,
}
