use flow_values::Items;
use stix_bundles::{Bundle, Observation};

/// A bundle of an input, with its observations.
#[derive(Drop)]
pub struct Batch {
    /// The number of its line, counted from 1.
    pub line: u64,
    /// The bundle.
    pub bundle: Bundle,
    /// Its observations in the order in which they were last observed, numbered through the input.
    pub observations: Items<Observation>,
}
