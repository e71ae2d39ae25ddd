/// At an observation a pattern would retain more than the limit.
#[derive(Clone, Copy, Debug, PartialEq, Eq)]
pub struct OverLimit {
    /// The first such pattern, by the index of its indicator in the hunted list.
    pub hunted: u32,
    /// The number of the observation.
    pub number: u64,
    pub retained_limit: u64,
}
