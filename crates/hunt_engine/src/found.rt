use match_bindings::Bind;

/// A binding of one of many patterns.
#[derive(Drop)]
pub struct Hit {
    /// The index of the pattern in the hunted list, from 0.
    pub hunted: u32,
    /// The binding.
    pub bind: Bind,
}
