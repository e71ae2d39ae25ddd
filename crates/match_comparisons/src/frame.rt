use arrayvec::ArrayVec;
use pattern_types::{MAX_STEPS, Step};
use stix_json::Json;

/// Values still to be visited, and the steps that lead on from each of them.
#[derive(Clone, Copy)]
pub(crate) struct Frame<'a> {
    /// The last property name before them.
    pub(crate) last: Option<&'a str>,
    pub(crate) steps: &'a [Step],
    pub(crate) values: &'a [Json],
}

impl Default for Frame<'_> {
    fn default() -> Self {
        Frame {
            last: None,
            steps: &[],
            values: &[],
        }
    }
}

/// How many frames a walk has at most: one for the root, and one for each step.
const MAX_FRAMES: usize = MAX_STEPS + 1;

/// The stack of a walk, the deepest frame last.
pub(crate) type Frames<'a> = ArrayVec<Frame<'a>, MAX_FRAMES>;
