use crate::key::Key;
use pattern_types::Step;

/// A condition under which a bracket can hold: the root has this type, and the steps (none of them
/// `[*]`) lead from it to a value that the key matches.
#[derive(Clone, Copy)]
pub(crate) struct IndexKey<'p> {
    pub(crate) kind: &'p str,
    pub(crate) steps: &'p [Step],
    pub(crate) key: Key<'p>,
}
