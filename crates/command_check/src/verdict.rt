use flow_values::Items;
use match_input::InputRule;
use stix_bundles::ObjectBreak;
use stix_versions::{MarkingBreak, VersionBreak};

/// The verdict on an input.
#[derive(Debug, Drop)]
pub enum Verdict {
    /// A bundle with this many objects that meets all rules.
    Sound {
        objects: usize,
    },
    /// A bundle with objects that violate the rules of their types.
    Broken(Items<ObjectBreak>),
    /// A bundle whose objects meet the rules of their types, but not those of versions or granular
    /// markings.
    Unfit {
        versions: Items<VersionBreak>,
        markings: Items<MarkingBreak>,
    },
    /// No bundle.
    Refused(InputRule),
}
