//! The values of an object path, as an iterator (STIX 2.1, section 9.7).

ghost use Rattle.std.specs.Prelude.{◌↔◌, List};
ghost use Rattle.std.specs.Iterator.{at_most};
ghost use Rattle.serde_json.specs.Data.{Data};
ghost use Rattle.stix_bundles.specs.Objects.{data_in};
ghost use Rattle.pattern_types.specs.Soundness.{IsShortPath};
ghost use Rattle.match_comparisons.specs.Selection.{Selects};
ghost use Rattle.match_comparisons.specs.Remaining.{Left, IsReadyPathValues, Gives, most_left};

use crate::frame::{Frame, Frames};
use crate::root::root_of;
use crate::step::slice_of;
use crate::walk::next_value;
use pattern_types::Path;
use stix_bundles::Bundle;
use stix_json::Json;

/// The values that a path selects, by depth-first search with an explicit stack. A value that two
/// ways reach occurs twice.
#[derive(Drop)]
pub struct PathValues<'a> {
    bundle: &'a Bundle,
    frames: Frames<'a>,
}

impl<'a> Iterator for PathValues<'a> {
    type Item = &'a Json;

    ghost can_next = { IsReadyPathValues };

    ghost next_gives = { Gives };

    ghost remaining = { λ s. at_most (most_left s) };

    fn next(&mut self) -> Option<&'a Json> {
        next_value(self.bundle, &mut self.frames)
    }
}

/// The values that a path selects, from the object at this position. Takes no memory.
pub fn values<'a>(bundle: &'a Bundle, root: u32, path: &'a Path) -> PathValues<'a>
    requires { IsShortPath path.now }
    ensures ready { IsReadyPathValues result }
    ensures all { (values : List Data) → Left result values
        ↔ Selects (data_in bundle.now) root path.now values }
{
    let mut frames = Frames::new();
    frames.push(Frame {
        last: None,
        steps: path.steps.as_slice(),
        values: slice_of(root_of(bundle, root, path.kind.as_str())),
    });
    PathValues { bundle, frames }
}
