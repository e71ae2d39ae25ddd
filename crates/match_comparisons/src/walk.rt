//! A depth-first walk along the steps of a path, with an explicit stack of frames.

ghost use Rattle.std.specs.Prelude.{◌↔◌, ◌<◌, [], ◌∷◌, IfSome, IfNone, List, reverse};
ghost use Rattle.serde_json.specs.Data.{Data};
ghost use Rattle.stix_json.specs.DataOf.{data_of};
ghost use Rattle.stix_bundles.specs.Objects.{data_in};
ghost use Rattle.match_comparisons.specs.Remaining.{FollowsTaken};
ghost use Rattle.match_comparisons.specs.inner.Frames.{LeftIn, HasFrameSpace, weight};

use crate::frame::{Frame, Frames};
use crate::name::name_after;
use crate::step::selected;
use stix_bundles::Bundle;
use stix_bundles::laws::one_meaning;
use stix_json::Json;

/// The next value of the walk.
pub(crate) fn next_value<'a>(bundle: &'a Bundle, frames: &mut Frames<'a>) -> Option<&'a Json>
    requires { HasFrameSpace (reverse frames.old.items) }
    ensures some { IfSome result (λ value. (values : List Data)
        → LeftIn (data_in bundle.now) (reverse frames.old.items) values
        ↔ FollowsTaken (data_of value.now ∷ []) (LeftIn (data_in bundle.now)
        (reverse frames.new.items))
        values) }
    ensures none { IfNone result ((values : List Data)
        → LeftIn (data_in bundle.now) (reverse frames.old.items) values
        ↔ LeftIn (data_in bundle.now) [] values) }
    ensures fits { HasFrameSpace (reverse frames.new.items) }
    // The termination measure decreases with each value.
    ensures falls { IfSome result (λ value. weight (reverse frames.new.items)
        < weight (reverse frames.old.items)) }
{
    while let Some(frame) = frames.pop() {
        if let Some(value) = visit(bundle, frame, frames) {
            return Some(value);
        }
    }
    None
}

/// Visits the first value of a frame: returns it where no step is left, else pushes a frame with
/// what the next step selects from it. The frame's other values stay on the stack.
fn visit<'a>(bundle: &'a Bundle, frame: Frame<'a>, frames: &mut Frames<'a>) -> Option<&'a Json>
    requires { HasFrameSpace (frame ∷ reverse frames.old.items) }
    ensures some { IfSome result (λ value. (values : List Data)
        → LeftIn (data_in bundle.now) (frame.entry ∷ reverse frames.old.items) values
        ↔ FollowsTaken (data_of value.now ∷ []) (LeftIn (data_in bundle.now)
        (reverse frames.new.items))
        values) }
    ensures none { IfNone result ((values : List Data)
        → LeftIn (data_in bundle.now) (frame.entry ∷ reverse frames.old.items) values
        ↔ LeftIn (data_in bundle.now) (reverse frames.new.items) values) }
    ensures fits { HasFrameSpace (reverse frames.new.items) }
    // The termination measure decreases with each visit.
    ensures falls { weight (reverse frames.new.items)
        < weight (frame.entry ∷ reverse frames.old.items) }
{
    one_meaning();
    let Some((value, others)) = frame.values.split_first() else {
        return None;
    };
    frames.push(Frame {
        last: frame.last,
        steps: frame.steps,
        values: others,
    });
    let Some((step, steps)) = frame.steps.split_first() else {
        return Some(value);
    };
    frames.push(Frame {
        last: name_after(frame.last, step),
        steps,
        values: selected(bundle, frame.last, step, value),
    });
    None
}
