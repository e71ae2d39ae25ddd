ghost use Rattle.std.specs.Prelude.{◌≡◌, option_map};
ghost use Rattle.match_comparisons.specs.Tests.{last_property};

use pattern_types::{Path, Step};

/// The last property name of a path.
pub(crate) fn last_name(path: &Path) -> Option<&str>
    ensures { option_map (λ name. name.now) result ≡ last_property path.now }
{
    let mut last = None;
    for step in path.steps.as_slice() {
        if let Step::Name(name) = step {
            last = Some(name.as_str());
        }
    }
    last
}
