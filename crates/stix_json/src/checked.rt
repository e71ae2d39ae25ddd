ghost use Rattle.std.specs.Prelude.{◌≡◌, ◌<◌};
ghost use Rattle.serde_json.specs.Data.{Data};
ghost use Rattle.stix_json.specs.Ordered.{IsOrdered};
ghost use Rattle.stix_json.specs.Reading.{IsEntryFor};
ghost use Rattle.stix_json.specs.inner.Checking.{IsCheckedAs};
ghost use Rattle.stix_json.specs.declared.limits.TheConstants.{MAX_LEVELS as LEVELS};
ghost use Rattle.stix_json.specs.declared.first_error.FirstError.TheVariants.{TooDeep};
ghost use Rattle.stix_json.specs.declared.location.Location.TheVariants.{Here};
ghost use Rattle.stix_json.specs.declared.checked.Checked.TheVariants.{Bad};

use crate::first_error::FirstError;
use crate::location::Location;
use crate::{Entry, Json};
use std::alloc::Global;

/// The outcome of checking a value: the `Json`, or the first error in it.
#[derive(Drop)]
pub(crate) enum Checked {
    Good(Json),
    Bad(FirstError),
}

impl Checked {
    /// The outcome for a list or an object, which is an error if no more levels are allowed.
    pub fn within(self, levels: usize) -> Checked
        ensures deep { levels ≡ 0 → result ≡ Bad (TooDeep Here) }
        ensures same { 0 < levels → result ≡ self }
    {
        if levels == 0 {
            drop(self);
            return Checked::Bad(FirstError::TooDeep(Location::Here));
        }
        self
    }

    /// The entry of a value that stands alone.
    pub fn into_entry(self, alloc: Global) -> Entry
        ensures { («data» : Data) → IsOrdered «data» → IsCheckedAs LEVELS «data» self
            → IsEntryFor «data» result }
    {
        match self {
            Checked::Good(json) => Entry::Good(json),
            Checked::Bad(first_error) => Entry::Bad(first_error.into_refusal(alloc)),
        }
    }
}
