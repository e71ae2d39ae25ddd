//! The first error of a value, merged bottom-up: the error of a list or an object is the first of
//! its parts in order, but one for depth takes precedence. This is the first in walk order, since a
//! list precedes its items.

ghost use Rattle.std.specs.Prelude.{◌≡◌, ℕ, List, if◌then◌else◌, Some, IfOk, option_map};
ghost use Rattle.stix_json.specs.Walk.{index_part};
ghost use Rattle.stix_json.specs.inner.FirstErrors.{first_error_under, deciding_error};
ghost use Rattle.stix_json.specs.inner.FirstErrors.{refusal_of_first_error};
ghost use Rattle.stix_json.specs.declared.first_error.FirstError.TheVariants.{InvalidValue};
ghost use Rattle.stix_json.specs.declared.location.Location.TheVariants.{Here as AtTop};

use crate::JsonRefusal;
use crate::location::Location;
use crate::value_error::{Reason, ValueError};
use flow_values::NoMemory;
use std::alloc::Global;

/// The first error in a value.
#[derive(Debug, Drop)]
pub(crate) enum FirstError {
    /// A list or an object nested too deep. It takes precedence over `InvalidValue`.
    TooDeep(Location),
    /// A value that `Json` can't represent.
    InvalidValue(ValueError),
}

impl FirstError {
    /// The error of a value that is itself invalid.
    pub fn here(reason: Reason) -> FirstError
        ensures { result ≡ InvalidValue (record { reason = reason; location = AtTop }) }
    {
        FirstError::InvalidValue(ValueError {
            reason,
            location: Location::Here,
        })
    }

    /// Whether this error, which comes later in the value, takes precedence over `found`.
    pub fn overrides(&self, found: &Option<FirstError>) -> bool
        ensures { (part : List ℕ) → deciding_error found.now (Some
            (first_error_under part self.now))
            ≡ (if result then Some (first_error_under part self.now) else found.now) }
    {
        match (self, found) {
            (_, None) => true,
            (FirstError::TooDeep(_), Some(FirstError::InvalidValue(_))) => true,
            (FirstError::TooDeep(_), Some(FirstError::TooDeep(_))) => false,
            (FirstError::InvalidValue(_), Some(_)) => false,
        }
    }

    /// The error as seen from the object with the value at this name.
    pub fn below(self, alloc: Global, name: &str) -> Result<FirstError, NoMemory>
        ensures { IfOk result (λ first_error. first_error ≡ first_error_under name.now self) }
    {
        match self {
            FirstError::TooDeep(location) => Ok(FirstError::TooDeep(location.below(alloc, name)?)),
            FirstError::InvalidValue(ValueError { reason, location }) => {
                let location = location.below(alloc, name)?;
                Ok(FirstError::InvalidValue(ValueError { reason, location }))
            }
        }
    }

    /// The error as seen from the list with the value at index `at`.
    pub fn below_item(self, alloc: Global, at: usize) -> Result<FirstError, NoMemory>
        ensures { IfOk result (λ first_error. first_error
            ≡ first_error_under (index_part at) self) }
    {
        let part = format!(in alloc; "[{at}]")?;
        self.below(alloc, part.as_str())
    }

    /// The refusal of the whole value.
    pub fn into_refusal(self, alloc: Global) -> JsonRefusal
        ensures { result ≡ refusal_of_first_error self }
    {
        match self {
            FirstError::TooDeep(location) => JsonRefusal::TooDeep {
                path: location.into_path(alloc),
            },
            FirstError::InvalidValue(ValueError { reason, location }) => {
                let path = location.into_path(alloc);
                match reason {
                    Reason::NotWhole => JsonRefusal::NotWhole { path },
                    Reason::Null => JsonRefusal::Null { path },
                    Reason::OutOfRange => JsonRefusal::OutOfRange { path },
                }
            }
        }
    }
}
