ghost use Rattle.std.specs.Prelude.{◌≡◌, ◌↔◌, IsTrue};
ghost use Rattle.stix_json.specs.DataOf.{data_of};
ghost use Rattle.taxii_rows.specs.Version.{group_under, IsObservableOf};

use stix_json::{Json, text_at};
use stix_objects::{Group, group, group_before};

/// A set of observable types, which have no versions (STIX 2.1, section 6). Stores of an older
/// program used the first set, so rows of both are accepted.
#[derive(Clone, Copy, Debug, PartialEq, Eq)]
pub enum TypeSet {
    /// All but artifact, email-message and x509-certificate.
    First,
    /// All observable types.
    Second,
}

impl TypeSet {
    /// Whether the object's type is of the set.
    pub(crate) fn has_type_of(self, object: &Json) -> bool
        ensures { IsTrue result ↔ IsObservableOf self (data_of object.now) }
    {
        match text_at(object, "type") {
            Some(kind) => self.group(kind) == Group::Observable,
            None => false,
        }
    }

    fn group(self, kind: &str) -> Group
        ensures { result ≡ group_under self kind.now }
    {
        match self {
            TypeSet::First => group_before(kind),
            TypeSet::Second => group(kind),
        }
    }
}
