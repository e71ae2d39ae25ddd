ghost use Rattle.std.specs.Prelude.{◌≡◌};
ghost use Rattle.stix_objects.specs.Types.{group_of, group_before_of};

use crate::Group;
use crate::object_type::{group_in, type_named};

/// The group of an object type. Allocates nothing.
pub fn group(kind: &str) -> Group
    ensures { result ≡ group_of kind.now }
{
    group_in(type_named(kind))
}

/// The types whose rows were added in a later release.
const LATER_TYPES: [&str; 4] = [
    "malware-analysis",
    "artifact",
    "email-message",
    "x509-certificate",
];

/// The group that an object type had before the rows of `LATER_TYPES` were added. Allocates
/// nothing.
pub fn group_before(kind: &str) -> Group
    ensures { result ≡ group_before_of kind.now }
{
    if LATER_TYPES.contains(&kind) {
        return Group::Other;
    }
    group(kind)
}
