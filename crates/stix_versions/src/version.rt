ghost use Rattle.std.specs.Prelude.{◌≡◌, ◌↔◌, ◌<◌, length, true, IsTrue, IfSome, IfNone, Some};
ghost use Rattle.std.specs.Prelude.{codes};
ghost use Rattle.serde_json.specs.Data.{boolean};
ghost use Rattle.serde_json.specs.Find.{get as member_of};
ghost use Rattle.stix_json.specs.DataOf.{data_of};
ghost use Rattle.stix_bundles.specs.Objects.{data_in};
ghost use Rattle.stix_versions.specs.Versions.{IsObservable, IsRevoked};
ghost use Rattle.stix_versions.specs.inner.Version.{IsVersionAs, IsNoVersion};

use stix_bundles::laws::one_meaning;
use stix_bundles::{Bundle, find};
use stix_json::{Json, get, text_at};
use stix_objects::{Group, Precision, group, timestamp_at};
use stix_times::Instant;

/// A version of an object.
#[derive(Clone, Copy)]
pub(crate) struct Version {
    /// The group of versions: the position of the object's latest version.
    pub(crate) group: u32,
    pub(crate) created: Instant,
    pub(crate) modified: Instant,
}

/// The version of the object at a position. `None` if its type has no versions, or a property is
/// missing. Most such objects lack `created`, so that is checked first.
pub(crate) fn version_at(bundle: &Bundle, at: usize) -> Option<Version>
    requires { at < length bundle.now }
    ensures some { IfSome result (IsVersionAs (data_in bundle.now) at) }
    ensures none { IfNone result (IsNoVersion (data_in bundle.now) at) }
{
    one_meaning();
    let object = &bundle.objects()[at];
    let created = timestamp_at(object, Precision::Millis, "created")?;
    let modified = timestamp_at(object, Precision::Millis, "modified")?;
    if is_observable(object) {
        return None;
    }
    let id = text_at(object, "id")?;
    let group = find(bundle, id)?;
    Some(Version {
        group,
        created,
        modified,
    })
}

/// Whether an object is a cyber-observable.
fn is_observable(object: &Json) -> bool
    ensures { IsTrue result ↔ IsObservable (data_of object.now) }
{
    match text_at(object, "type") {
        Some(kind) => group(kind) == Group::Observable,
        None => false,
    }
}

/// Whether a version is revoked.
pub(crate) fn is_revoked(object: &Json) -> bool
    ensures { IsTrue result ↔ IsRevoked (data_of object.now) }
{
    match get(object, "revoked") {
        Some(Json::Bool(truth)) => *truth,
        Some(Json::Integer(_) | Json::String(_) | Json::Array(_) | Json::Object(_)) | None => false,
    }
}
