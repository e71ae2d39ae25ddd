ghost use Rattle.std.specs.Prelude.{◌≡◌, ◌*ℤ◌, ℤ, pos, Some, IfSome};
ghost use Rattle.flow_values.specs.Answers.{FindsExactly};
ghost use Rattle.stix_json.specs.DataOf.{data_of};
ghost use Rattle.stix_times.specs.Writing.{IsWhole};
ghost use Rattle.taxii_rows.specs.Version.{HasVersion, IsVersionTime};

use crate::TypeSet;
use stix_json::Json;
use stix_objects::{Precision, timestamp_at};
use stix_times::{Instant, nanos};

/// The version of an object: `modified`, else `created`, in microseconds since 1970. `None` if its
/// type is in the set or it has neither: then it is undated. Allocates nothing.
pub fn version_of(object: &Json, set: TypeSet) -> Option<i64>
    ensures { FindsExactly (HasVersion set (data_of object.now)) result }
{
    if set.has_type_of(object) {
        return None;
    }
    let time = version_time(object)?;
    Some(micros(time))
}

/// The object's `modified`, else its `created`.
fn version_time(object: &Json) -> Option<Instant>
    ensures { FindsExactly (IsVersionTime (data_of object.now)) result }
{
    match timestamp_at(object, Precision::Millis, "modified") {
        Some(modified) => Some(modified),
        None => timestamp_at(object, Precision::Millis, "created"),
    }
}

/// Microseconds since 1970 of an instant that is a whole number of them.
fn micros(instant: Instant) -> i64
    requires { IsWhole 1000 instant }
    ensures { result *ℤ pos 1000 ≡ instant }
{
    (nanos(instant) / 1000) as i64
}
