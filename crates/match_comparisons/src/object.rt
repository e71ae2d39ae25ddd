ghost use Rattle.std.specs.Prelude.{◌≡◌, IfSome, option_map, slice_get};
ghost use Rattle.stix_json.specs.DataOf.{data_of};
ghost use Rattle.stix_json.specs.Ordered.{IsOrdered};
ghost use Rattle.stix_bundles.specs.Objects.{data_in};

use stix_bundles::Bundle;
use stix_json::Json;

/// The object at this position in the bundle. Its properties are sorted. Takes no memory.
pub fn object_at(bundle: &Bundle, at: u32) -> Option<&Json>
    ensures value { option_map (λ tree. data_of tree.now) result
        ≡ slice_get (data_in bundle.now) at }
    ensures ordered { IfSome result (λ tree. IsOrdered (data_of tree.now)) }
{
    value_at(bundle.objects(), at)
}

/// The value at this index, if there is one.
pub(crate) fn value_at(values: &[Json], at: u32) -> Option<&Json>
    ensures { option_map (λ tree. tree.now) result ≡ slice_get values.now at }
{
    values.get(at as usize)
}
