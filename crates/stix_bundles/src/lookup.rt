ghost use Rattle.stix_bundles.specs.Objects.{data_in};
ghost use Rattle.stix_bundles.specs.Lookup.{ResolvesTo};

use crate::Bundle;
use stix_ids::IdRef;
use stix_ids::laws::one_identifier;

/// The position of the latest version of the identifier `text`. `None` if the text isn't an
/// identifier, or the bundle has no such object. Logarithmic in the number of identifiers, and in
/// that of the fields of an object. Allocates nothing.
pub fn find(bundle: &Bundle, text: &str) -> Option<u32>
    ensures { ResolvesTo (data_in bundle.now) text.now result }
{
    one_identifier();
    match IdRef::read(text) {
        Ok(id) => bundle.latest(id),
        Err(_) => None,
    }
}
