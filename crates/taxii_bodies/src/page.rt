ghost use Rattle.std.specs.Prelude.{◌≡◌, IfOk, map, codes};
ghost use Rattle.serde_json.specs.Written.{compact_text};
ghost use Rattle.stix_json.specs.DataOf.{data_of};
ghost use Rattle.stix_json.specs.Ordered.{IsOrdered};
ghost use Rattle.taxii_bodies.specs.Page.{page_data};

use crate::fields::Fields;
use flow_values::{Items, NoMemory, Text};
use std::alloc::Global;
use stix_json::Json;

/// The body of a page: `more`, and a list under a name.
pub(crate) fn page_text(
    alloc: Global,
    more: bool,
    name: &str,
    values: Items<Json>,
) -> Result<Text, NoMemory>
    requires { IsOrdered (page_data more name.now (map data_of values)) }
    ensures { IfOk result
        (λ text. text ≡ compact_text (page_data more name.now (map data_of values))) }
{
    let mut page = Fields::new(alloc);
    page.add_truth("more", more)?;
    page.add_some(name, values)?;
    page.into_text()
}
