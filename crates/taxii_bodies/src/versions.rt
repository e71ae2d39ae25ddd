ghost use Rattle.std.specs.Prelude.{◌≡◌, IfOk, All, map};
ghost use Rattle.std.specs.List.{AllZip};
ghost use Rattle.stix_json.specs.DataOf.{data_of};
ghost use Rattle.taxii_bodies.specs.Times.{IsWritable};
ghost use Rattle.taxii_bodies.specs.Versions.{AreVersions, IsVersionOf};

use crate::page::page_text;
use crate::times::version_text;
use flow_values::{Items, NoMemory, Text};
use std::alloc::Global;
use stix_json::{Json, JsonText};
use taxii_rows::StoredRow;

/// The body of a page of the versions resource (section 5.8.1): whether more follow, and the rows'
/// versions, in order.
pub fn versions_body(alloc: Global, rows: &[&StoredRow], more: bool) -> Result<Text, NoMemory>
    requires { All IsWritable (map (λ row. row.now) rows.now) }
    ensures { IfOk result (AreVersions (map (λ row. row.now) rows.now) more) }
{
    let versions = versions_of(alloc, rows)?;
    page_text(alloc, more, "versions", versions)
}

fn versions_of(alloc: Global, rows: &[&StoredRow]) -> Result<Items<Json>, NoMemory>
    requires { All IsWritable (map (λ row. row.now) rows.now) }
    ensures { IfOk result
        (λ versions. AllZip IsVersionOf (map (λ row. row.now) rows.now) (map data_of versions)) }
{
    let mut versions = Items::with_capacity(alloc, rows.len())?;
    for row in rows {
        versions.push(version_of(alloc, row)?)?;
    }
    Ok(versions)
}

fn version_of(alloc: Global, row: &StoredRow) -> Result<Json, NoMemory>
    requires { IsWritable row.now }
    ensures { IfOk result (λ value. IsVersionOf row.now (data_of value)) }
{
    let text = version_text(alloc, row)?;
    Ok(Json::String(JsonText::from_text(alloc, text)?))
}
