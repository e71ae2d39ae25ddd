ghost use Rattle.std.specs.Prelude.{◌≡◌, IfOk, All, map};
ghost use Rattle.std.specs.List.{AllZip};
ghost use Rattle.stix_json.specs.DataOf.{data_of};
ghost use Rattle.taxii_bodies.specs.Manifest.{IsManifest, IsRecordOf};
ghost use Rattle.taxii_bodies.specs.Times.{IsWritable};

use crate::collections::STIX_MEDIA_TYPE;
use crate::fields::Fields;
use crate::page::page_text;
use crate::times::{date_text, version_text};
use flow_values::{Items, NoMemory, Text};
use std::alloc::Global;
use stix_ids::write_id;
use stix_json::Json;
use taxii_rows::StoredRow;

/// The body of a page of the manifest resource (section 5.3.1): whether more follow, and each row's
/// date, identifier and version.
pub fn manifest_body(alloc: Global, rows: &[&StoredRow], more: bool) -> Result<Text, NoMemory>
    requires { All IsWritable (map (λ row. row.now) rows.now) }
    ensures { IfOk result (IsManifest (map (λ row. row.now) rows.now) more) }
{
    let records = records_of(alloc, rows)?;
    page_text(alloc, more, "objects", records)
}

fn records_of(alloc: Global, rows: &[&StoredRow]) -> Result<Items<Json>, NoMemory>
    requires { All IsWritable (map (λ row. row.now) rows.now) }
    ensures { IfOk result
        (λ records. AllZip IsRecordOf (map (λ row. row.now) rows.now) (map data_of records)) }
{
    let mut records = Items::with_capacity(alloc, rows.len())?;
    for row in rows {
        records.push(record_of(alloc, row)?)?;
    }
    Ok(records)
}

fn record_of(alloc: Global, row: &StoredRow) -> Result<Json, NoMemory>
    requires { IsWritable row.now }
    ensures { IfOk result (λ value. IsRecordOf row.now (data_of value)) }
{
    let date = date_text(alloc, row.date)?;
    let id = write_id(alloc, &row.id)?;
    let version = version_text(alloc, row)?;
    let mut record = Fields::new(alloc);
    record.add_text("date_added", date.as_str())?;
    record.add_text("id", id.as_str())?;
    record.add_text("media_type", STIX_MEDIA_TYPE)?;
    record.add_text("version", version.as_str())?;
    Ok(record.into_object())
}
