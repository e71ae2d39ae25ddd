ghost use Rattle.std.specs.Prelude.{◌≡◌, ◌+◌, ◌<◌, ◌^◌, ◌++◌, IfOk, OnOk, map};
ghost use Rattle.serde_json.specs.Data.{object};
ghost use Rattle.stix_json.specs.DataOf.{data_of, members_of};
ghost use Rattle.taxii_bodies.specs.Status.{status_id_of, detail_data, status_data, IsStatus};
ghost use Rattle.taxii_bodies.specs.inner.Members.{members_in, list_member, middle_members};

use crate::Detail;
use crate::details::moment_text;
use crate::fields::Fields;
use flow_values::{Items, NoMemory, Text};
use std::alloc::Global;
use stix_ids::write_uuid;
use stix_json::Json;

/// The UUID `00000000-0000-4000-8000-000000000000` (version 4), to which status numbers are added.
const FIRST_ID: u128 = 0x4000_8000_0000_0000_0000;

/// The number of distinct status numbers, after which they wrap around.
const NUMBERS: u64 = 1 << 48;

/// The outcome of a request to add objects (section 4.3.1).
#[derive(Drop)]
pub struct StatusReport {
    /// The number of the status.
    pub number: u64,
    /// When the request arrived, in microseconds since 1970.
    pub moment: u64,
    /// The details of the stored objects, or of the first ones.
    pub successes: Items<Detail>,
    /// The details of the refused objects, or of the first ones.
    pub failures: Items<Detail>,
    /// The number of stored objects.
    pub success_count: u64,
    /// The number of refused objects.
    pub failure_count: u64,
}

/// The identifier of the status with this number, of which the low 48 bits count.
pub fn status_id(alloc: Global, number: u64) -> Result<Text, NoMemory>
    ensures { IfOk result (λ id. id ≡ status_id_of number) }
{
    let mut buffer = [0; 36];
    let id = write_uuid(FIRST_ID + u128::from(number % NUMBERS), &mut buffer);
    Text::from_text(alloc, id)
}

/// The body of a status resource (section 4.3.1). Its state is always `complete`.
pub fn status_body(alloc: Global, report: &StatusReport) -> Result<Text, NoMemory>
    requires { report.now.success_count + report.now.failure_count < 2 ^ 63 }
    ensures { IfOk result (IsStatus report.now) }
{
    let moment = moment_text(alloc, report.moment)?;
    let fields = status_fields(alloc, report, moment.as_str())?;
    fields.into_text()
}

/// The fields of a status, from the text of its moment.
fn status_fields(alloc: Global, report: &StatusReport, moment: &str) -> Result<Fields, NoMemory>
    requires { report.now.success_count + report.now.failure_count < 2 ^ 63 }
    ensures { IfOk result
        (λ fields. object (members_of (members_in fields)) ≡ status_data report.now moment.now) }
{
    let mut fields = Fields::new(alloc);
    fields.add_number("failure_count", report.failure_count)?;
    add_details(alloc, "failures", report.failures.as_slice(), &mut fields)?;
    add_middle(alloc, report, moment, &mut fields)?;
    add_details(alloc, "successes", report.successes.as_slice(), &mut fields)?;
    fields.add_number("total_count", report.success_count + report.failure_count)?;
    Ok(fields)
}

/// Adds the fields between the two lists.
fn add_middle(
    alloc: Global,
    report: &StatusReport,
    moment: &str,
    fields: &mut Fields,
) -> Result<(), NoMemory>
    requires { report.now.success_count < 2 ^ 63 }
    ensures { OnOk result
        (members_in fields.new ≡ members_in fields.old ++ middle_members report.now moment.now) }
{
    let id = status_id(alloc, report.number)?;
    fields.add_text("id", id.as_str())?;
    fields.add_number("pending_count", 0)?;
    fields.add_text("request_timestamp", moment)?;
    fields.add_text("status", "complete")?;
    fields.add_number("success_count", report.success_count)?;
    Ok(())
}

/// Adds a list of details, unless it is empty.
fn add_details(
    alloc: Global,
    name: &str,
    details: &[Detail],
    fields: &mut Fields,
) -> Result<(), NoMemory>
    ensures { OnOk result
        (members_in fields.new
        ≡ members_in fields.old ++ list_member name.now (map detail_data details.now)) }
{
    let values = detail_values(alloc, details)?;
    fields.add_some(name, values)
}

fn detail_values(alloc: Global, details: &[Detail]) -> Result<Items<Json>, NoMemory>
    ensures { IfOk result (λ values. map data_of values ≡ map detail_data details.now) }
{
    let mut values = Items::with_capacity(alloc, details.len())?;
    for detail in details {
        values.push(detail_value(alloc, detail)?)?;
    }
    Ok(values)
}

fn detail_value(alloc: Global, detail: &Detail) -> Result<Json, NoMemory>
    ensures { IfOk result (λ value. data_of value ≡ detail_data detail.now) }
{
    let mut fields = Fields::new(alloc);
    fields.add_text("id", detail.id.as_str())?;
    match &detail.message {
        Some(message) => {
            fields.add_text("message", message.as_str())?;
            fields.add_text("version", detail.version.as_str())?;
            Ok(fields.into_object())
        }
        None => {
            fields.add_text("version", detail.version.as_str())?;
            Ok(fields.into_object())
        }
    }
}
