ghost use Rattle.std.specs.Prelude.{◌≡◌, ◌++◌, All, IfOk};
ghost use Rattle.std.specs.List.{AllZip};
ghost use Rattle.taxii_store.specs.Addition.{date_in};
ghost use Rattle.taxii_service.specs.Adding.{IsSuccess};
ghost use Rattle.taxii_service.specs.inner.Preparing.{HasRow, IsReportOf};

use crate::MAX_DETAILS;
use flow_values::{Items, NoMemory};
use std::alloc::Global;
use taxii_bodies::laws::sound_rows_are_writable;
use taxii_bodies::{Detail, StatusReport, success_detail};
use taxii_rows::row_at;
use taxii_store::{AddOutcome, Library, Planned};

/// The status report of a planned addition.
pub(crate) fn report_of(
    alloc: Global,
    library: &Library,
    planned: &Planned,
    number: u64,
    moment: u64,
    failures: Items<Detail>,
    failure_count: u64,
) -> Result<StatusReport, NoMemory>
    requires rows { All (HasRow (library.now.rows ++ planned.now.rows)) planned.now.outcomes }
    ensures { IfOk result
        (IsReportOf number moment failures failure_count planned.now.outcomes
        (library.now.rows ++ planned.now.rows)) }
{
    let outcomes = planned.outcomes();
    let first = &outcomes[..outcomes.len().min(MAX_DETAILS)];
    let successes = details_of(alloc, library, planned, first)?;
    Ok(StatusReport {
        number,
        moment,
        successes,
        failures,
        success_count: outcomes.len() as u64,
        failure_count,
    })
}

/// The details of stored objects.
fn details_of(
    alloc: Global,
    library: &Library,
    planned: &Planned,
    outcomes: &[AddOutcome],
) -> Result<Items<Detail>, NoMemory>
    requires rows { All (HasRow (library.now.rows ++ planned.now.rows)) outcomes.now }
    ensures { IfOk result
        (λ details. AllZip
        (IsSuccess (library.now.rows ++ planned.now.rows)) outcomes.now details) }
{
    let mut details = Items::with_capacity(alloc, outcomes.len())?;
    for outcome in outcomes {
        details.push(detail_of(alloc, library, planned, *outcome)?)?;
    }
    Ok(details)
}

/// The detail of an outcome's row.
fn detail_of(
    alloc: Global,
    library: &Library,
    planned: &Planned,
    outcome: AddOutcome,
) -> Result<Detail, NoMemory>
    requires row { HasRow (library.now.rows ++ planned.now.rows) outcome }
    ensures { IfOk result (IsSuccess (library.now.rows ++ planned.now.rows) outcome) }
{
    sound_rows_are_writable();
    library.rows();
    match library.row(date_of(outcome)) {
        Some(row) => success_detail(alloc, row),
        None => new_detail(alloc, planned, outcome),
    }
}

/// The detail of an outcome's new row.
fn new_detail(alloc: Global, planned: &Planned, outcome: AddOutcome) -> Result<Detail, NoMemory>
    requires row { HasRow planned.now.rows outcome }
    ensures { IfOk result (IsSuccess planned.now.rows outcome) }
{
    sound_rows_are_writable();
    let rows = planned.rows();
    match row_at(rows, date_of(outcome)) {
        Some(row) => success_detail(alloc, row),
        None => unreachable!(),
    }
}

/// The date in an outcome.
fn date_of(outcome: AddOutcome) -> u64
    ensures { result ≡ date_in outcome }
{
    match outcome {
        AddOutcome::Added { date } => date,
        AddOutcome::Present { date } => date,
    }
}
