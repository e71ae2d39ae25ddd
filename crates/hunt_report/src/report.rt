//! The report of a hunt: an envelope with a sighting for each indicator that has hits, written one
//! by one.

ghost use Rattle.std.specs.Prelude.{◌≡◌, ◌++◌, ◌≤ℤ◌, [], ℕ, List, Option, Err, All, length, IfOk};
ghost use Rattle.std.specs.Prelude.{OnOk, OnErr};
ghost use Rattle.flow_edges.specs.Faults.{Counted};
ghost use Rattle.flow_edges.specs.Flow.{written_with, WritesPrefix};
ghost use Rattle.match_run.specs.Buffered.{IsBuffered};
ghost use Rattle.match_run.specs.declared.cut_short.CutShort.TheVariants as cut;
ghost use Rattle.hunt_engine.specs.declared.found.Hit.{Hit};
ghost use Rattle.hunt_engine.specs.EngineLog.{ObservationRow};
ghost use Rattle.hunt_report.specs.Hunting.{IsHuntable, HuntsOver};
ghost use Rattle.hunt_report.specs.HitSummaries.{IsReport, IsReportText, begun_by};
ghost use Rattle.hunt_report.specs.inner.Reporting.{IsTextOfSighting, ReportsSoFar, ReportsPart};
ghost use Rattle.hunt_report.specs.inner.Reporting.{AddsHitSummary, BreaksAtHitSummary, is_begun};
ghost use Rattle.hunt_report.specs.inner.Reporting.{mark_of, report_end, IsHitSummaryInOrder};

use crate::sighting_laws::one_text_more;
use crate::{HitSummary, Hunter, SightingInput, sighting_text};
use flow_edges::Sink;
use flow_values::{NoMemory, Text};
use hunt_feed::Hunted;
use match_run::watch_laws::parts_are_buffered;
use match_run::{CutShort, Pending};
use std::alloc::Global;
use stix_times::Instant;

/// Writes the report, made at a moment, as one line. Without hits nothing is written. After an
/// `Err` a prefix of the line was written.
pub fn write_report<O: Sink>(
    alloc: Global,
    hunter: &Hunter<'_>,
    moment: Instant,
    output: &mut O,
) -> Result<(), CutShort>
    requires { All IsHuntable hunter.now.hunted }
    // The whole report of the rows that the hunter took.
    ensures ok { (rows : List ObservationRow) (hits : List Hit) → HuntsOver hunter.now rows hits
        → OnOk result ((text : List ℕ)
        × IsReport moment rows hits hunter.now.hunted text
        × (O.written output.new ≡ written_with text (O.written output.old))) }
    // Some prefix of it.
    ensures err { (rows : List ObservationRow) (hits : List Hit) → HuntsOver hunter.now rows hits
        → OnErr result ((text : List ℕ)
        × IsReportText moment rows hits hunter.now.hunted text
        × WritesPrefix text (O.written output.old) (O.written output.new)) }
    ensures causes { Counted (result ≡ Err CutShort.WriteFault) (O.faults output.old)
        (O.faults output.new) }
{
    parts_are_buffered();
    let mut pending = Pending::new(alloc);
    let begun = add_sightings(alloc, hunter, moment, &mut pending, output)?;
    let end = end_of(begun);
    pending.add(end.as_bytes(), output)?;
    pending.write(output)?;
    Ok(())
}

/// Appends the sightings of the indicators, and answers whether there is one.
fn add_sightings<O: Sink>(
    alloc: Global,
    hunter: &Hunter<'_>,
    moment: Instant,
    pending: &mut Pending,
    output: &mut O,
) -> Result<bool, CutShort>
    requires huntable { All IsHuntable hunter.now.hunted }
    ensures ok { (first : Option (List ℕ)) → IsBuffered [] pending.old first (O.written output.old)
        → IfOk result (λ begun. ReportsSoFar moment hunter.now.hunted hunter.now.hit_summaries
        begun pending.new first (O.written output.new)) }
    ensures err { (first : Option (List ℕ)) → IsBuffered [] pending.old first (O.written output.old)
        → OnErr result (ReportsPart moment hunter.now.hunted hunter.now.hit_summaries first
        (O.written output.new)) }
    ensures causes { Counted (result ≡ Err CutShort.WriteFault) (O.faults output.old)
        (O.faults output.new) }
{
    let hunted = hunter.hunted;
    let hit_summaries = hunter.hit_summaries.as_slice();
    let mut begun = false;
    for at in 0..hunted.len() {
        begun = add_sighting(
            alloc,
            &hunted[at],
            hit_summaries[at],
            moment,
            begun,
            pending,
            output,
        )?;
    }
    Ok(begun)
}

/// Appends the sighting of one indicator, if it has hits, and answers whether there is one by now.
fn add_sighting<O: Sink>(
    alloc: Global,
    indicator: &Hunted,
    hit_summary: Option<HitSummary>,
    moment: Instant,
    begun: bool,
    pending: &mut Pending,
    output: &mut O,
) -> Result<bool, CutShort>
    requires huntable { IsHuntable indicator.now }
    requires order { IsHitSummaryInOrder hit_summary }
    ensures ok { (texts : List (List ℕ)) (first : Option (List ℕ)) → begun ≡ is_begun texts
        → IsBuffered (begun_by texts) pending.old first (O.written output.old)
        → IfOk result (λ begun. AddsHitSummary moment indicator.now hit_summary texts begun
        pending.new first (O.written output.new)) }
    ensures err { (texts : List (List ℕ)) (first : Option (List ℕ)) → begun ≡ is_begun texts
        → IsBuffered (begun_by texts) pending.old first (O.written output.old)
        → OnErr result (BreaksAtHitSummary moment indicator.now hit_summary texts first
        (O.written output.new)) }
    ensures causes { Counted (result ≡ Err CutShort.WriteFault) (O.faults output.old)
        (O.faults output.new) }
{
    parts_are_buffered();
    one_text_more();
    let Some(hit_summary) = hit_summary else {
        return Ok(begun);
    };
    let text = text_of(alloc, indicator, hit_summary, moment)?;
    add_text(text.as_str(), begun, pending, output)?;
    Ok(true)
}

/// The text of the sighting of an indicator with this summary.
fn text_of(
    alloc: Global,
    indicator: &Hunted,
    hit_summary: HitSummary,
    moment: Instant,
) -> Result<Text, NoMemory>
    requires huntable { IsHuntable indicator.now }
    requires order { hit_summary.first ≤ℤ hit_summary.last }
    ensures { IfOk result (IsTextOfSighting moment indicator.now hit_summary) }
{
    let seen = SightingInput {
        indicator: &indicator.id,
        created: indicator.created,
        count: hit_summary.count,
        first: hit_summary.first,
        last: hit_summary.last,
    };
    sighting_text(alloc, moment, &seen)
}

/// Appends a text to the envelope, the first where `begun` is false.
fn add_text<O: Sink>(
    text: &str,
    begun: bool,
    pending: &mut Pending,
    output: &mut O,
) -> Result<(), CutShort>
    ensures ok { (before : List ℕ) (first : Option (List ℕ))
        → IsBuffered before pending.old first (O.written output.old)
        → OnOk result (IsBuffered (before ++ (mark_of begun ++ text.now)) pending.new first
        (O.written output.new)) }
    ensures err { (before : List ℕ) (first : Option (List ℕ))
        → IsBuffered before pending.old first (O.written output.old)
        → OnErr result (WritesPrefix (before ++ (mark_of begun ++ text.now)) first
        (O.written output.new)) }
    ensures causes { Counted (result ≡ Err CutShort.WriteFault) (O.faults output.old)
        (O.faults output.new) }
{
    let mark = mark_of(begun);
    pending.add(mark.as_bytes(), output)?;
    pending.add(text.as_bytes(), output)?;
    Ok(())
}

/// The text before a sighting in the envelope.
fn mark_of(begun: bool) -> &'static str
    ensures { result.now ≡ mark_of begun }
{
    if begun { "," } else { "{\"objects\":[" }
}

/// The text after the sightings, if there are any.
fn end_of(begun: bool) -> &'static str
    ensures { result.now ≡ report_end begun }
{
    if begun { "]}\n" } else { "" }
}
