ghost use Rattle.std.specs.Prelude.{◌≡◌, ◌≢◌, ◌⊎◌, ℕ, List, Ok, IfOk, OnErr};
ghost use Rattle.flow_edges.specs.Faults.{Counted};
ghost use Rattle.flow_edges.specs.Streams.{streams};
ghost use Rattle.pattern_reader.specs.Read.{IsReadAs};
ghost use Rattle.command_line.specs.CommandLines.{argument_texts};
ghost use Rattle.command_reasons.specs.Reasons.{WritesReason};
ghost use Rattle.command_alerts.specs.Tasks.{IsInRange, IsReadAsLeaf, alert_task};
ghost use Rattle.command_alerts.specs.Telling.{AnswersAlerts};
ghost use Rattle.command_alerts.specs.Endings.{EndsAlertTask, EndsAlerts, alert_status};
ghost use Rattle.command_alerts.specs.Endings.{IsAlertReason};
ghost use Rattle.command_alerts.specs.Runs.{EndsAlertRun, ReportsRefusals, ReportsInput};

use crate::alerter::Alerter;
use crate::arguments::{AlertRequest, read_request};
use crate::ending::AlertEnding;
use alert_window::Watch;
use alert_window::laws::alerts_persist;
use flow_edges::{Sink, Source};
use flow_values::NoMemory;
use match_input::{Mode, Reader};
use match_run::watch_laws::begins_with_none;
use match_run::{WatchEnd, follow};
use pattern_reader::reader_laws::{none_refused, one_pattern};
use pattern_reader::{PatternRefusal, read_pattern};
use pattern_types::Pattern;
use std::alloc::Global;
use std::convert::Infallible;

/// Writes the alerts of an input for a pattern that is one observation expression.
fn watch_input<I: Source, O: Sink>(
    alloc: Global,
    pattern: &Pattern,
    request: AlertRequest<'_>,
    input: &mut I,
    output: &mut O,
) -> Result<WatchEnd<Infallible>, NoMemory>
    requires read { IsReadAsLeaf request.pattern.now pattern.now }
    requires range { IsInRange (alert_task request) }
    ensures end { IfOk result
        (AnswersAlerts pattern.now request.entry.n request.entry.seconds
        (streams (I.left input.old) (I.began input.old) (O.written output.old))
        (streams (I.left input.new) (I.began input.new) (O.written output.new))) }
    ensures untouched { OnErr result ((input.new ≡ input.old) × (output.new ≡ output.old)) }
    ensures input { Counted (result ≡ Ok WatchEnd.ReadFault) (I.faults input.old)
        (I.faults input.new) }
    ensures output { Counted (result ≡ Ok WatchEnd.WriteFault) (O.faults output.old)
        (O.faults output.new) }
{
    alerts_persist();
    begins_with_none();
    let watch = Watch::new(alloc, request.n, request.seconds)?;
    let mut reader = Reader::new(alloc, Mode::Lines)?;
    let mut alerter = Alerter::new(alloc, pattern, watch);
    Ok(follow(&mut reader, &mut alerter, input, output))
}

/// Writes the alerts of an input for a parsed pattern.
fn report_alerts<I: Source, O: Sink>(
    alloc: Global,
    pattern: &Pattern,
    request: AlertRequest<'_>,
    input: &mut I,
    output: &mut O,
) -> AlertEnding
    requires read { IsReadAs request.pattern.now pattern.now }
    requires range { IsInRange (alert_task request) }
    ensures end { EndsAlertTask (streams (I.left input.old) (I.began input.old)
        (O.written output.old))
        (streams (I.left input.new) (I.began input.new) (O.written output.new)) result
        (alert_task request.entry) }
    ensures untouched { (alert_status result ≡ 2) ⊎ (alert_status result ≡ 3)
        → (input.new ≡ input.old) × (output.new ≡ output.old) }
    ensures input { Counted (alert_status result ≡ 5) (I.faults input.old) (I.faults input.new) }
    ensures output { Counted (alert_status result ≡ 6) (O.faults output.old) (O.faults output.new) }
{
    if !matches!(pattern, Pattern::Leaf(_)) {
        return AlertEnding::NotLeaf;
    }
    match watch_input(alloc, pattern, request, input, output) {
        Ok(end) => AlertEnding::Ended(end),
        Err(NoMemory) => AlertEnding::NoMemory,
    }
}

/// Executes a request.
fn answer<I: Source, O: Sink>(
    alloc: Global,
    request: AlertRequest<'_>,
    input: &mut I,
    output: &mut O,
) -> AlertEnding
    requires range { IsInRange (alert_task request) }
    ensures end { EndsAlertTask (streams (I.left input.old) (I.began input.old)
        (O.written output.old))
        (streams (I.left input.new) (I.began input.new) (O.written output.new)) result
        (alert_task request.entry) }
    ensures untouched { (alert_status result ≡ 2) ⊎ (alert_status result ≡ 3)
        → (input.new ≡ input.old) × (output.new ≡ output.old) }
    ensures input { Counted (alert_status result ≡ 5) (I.faults input.old) (I.faults input.new) }
    ensures output { Counted (alert_status result ≡ 6) (O.faults output.old) (O.faults output.new) }
{
    none_refused();
    match read_pattern(alloc, request.pattern) {
        Ok(pattern) => {
            let ending = report_alerts(alloc, &pattern, request, input, output);
            drop(pattern);
            ending
        }
        Err(PatternRefusal::NoMemory) => AlertEnding::NoMemory,
        Err(refusal) => AlertEnding::PatternRefused(refusal),
    }
}

/// Executes the command line.
fn execute<I: Source, O: Sink>(
    alloc: Global,
    arguments: &[String],
    input: &mut I,
    output: &mut O,
) -> AlertEnding
    ensures end { EndsAlerts (argument_texts arguments.now)
        (streams (I.left input.old) (I.began input.old) (O.written output.old))
        (streams (I.left input.new) (I.began input.new) (O.written output.new)) result }
    ensures untouched { (alert_status result ≡ 2) ⊎ (alert_status result ≡ 3)
        → (input.new ≡ input.old) × (output.new ≡ output.old) }
    ensures input { Counted (alert_status result ≡ 5) (I.faults input.old) (I.faults input.new) }
    ensures output { Counted (alert_status result ≡ 6) (O.faults output.old) (O.faults output.new) }
{
    match read_request(arguments) {
        Some(request) => answer(alloc, request, input, output),
        None => AlertEnding::Usage,
    }
}

/// Writes the alerts that the arguments request, each before more than its line is read, and
/// returns the exit status.
///
/// | Exit status | Condition |
/// |---|---|
/// | 0 | the input was read to its end, and all alerts were written |
/// | 1 | memory ran out |
/// | 2 | if and only if the arguments are no command line |
/// | 3 | the pattern is refused, or not one observation expression; out of memory may come first |
/// | 4 | the first refused line |
/// | 5, 6 | if and only if the input, or the output, counted a fault |
///
/// The reason is written to `faults` in one line. A failing write there changes nothing else.
pub fn run_alerts<I: Source, O: Sink, E: Sink>(
    alloc: Global,
    arguments: &[String],
    input: &mut I,
    output: &mut O,
    faults: &mut E,
) -> u8
    ensures ends { EndsAlertRun (argument_texts arguments.now)
        (streams (I.left input.old) (I.began input.old) (O.written output.old))
        (streams (I.left input.new) (I.began input.new) (O.written output.new)) result
        (λ reason. WritesReason reason (E.written faults.old) (E.written faults.new)
        (E.faults faults.old) (E.faults faults.new)) }
    // what the statuses 2 and 3 mean
    ensures refusals { ReportsRefusals (argument_texts arguments.now) result }
    // with status 0 or 4 exactly the alerts of the bundles before the end, or the refused line,
    // were written
    ensures reported { (result ≡ 0) ⊎ (result ≡ 4)
        → ReportsInput (argument_texts arguments.now)
        (streams (I.left input.old) (I.began input.old) (O.written output.old))
        (streams (I.left input.new) (I.began input.new) (O.written output.new)) result }
    ensures untouched { (result ≡ 2) ⊎ (result ≡ 3)
        → (input.new ≡ input.old) × (output.new ≡ output.old) }
    ensures input { Counted (result ≡ 5) (I.faults input.old) (I.faults input.new) }
    ensures output { Counted (result ≡ 6) (O.faults output.old) (O.faults output.new) }
{
    one_pattern();
    let ending = execute(alloc, arguments, input, output);
    finish(&ending, faults)
}

/// Writes why the program ends, and returns its exit status.
fn finish<E: Sink>(ending: &AlertEnding, faults: &mut E) -> u8
    ensures status { result ≡ alert_status ending.now }
    ensures reason { (text : List ℕ) × IsAlertReason ending.now text
        × WritesReason text (E.written faults.old) (E.written faults.new) (E.faults faults.old)
        (E.faults faults.new) }
{
    let _ = ending.write_reason(faults);
    ending.status()
}
