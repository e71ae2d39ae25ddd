ghost use Rattle.std.specs.Prelude.{◌≡◌, ◌↔◌, ℕ, List};
ghost use Rattle.flow_edges.specs.Faults.{Counted};
ghost use Rattle.command_line.specs.CommandLines.{argument_texts};
ghost use Rattle.command_reasons.specs.Reasons.{WritesReason};
ghost use Rattle.taxii_client.specs.Environment.{link_view};
ghost use Rattle.command_peer.specs.Arguments.{IsHost};
ghost use Rattle.command_pull.specs.Arguments.{AskForNoPull, pull_target};
ghost use Rattle.command_pull.specs.Pulling.{pull_environment};
ghost use Rattle.command_pull.specs.Endings.{EndsPull, EndsPullArguments, pull_status, end_reason};
ghost use Rattle.command_pull.specs.Runs.{Ends, PullsAll, CountsDial};

use crate::arguments::{PullRequest, read_request};
use crate::ending::{PullEnd, PullEnding};
use crate::pulling::pull_all;
use flow_edges::Sink;
use flow_links::Dial;
use flow_values::NoMemory;
use std::alloc::Global;

/// Executes a request.
fn answer<D: Dial, O: Sink>(
    alloc: Global,
    request: &PullRequest<'_>,
    dial: &mut D,
    output: &mut O,
) -> PullEnd
    requires { IsHost request.now.peer.host.now }
    ensures end { EndsPull
        (link_view D.Link.left D.Link.written D.Link.Source.faults D.Link.Sink.faults)
        (pull_target request.now)
        (pull_environment (D.observable dial.old) (D.faults dial.old) (O.written output.old))
        (pull_environment (D.observable dial.new) (D.faults dial.new) (O.written output.new))
        result.skipped result.ending }
    ensures output { Counted (pull_status result.ending ≡ 6) (O.faults output.old)
        (O.faults output.new) }
{
    match request.target(alloc) {
        Ok(target) => pull_all(alloc, &target, dial, output),
        Err(NoMemory) => PullEnd::before_pages(PullEnding::NoMemory),
    }
}

/// Executes the command line.
fn execute<D: Dial, O: Sink>(
    alloc: Global,
    arguments: &[String],
    dial: &mut D,
    output: &mut O,
) -> PullEnd
    ensures end { EndsPullArguments
        (link_view D.Link.left D.Link.written D.Link.Source.faults D.Link.Sink.faults)
        (argument_texts arguments.now)
        (pull_environment (D.observable dial.old) (D.faults dial.old) (O.written output.old))
        (pull_environment (D.observable dial.new) (D.faults dial.new)
        (O.written output.new)) result }
    ensures untouched { pull_status result.ending ≡ 2
        → (dial.new ≡ dial.old) × (output.new ≡ output.old) }
    ensures output { Counted (pull_status result.ending ≡ 6) (O.faults output.old)
        (O.faults output.new) }
{
    match read_request(arguments) {
        Some(request) => answer(alloc, &request, dial, output),
        None => PullEnd::before_pages(PullEnding::Usage),
    }
}

/// Writes all objects of the collection that the arguments name, one per line, page by page, and
/// returns the exit status.
///
/// | Exit status | Condition |
/// |---|---|
/// | 0 | all pages were received, and all valid entries were written |
/// | 1 | memory ran out |
/// | 2 | if and only if the arguments are no command line |
/// | 5 | only if the dial or one of its links counted a fault |
/// | 6 | if and only if the output counted a fault |
/// | 11 | if and only if a response is refused |
/// | 12 | if and only if a link's bytes end inside a response |
/// | 13 | if and only if 1,000,000 pages were received, and more follow |
///
/// On `faults`, the number of skipped entries is written, if any, and then the reason. A failing
/// write there changes nothing else.
pub fn run_pull<D: Dial, O: Sink, E: Sink>(
    alloc: Global,
    arguments: &[String],
    dial: &mut D,
    output: &mut O,
    faults: &mut E,
) -> u8
    ensures ends { Ends
        (link_view D.Link.left D.Link.written D.Link.Source.faults D.Link.Sink.faults)
        (argument_texts arguments.now)
        (pull_environment (D.observable dial.old) (D.faults dial.old) (O.written output.old))
        (pull_environment (D.observable dial.new) (D.faults dial.new) (O.written output.new)) result
        (λ reason. WritesReason reason (E.written faults.old) (E.written faults.new)
        (E.faults faults.old) (E.faults faults.new)) }
    // status 2 if and only if the arguments are no command line
    ensures refusals { (result ≡ 2) ↔ AskForNoPull (argument_texts arguments.now) }
    ensures untouched { result ≡ 2 → (dial.new ≡ dial.old) × (output.new ≡ output.old) }
    // with status 0 all pages were received and written
    ensures all { result ≡ 0
        → PullsAll (link_view D.Link.left D.Link.written D.Link.Source.faults D.Link.Sink.faults)
        (argument_texts arguments.now)
        (pull_environment (D.observable dial.old) (D.faults dial.old) (O.written output.old))
        (pull_environment (D.observable dial.new) (D.faults dial.new) (O.written output.new)) }
    // which statuses a fault of the dial or a link may have, and which imply one
    ensures dial { CountsDial
        (link_view D.Link.left D.Link.written D.Link.Source.faults D.Link.Sink.faults)
        (argument_texts arguments.now)
        (pull_environment (D.observable dial.old) (D.faults dial.old) (O.written output.old))
        (pull_environment (D.observable dial.new) (D.faults dial.new)
        (O.written output.new)) result }
    ensures output { Counted (result ≡ 6) (O.faults output.old) (O.faults output.new) }
{
    let end = execute(alloc, arguments, dial, output);
    finish(&end, faults)
}

/// Writes why the program ends, and returns its exit status.
fn finish<E: Sink>(end: &PullEnd, faults: &mut E) -> u8
    ensures status { result ≡ pull_status end.now.ending }
    ensures reason { WritesReason (end_reason end.now) (E.written faults.old)
        (E.written faults.new) (E.faults faults.old) (E.faults faults.new) }
{
    let _ = end.write_reason(faults);
    end.ending.status()
}
