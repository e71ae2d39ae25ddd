ghost use Rattle.std.specs.Prelude.{◌≡◌, ◌↔◌, ◌≤◌};
ghost use Rattle.flow_edges.specs.Faults.{Counted};
ghost use Rattle.command_line.specs.CommandLines.{argument_texts};
ghost use Rattle.taxii_client.specs.Environment.{link_view};
ghost use Rattle.command_reasons.specs.Reasons.{WritesReason};
ghost use Rattle.command_peer.specs.Arguments.{IsHost};
ghost use Rattle.command_mirror.specs.Arguments.{AskForNoCopy, copying_of};
ghost use Rattle.taxii_client.specs.Filling.{copy_environment};
ghost use Rattle.command_mirror.specs.Endings.{AskForCopyWhere, ConcludesCopy, EndsMirror};
ghost use Rattle.command_mirror.specs.Endings.{EndsMirrorArguments};
ghost use Rattle.command_mirror.specs.Endings.{mirror_status, mirror_reason};
ghost use Rattle.command_mirror.specs.Runs.{Ends, CopiesAll, LosesAll, HoldsMirrored};

use crate::arguments::{MirrorRequest, read_request};
use crate::ending::MirrorEnding;
use crate::summary::write_summary;
use flow_edges::Sink;
use flow_links::{Clock, Dial};
use flow_values::NoMemory;
use std::alloc::Global;
use taxii_client::pull_laws::pulls_continue;
use taxii_client::{Totals, copy};
use taxii_rows::{FaultCause, Keeper};

/// Writes the summary.
fn conclude<O: Sink>(totals: &Totals, output: &mut O) -> MirrorEnding
    ensures concludes { ConcludesCopy totals.now (O.written output.old)
        (O.written output.new) result }
    ensures output { Counted (mirror_status result ≡ 6) (O.faults output.old)
        (O.faults output.new) }
{
    match write_summary(totals, output) {
        Ok(()) => MirrorEnding::Done,
        Err(_) => MirrorEnding::WriteFault,
    }
}

/// Copies the requested collection, and writes the summary.
fn answer<D: Dial, K: Keeper, C: Clock, O: Sink>(
    alloc: Global,
    request: &MirrorRequest<'_>,
    dial: &mut D,
    keeper: &mut K,
    clock: &mut C,
    output: &mut O,
) -> MirrorEnding
    requires host { IsHost request.now.peer.host.now }
    requires tries { 1 ≤ request.now.store.tries }
    ensures ends { EndsMirror
        (link_view D.Link.left D.Link.written D.Link.Source.faults D.Link.Sink.faults)
        (copying_of request.now)
        (copy_environment (D.observable dial.old) (D.faults dial.old) (K.kept keeper.old)
        (C.moments clock.old))
        (copy_environment (D.observable dial.new) (D.faults dial.new) (K.kept keeper.new)
        (C.moments clock.new)) (O.written output.old) (O.written output.new) result }
    ensures store { Counted (mirror_status result ≡ 9) (K.faults keeper.old) (K.faults keeper.new) }
    ensures output { Counted (mirror_status result ≡ 6) (O.faults output.old)
        (O.faults output.new) }
{
    let target = match request.target(alloc) {
        Ok(target) => target,
        Err(NoMemory) => return MirrorEnding::NoMemory,
    };
    match copy(
        alloc,
        &target,
        request.store.file,
        request.store.tries,
        dial,
        keeper,
        clock,
    ) {
        Ok(totals) => conclude(&totals, output),
        Err(stop) => MirrorEnding::Stopped(stop),
    }
}

/// Executes the command line.
fn execute<D: Dial, K: Keeper, C: Clock, O: Sink>(
    alloc: Global,
    arguments: &[String],
    dial: &mut D,
    keeper: &mut K,
    clock: &mut C,
    output: &mut O,
) -> MirrorEnding
    ensures ends { EndsMirrorArguments
        (link_view D.Link.left D.Link.written D.Link.Source.faults D.Link.Sink.faults)
        (argument_texts arguments.now)
        (copy_environment (D.observable dial.old) (D.faults dial.old) (K.kept keeper.old)
        (C.moments clock.old))
        (copy_environment (D.observable dial.new) (D.faults dial.new) (K.kept keeper.new)
        (C.moments clock.new)) (O.written output.old) (O.written output.new) result }
    ensures untouched { mirror_status result ≡ 2
        → (dial.new ≡ dial.old) × (keeper.new ≡ keeper.old) × (clock.new ≡ clock.old)
        × (output.new ≡ output.old) }
    ensures store { Counted (mirror_status result ≡ 9) (K.faults keeper.old) (K.faults keeper.new) }
    ensures output { Counted (mirror_status result ≡ 6) (O.faults output.old)
        (O.faults output.new) }
{
    match read_request(arguments) {
        Some(request) => answer(alloc, &request, dial, keeper, clock, output),
        None => MirrorEnding::Usage,
    }
}

/// Copies the collection that the arguments name into the store of a file, page by page, and
/// returns the exit status.
///
/// | Exit status | Condition |
/// |---|---|
/// | 0 | all pages were absorbed, and the summary was written |
/// | 1 | memory ran out |
/// | 2 | if and only if the arguments are no command line |
/// | 5 | if and only if the allowed number of fetches were lost |
/// | 6 | if and only if the output counted a fault |
/// | 9 | if and only if the keeper counted a fault |
/// | 10 | if and only if a row of the file is bad |
/// | 11 | if and only if a response is refused |
/// | 13 | if and only if 1,000,000 pages were received, and more follow |
/// | 14 | if and only if fewer dates are left than a page has new objects |
///
/// A fetch is lost if the dial gives no link, the link fails, or its bytes end inside the response.
/// The reason is written to `faults`; a failing write there changes nothing else.
pub fn run_mirror<D: Dial, K: Keeper, C: Clock, O: Sink, E: Sink>(
    alloc: Global,
    arguments: &[String],
    dial: &mut D,
    keeper: &mut K,
    clock: &mut C,
    output: &mut O,
    faults: &mut E,
) -> u8
    ensures ends { Ends
        (link_view D.Link.left D.Link.written D.Link.Source.faults D.Link.Sink.faults)
        (argument_texts arguments.now)
        (copy_environment (D.observable dial.old) (D.faults dial.old) (K.kept keeper.old)
        (C.moments clock.old))
        (copy_environment (D.observable dial.new) (D.faults dial.new) (K.kept keeper.new)
        (C.moments clock.new)) (O.written output.old) (O.written output.new) result
        (K.last_cause keeper.new)
        (λ reason. WritesReason reason (E.written faults.old) (E.written faults.new)
        (E.faults faults.old) (E.faults faults.new)) }
    // status 2 if and only if the arguments are no command line
    ensures refusals { (result ≡ 2) ↔ AskForNoCopy (argument_texts arguments.now) }
    ensures untouched { result ≡ 2
        → (dial.new ≡ dial.old) × (keeper.new ≡ keeper.old) × (clock.new ≡ clock.old)
        × (output.new ≡ output.old) }
    ensures all { result ≡ 0
        → AskForCopyWhere (argument_texts arguments.now)
        (CopiesAll (link_view D.Link.left D.Link.written D.Link.Source.faults D.Link.Sink.faults)
        (copy_environment (D.observable dial.old) (D.faults dial.old) (K.kept keeper.old)
        (C.moments clock.old))
        (copy_environment (D.observable dial.new) (D.faults dial.new) (K.kept keeper.new)
        (C.moments clock.new)) (O.written output.old) (O.written output.new)) }
    // with status 5 the allowed number of fetches were lost, and the page was to be requested again
    ensures lost { result ≡ 5
        → AskForCopyWhere (argument_texts arguments.now)
        (LosesAll (link_view D.Link.left D.Link.written D.Link.Source.faults D.Link.Sink.faults)
        (copy_environment (D.observable dial.old) (D.faults dial.old) (K.kept keeper.old)
        (C.moments clock.old))
        (copy_environment (D.observable dial.new) (D.faults dial.new) (K.kept keeper.new)
        (C.moments clock.new))) }
    // whatever the status, the store is what the absorbed pages make of it
    ensures mirrored { ¬ (result ≡ 2)
        → AskForCopyWhere (argument_texts arguments.now)
        (HoldsMirrored (link_view D.Link.left D.Link.written D.Link.Source.faults
        D.Link.Sink.faults)
        (copy_environment (D.observable dial.old) (D.faults dial.old) (K.kept keeper.old)
        (C.moments clock.old))
        (copy_environment (D.observable dial.new) (D.faults dial.new) (K.kept keeper.new)
        (C.moments clock.new)) result) }
    ensures store { Counted (result ≡ 9) (K.faults keeper.old) (K.faults keeper.new) }
    ensures output { Counted (result ≡ 6) (O.faults output.old) (O.faults output.new) }
{
    pulls_continue::<D>();
    let ending = execute(alloc, arguments, dial, keeper, clock, output);
    finish(&ending, keeper.cause(), faults)
}

/// Writes why the program ends, and returns its exit status; `cause` is that of the keeper's last
/// fault.
fn finish<E: Sink>(ending: &MirrorEnding, cause: FaultCause, faults: &mut E) -> u8
    ensures status { result ≡ mirror_status ending.now }
    ensures reason { WritesReason (mirror_reason cause ending.now) (E.written faults.old)
        (E.written faults.new) (E.faults faults.old) (E.faults faults.new) }
{
    let _ = ending.write_reason(cause, faults);
    ending.status()
}
