ghost use Rattle.std.specs.Prelude.{◌≡◌, ◌⊎◌, ℕ, List};
ghost use Rattle.flow_edges.specs.Faults.{Counted};
ghost use Rattle.flow_edges.specs.Streams.{streams};
ghost use Rattle.command_line.specs.CommandLines.{argument_texts};
ghost use Rattle.command_reasons.specs.Reasons.{WritesReason};
ghost use Rattle.command_run.specs.Requests.{AskForNoInput, AskToServe};
ghost use Rattle.command_run.specs.RunEndings.{exit_status, IsReasonOf, EndsRun, ServesNone, Ends};
ghost use Rattle.command_run.specs.RunEndings.{IsCommandDone, command_environment};
ghost use Rattle.taxii_server.specs.Environment.{client_view};

use crate::ending::Ending;
use crate::serve;
use command_check::check;
use command_line::laws::one_request;
use command_line::{ArgumentsRefusal, Request, read_arguments};
use command_make::make;
use command_match::match_bindings;
use command_show::show;
use flow_edges::{Sink, Source};
use flow_links::{Clock, Door};
use std::alloc::Global;
use taxii_rows::Keeper;

/// Executes the command line.
fn execute<I: Source, O: Sink, D: Door, K: Keeper, C: Clock>(
    alloc: Global,
    arguments: &[String],
    input: &mut I,
    output: &mut O,
    door: &mut D,
    keeper: &mut K,
    clock: &mut C,
) -> Ending
    ensures end { EndsRun
        (client_view D.Link.left D.Link.began D.Link.written D.Link.Source.faults
        D.Link.Sink.faults)
        (argument_texts arguments.now)
        (command_environment (I.left input.old) (I.began input.old) (O.written output.old)
        (D.observable door.old) (K.kept keeper.old) (C.moments clock.old) (K.faults keeper.old))
        (command_environment (I.left input.new) (I.began input.new) (O.written output.new)
        (D.observable door.new) (K.kept keeper.new) (C.moments clock.new)
        (K.faults keeper.new)) result }
    ensures untouched { (exit_status result ≡ 2) ⊎ (exit_status result ≡ 3)
        → (input.new ≡ input.old) × (output.new ≡ output.old) }
    ensures unasked { (AskForNoInput (argument_texts arguments.now) → input.new ≡ input.old)
        × (¬ AskToServe (argument_texts arguments.now)
        → (door.new ≡ door.old) × (clock.new ≡ clock.old) × (keeper.new ≡ keeper.old)) }
    // with these statuses no client was served, so door, clock and stored rows are untouched
    ensures unserved { ServesNone (exit_status result)
        → (door.new ≡ door.old) × (clock.new ≡ clock.old)
        × ((K.kept keeper.new).observable ≡ (K.kept keeper.old).observable) }
    ensures input { Counted (exit_status result ≡ 5) (I.faults input.old) (I.faults input.new) }
    ensures output { Counted (exit_status result ≡ 6) (O.faults output.old) (O.faults output.new) }
    ensures door { Counted (exit_status result ≡ 8) (D.faults door.old) (D.faults door.new) }
    ensures keeper { ServesNone (exit_status result)
        → Counted (exit_status result ≡ 9) (K.faults keeper.old) (K.faults keeper.new) }
{
    one_request();
    match read_arguments(alloc, arguments) {
        Ok(Request::Match(request)) => {
            Ending::Match(match_bindings(alloc, request, input, output))
        }
        Ok(Request::Check) => Ending::Check(check(alloc, input, output)),
        Ok(Request::Show { pattern }) => Ending::Show(show(alloc, pattern, output)),
        Ok(Request::Make { seed, count }) => Ending::Make(make(alloc, seed, count, output)),
        Ok(Request::Serve(request)) => {
            Ending::Serve(serve(alloc, &request, output, door, keeper, clock))
        }
        Err(ArgumentsRefusal::NoLine) => Ending::Usage,
        Err(ArgumentsRefusal::NoMemory) => Ending::NoMemory,
    }
}

/// Executes the arguments after the program's name, and returns the exit status.
///
/// | Exit status | Condition |
/// |---|---|
/// | 0 | the input, if any, was read to its end, and all output was written |
/// | 1 | memory ran out |
/// | 2 | the arguments are no command line; out of memory may come first |
/// | 3 | the pattern is refused; out of memory may come first |
/// | 4 | the first refused line; or the checked bundle violates rules |
/// | 5, 6 | if and only if the input, or the output, counted a fault |
/// | 7 | at the first observation where the limit on retained partial matches is exceeded |
/// | 8 | if and only if the door counted a fault |
/// | 9 | only if the keeper counted a fault while its rows were loaded |
/// | 10 | if and only if a row of the keeper is bad |
///
/// The reason is written to `reasons` in one line. A failing write there changes nothing else.
pub fn run<I: Source, O: Sink, E: Sink, D: Door, K: Keeper, C: Clock>(
    alloc: Global,
    arguments: &[String],
    input: &mut I,
    output: &mut O,
    reasons: &mut E,
    door: &mut D,
    keeper: &mut K,
    clock: &mut C,
) -> u8
    ensures ends { Ends
        (client_view D.Link.left D.Link.began D.Link.written D.Link.Source.faults
        D.Link.Sink.faults)
        (argument_texts arguments.now)
        (command_environment (I.left input.old) (I.began input.old) (O.written output.old)
        (D.observable door.old) (K.kept keeper.old) (C.moments clock.old) (K.faults keeper.old))
        (command_environment (I.left input.new) (I.began input.new) (O.written output.new)
        (D.observable door.new) (K.kept keeper.new) (C.moments clock.new)
        (K.faults keeper.new)) result
        (λ reason. WritesReason reason (E.written reasons.old) (E.written reasons.new)
        (E.faults reasons.old) (E.faults reasons.new)) }
    ensures done { result ≡ 0
        → IsCommandDone (argument_texts arguments.now)
        (streams (I.left input.old) (I.began input.old) (O.written output.old))
        (streams (I.left input.new) (I.began input.new) (O.written output.new)) }
    ensures untouched { (result ≡ 2) ⊎ (result ≡ 3)
        → (input.new ≡ input.old) × (output.new ≡ output.old) }
    // commands without input leave it untouched
    ensures unread { AskForNoInput (argument_texts arguments.now) → input.new ≡ input.old }
    ensures unserved { ServesNone result
        → (door.new ≡ door.old) × (clock.new ≡ clock.old)
        × ((K.kept keeper.new).observable ≡ (K.kept keeper.old).observable) }
    // only `serve` uses the door, the clock and the keeper
    ensures others { ¬ AskToServe (argument_texts arguments.now)
        → (door.new ≡ door.old) × (clock.new ≡ clock.old) × (keeper.new ≡ keeper.old) }
    ensures input { Counted (result ≡ 5) (I.faults input.old) (I.faults input.new) }
    ensures output { Counted (result ≡ 6) (O.faults output.old) (O.faults output.new) }
    ensures door { Counted (result ≡ 8) (D.faults door.old) (D.faults door.new) }
    ensures keeper { ServesNone result
        → Counted (result ≡ 9) (K.faults keeper.old) (K.faults keeper.new) }
{
    one_request();
    let ending = execute(alloc, arguments, input, output, door, keeper, clock);
    finish(&ending, reasons)
}

/// Writes why the program ends, and returns its exit status.
fn finish<E: Sink>(ending: &Ending, reasons: &mut E) -> u8
    ensures status { result ≡ exit_status ending.now }
    ensures reason { (text : List ℕ) × IsReasonOf ending.now text
        × WritesReason text (E.written reasons.old) (E.written reasons.new) (E.faults reasons.old)
        (E.faults reasons.new) }
{
    let _ = ending.write_reason(reasons);
    ending.status()
}
