ghost use Rattle.std.specs.Prelude.{◌≡◌, ◌≢◌, ◌⊎◌, ◌↔◌, ℕ, List, [], ◌∷◌, Option, None, Some, Err};
ghost use Rattle.std.specs.Prelude.{All, IfOk};
ghost use Rattle.flow_edges.specs.Faults.{Counted};
ghost use Rattle.flow_edges.specs.Streams.{Streams, streams};
ghost use Rattle.serde_json.specs.Data.{Data};
ghost use Rattle.stix_ids.specs.Kind.{IsKind};
ghost use Rattle.stix_bundles.specs.Objects.{data_in};
ghost use Rattle.match_input.specs.declared.mode.Mode.TheVariants.{Lines};
ghost use Rattle.match_input.specs.Ahead.{reader_start};
ghost use Rattle.match_run.specs.Reading.{HasRead, MayFollow, bundle_of};
ghost use Rattle.hunt_feed.specs.Indicators.{IsHuntOf};
ghost use Rattle.hunt_feed.specs.Gathering.{GathersFor};
ghost use Rattle.hunt_feed.specs.declared.rule.FeedRule.{FeedRule};
ghost use Rattle.hunt_feed.specs.Feeds.{Refused, ReadsFeed, AreUnbroken, GathersFeed};
ghost use Rattle.hunt_engine.specs.declared.found.Hit.{Hit};
ghost use Rattle.hunt_engine.specs.EngineLog.{ObservationRow};
ghost use Rattle.hunt_report.specs.Hunting.{HuntsOver, IsHuntable};
ghost use Rattle.command_line.specs.CommandLines.{argument_texts};
ghost use Rattle.command_reasons.specs.Reasons.{WritesReason};
ghost use Rattle.command_hunt.specs.Tasks.{AskForNoHunt, hunt_task};
ghost use Rattle.command_hunt.specs.Feeding.{CountedByOne};
ghost use Rattle.command_hunt.specs.Telling.{AnswersHunt};
ghost use Rattle.command_hunt.specs.Endings.{AskForHuntWhere, EndsHuntTask, EndsHunt, hunt_status};
ghost use Rattle.command_hunt.specs.Endings.{IsHuntReason};
ghost use Rattle.command_hunt.specs.Runs.{EndsHuntRun, HuntsOrRefuses, HuntsToLimit, AskForFile};
ghost use Rattle.command_hunt.specs.inner.Begun.{IsUnreadInput, IsBegun, HasSkipped, Reports};

use crate::arguments::{HuntRequest, read_request};
use crate::ending::HuntEnding;
use flow_edges::{Files, Sink, Source};
use flow_values::{Fault, NoMemory};
use hunt_feed::{FeedEnd, Gathering, Hunt, Hunted, gather, hunt};
use hunt_report::hit_laws::{answers_are_the_hits, hunted_are_huntable, skipped_have_lines};
use hunt_report::{Hunter, OverLimit, write_report, write_skipped};
use match_run::watch_laws::{begins_with_none, read_bundles_come_first};
use match_run::{Batch, CutShort, Mode, Reader, WatchEnd, Watcher, follow, next_bundle};
use std::alloc::Global;
use stix_bundles::Bundle;
use stix_times::Instant;

/// The hunt for the indicators of a bundle.
fn hunt_of(alloc: Global, bundle: &Bundle, moment: Instant) -> Result<Hunt, NoMemory>
    ensures hunt { IfOk result (IsHuntOf (data_in bundle.now) moment) }
    ensures hunted { IfOk result (λ hunt. All IsHuntable hunt.hunted) }
    ensures skipped { IfOk result (λ hunt. All (λ s. IsKind s.id.kind) hunt.skipped) }
{
    hunted_are_huntable();
    skipped_have_lines();
    let _unbroken = bundle.objects();
    hunt(alloc, bundle, moment)
}

/// The hunt for the indicators of a feed.
fn hunt_of_feed(gathering: Gathering, moment: Instant) -> Result<Hunt, NoMemory>
    ensures hunt { (feed : List Data) → GathersFor gathering feed
        → IfOk result (IsHuntOf feed moment) }
    ensures hunted { (feed : List Data) → GathersFor gathering feed → AreUnbroken feed
        → IfOk result (λ hunt. All IsHuntable hunt.hunted) }
    ensures skipped { (feed : List Data) → GathersFor gathering feed → AreUnbroken feed
        → IfOk result (λ hunt. All (λ s. IsKind s.id.kind) hunt.skipped) }
{
    hunted_are_huntable();
    skipped_have_lines();
    gathering.hunt(moment)
}

/// Writes the report at the end of the input.
fn report<O: Sink>(
    alloc: Global,
    request: &HuntRequest<'_>,
    hunter: &Hunter<'_>,
    output: &mut O,
) -> WatchEnd<OverLimit>
    requires huntable { All IsHuntable hunter.now.hunted }
    ensures end { (rows : List ObservationRow) (hits : List Hit) → HuntsOver hunter.now rows hits
        → Reports request.now.moment rows hits hunter.now.hunted (O.written output.old)
        (O.written output.new) result }
    // the report reads no input
    ensures unread { result ≢ WatchEnd.ReadFault }
    ensures causes { Counted (result ≡ WatchEnd.WriteFault) (O.faults output.old)
        (O.faults output.new) }
{
    match write_report(alloc, hunter, request.moment, output) {
        Ok(()) => WatchEnd::Done,
        Err(CutShort::WriteFault) => WatchEnd::WriteFault,
        Err(CutShort::NoMemory) => WatchEnd::NoMemory,
    }
}

/// Hunts for indicators over an input whose first bundle was already read.
fn hunt_for<I: Source, O: Sink>(
    alloc: Global,
    request: &HuntRequest<'_>,
    hunted: &[Hunted],
    first: &Batch,
    reader: &mut Reader,
    input: &mut I,
    output: &mut O,
) -> WatchEnd<OverLimit>
    requires huntable { All IsHuntable hunted.now }
    requires read { (start : Option (List ℕ))
        × HasRead start reader.old (I.left input.old) (I.began input.old)
        (bundle_of first.now ∷ []) }
    requires follow { MayFollow None 1 first.now.observations }
    ensures end { (before : Streams)
        → HasRead before.left reader.old (I.left input.old) (I.began input.old)
        (bundle_of first.now ∷ [])
        → IsBegun before (bundle_of first.now) (I.left input.old) (I.began input.old)
        → HasSkipped (hunt_task request.now) before (bundle_of first.now).objects hunted.now
        (O.written output.old)
        → AnswersHunt (hunt_task request.now) None before
        (streams (I.left input.new) (I.began input.new) (O.written output.new)) result }
    ensures input { Counted (result ≡ WatchEnd.ReadFault) (I.faults input.old)
        (I.faults input.new) }
    ensures output { Counted (result ≡ WatchEnd.WriteFault) (O.faults output.old)
        (O.faults output.new) }
{
    answers_are_the_hits();
    let mut hunter = match Hunter::new(alloc, hunted, u64::from(request.retained_limit)) {
        Ok(hunter) => hunter,
        Err(NoMemory) => return WatchEnd::NoMemory,
    };
    if let Err(end) = hunter.see(first, output) {
        return WatchEnd::from(end);
    }
    match follow(reader, &mut hunter, input, output) {
        WatchEnd::Done => report(alloc, request, &hunter, output),
        end => end,
    }
}

/// Hunts over an input whose first bundle was already read and holds the indicators.
fn hunt_from<I: Source, O: Sink>(
    alloc: Global,
    request: &HuntRequest<'_>,
    first: &Batch,
    reader: &mut Reader,
    input: &mut I,
    output: &mut O,
) -> WatchEnd<OverLimit>
    requires read { (start : Option (List ℕ))
        × HasRead start reader.old (I.left input.old) (I.began input.old)
        (bundle_of first.now ∷ []) }
    requires follow { MayFollow None 1 first.now.observations }
    ensures end { (before : Streams)
        → HasRead before.left reader.old (I.left input.old) (I.began input.old)
        (bundle_of first.now ∷ [])
        → IsBegun before (bundle_of first.now) (I.left input.old) (I.began input.old)
        → before.written ≡ O.written output.old
        → AnswersHunt (hunt_task request.now) None before
        (streams (I.left input.new) (I.began input.new) (O.written output.new)) result }
    ensures input { Counted (result ≡ WatchEnd.ReadFault) (I.faults input.old)
        (I.faults input.new) }
    ensures output { Counted (result ≡ WatchEnd.WriteFault) (O.faults output.old)
        (O.faults output.new) }
{
    answers_are_the_hits();
    let hunt = match hunt_of(alloc, &first.bundle, request.moment) {
        Ok(hunt) => hunt,
        Err(NoMemory) => return WatchEnd::NoMemory,
    };
    match write_skipped(alloc, hunt.skipped.as_slice(), output) {
        Ok(()) => {
            let hunted = hunt.hunted.as_slice();
            hunt_for(alloc, request, hunted, first, reader, input, output)
        }
        Err(CutShort::WriteFault) => WatchEnd::WriteFault,
        Err(CutShort::NoMemory) => WatchEnd::NoMemory,
    }
}

/// Hunts over an input whose first bundle holds the indicators.
fn hunt_input<I: Source, O: Sink>(
    alloc: Global,
    request: &HuntRequest<'_>,
    input: &mut I,
    output: &mut O,
) -> WatchEnd<OverLimit>
    ensures end { AnswersHunt (hunt_task request.now) None
        (streams (I.left input.old) (I.began input.old) (O.written output.old))
        (streams (I.left input.new) (I.began input.new) (O.written output.new)) result }
    ensures input { Counted (result ≡ WatchEnd.ReadFault) (I.faults input.old)
        (I.faults input.new) }
    ensures output { Counted (result ≡ WatchEnd.WriteFault) (O.faults output.old)
        (O.faults output.new) }
{
    begins_with_none();
    read_bundles_come_first();
    let mut reader = match Reader::new(alloc, Mode::Lines) {
        Ok(reader) => reader,
        Err(NoMemory) => return WatchEnd::NoMemory,
    };
    match next_bundle(&mut reader, input) {
        Ok(Some(first)) => hunt_from(alloc, request, &first, &mut reader, input, output),
        Ok(None) => WatchEnd::Done,
        Err(end) => WatchEnd::from(end),
    }
}

/// Hunts for indicators over an input, from its start.
fn hunt_log<I: Source, O: Sink>(
    alloc: Global,
    request: &HuntRequest<'_>,
    hunted: &[Hunted],
    reader: &mut Reader,
    input: &mut I,
    output: &mut O,
) -> WatchEnd<OverLimit>
    requires huntable { All IsHuntable hunted.now }
    requires start { reader.old ≡ reader_start Lines }
    ensures end { (before : Streams) (feed : List Data)
        → IsUnreadInput before (I.left input.old) (I.began input.old)
        → HasSkipped (hunt_task request.now) before feed hunted.now (O.written output.old)
        → AnswersHunt (hunt_task request.now) (Some feed) before
        (streams (I.left input.new) (I.began input.new) (O.written output.new)) result }
    ensures input { Counted (result ≡ WatchEnd.ReadFault) (I.faults input.old)
        (I.faults input.new) }
    ensures output { Counted (result ≡ WatchEnd.WriteFault) (O.faults output.old)
        (O.faults output.new) }
{
    answers_are_the_hits();
    begins_with_none();
    let retained_limit = u64::from(request.retained_limit);
    let mut hunter = match Hunter::new(alloc, hunted, retained_limit) {
        Ok(hunter) => hunter,
        Err(NoMemory) => return WatchEnd::NoMemory,
    };
    match follow(reader, &mut hunter, input, output) {
        WatchEnd::Done => report(alloc, request, &hunter, output),
        end => end,
    }
}

/// Hunts for the indicators of a feed over an input, from its start.
fn hunt_feed<I: Source, O: Sink>(
    alloc: Global,
    request: &HuntRequest<'_>,
    gathering: Gathering,
    input: &mut I,
    output: &mut O,
) -> WatchEnd<OverLimit>
    requires fed { (feed : List Data) × GathersFor gathering feed × AreUnbroken feed }
    ensures end { (feed : List Data) → GathersFor gathering feed
        → AnswersHunt (hunt_task request.now) (Some feed)
        (streams (I.left input.old) (I.began input.old) (O.written output.old))
        (streams (I.left input.new) (I.began input.new) (O.written output.new)) result }
    ensures input { Counted (result ≡ WatchEnd.ReadFault) (I.faults input.old)
        (I.faults input.new) }
    ensures output { Counted (result ≡ WatchEnd.WriteFault) (O.faults output.old)
        (O.faults output.new) }
{
    answers_are_the_hits();
    let hunt = match hunt_of_feed(gathering, request.moment) {
        Ok(hunt) => hunt,
        Err(NoMemory) => return WatchEnd::NoMemory,
    };
    let mut reader = match Reader::new(alloc, Mode::Lines) {
        Ok(reader) => reader,
        Err(NoMemory) => return WatchEnd::NoMemory,
    };
    match write_skipped(alloc, hunt.skipped.as_slice(), output) {
        Ok(()) => {
            let hunted = hunt.hunted.as_slice();
            hunt_log(alloc, request, hunted, &mut reader, input, output)
        }
        Err(CutShort::WriteFault) => WatchEnd::WriteFault,
        Err(CutShort::NoMemory) => WatchEnd::NoMemory,
    }
}

/// Reads the feed in a file.
fn read_feed<F: Files>(alloc: Global, name: &str, files: &mut F) -> Result<Gathering, FeedEnd>
    ensures whole { IfOk result (λ gathering. (feed : List Data)
        × GathersFeed (F.contents files.old name.now) gathering feed) }
    ensures refused { (line : ℕ) (why : FeedRule) → result ≡ Err (FeedEnd.Refused line why)
        → (feed : List Data) × ReadsFeed (F.contents files.old name.now) feed (Refused line why) }
    ensures causes { Counted (result ≡ Err FeedEnd.Fault) (F.faults files.old)
        (F.faults files.new) }
{
    match files.open(name) {
        Ok(()) => gather(alloc, files),
        Err(Fault) => Err(FeedEnd::Fault),
    }
}

/// Hunts for the indicators of a file over an input.
fn hunt_file<F: Files, I: Source, O: Sink>(
    alloc: Global,
    request: &HuntRequest<'_>,
    name: &str,
    files: &mut F,
    input: &mut I,
    output: &mut O,
) -> HuntEnding
    ensures end { (hunt_task request.now).file ≡ Some name.now
        → EndsHuntTask (F.contents files.old)
        (streams (I.left input.old) (I.began input.old) (O.written output.old))
        (streams (I.left input.new) (I.began input.new) (O.written output.new)) result
        (hunt_task request.now) }
    ensures files { Counted (result ≡ HuntEnding.Unfed FeedEnd.Fault) (F.faults files.old)
        (F.faults files.new) }
    ensures input { Counted (result ≡ HuntEnding.Ended WatchEnd.ReadFault) (I.faults input.old)
        (I.faults input.new) }
    ensures output { Counted (hunt_status result ≡ 6) (O.faults output.old) (O.faults output.new) }
{
    match read_feed(alloc, name, files) {
        Ok(gathering) => HuntEnding::Ended(hunt_feed(alloc, request, gathering, input, output)),
        Err(end) => HuntEnding::Unfed(end),
    }
}

/// Executes the command line.
fn execute<F: Files, I: Source, O: Sink>(
    alloc: Global,
    arguments: &[String],
    files: &mut F,
    input: &mut I,
    output: &mut O,
) -> HuntEnding
    ensures end { EndsHunt (argument_texts arguments.now) (F.contents files.old)
        (streams (I.left input.old) (I.began input.old) (O.written output.old))
        (streams (I.left input.new) (I.began input.new) (O.written output.new)) result }
    ensures untouched { hunt_status result ≡ 2
        → (files.new ≡ files.old) × (input.new ≡ input.old) × (output.new ≡ output.old) }
    // without `--indicators` no file is opened
    ensures unopened { ¬ AskForFile (argument_texts arguments.now) → files.new ≡ files.old }
    ensures reads { CountedByOne (AskForFile (argument_texts arguments.now)) (hunt_status result
        ≡ 5)
        (I.faults input.old) (I.faults input.new)
        (F.faults files.old) (F.faults files.new) }
    ensures output { Counted (hunt_status result ≡ 6) (O.faults output.old) (O.faults output.new) }
{
    let Some(request) = read_request(arguments) else {
        return HuntEnding::Usage;
    };
    match request.file {
        Some(name) => hunt_file(alloc, &request, name, files, input, output),
        None => HuntEnding::Ended(hunt_input(alloc, &request, input, output)),
    }
}

/// Hunts for many indicators over an input, as the arguments request, and returns the exit status.
/// TIME is the moment at which indicators must be valid. CAP limits the retained partial matches
/// per pattern. With `--indicators FILE`, the objects of the file, one per line, hold the
/// indicators. Otherwise the first bundle of the input does, which is also part of the log. The
/// input format is that of `match`.
///
/// `output` gets a line for each indicator whose pattern is not supported, then each hit. A hit is
/// the identifier of an indicator and a binding of its pattern. Hits are ordered by the observation
/// at which they end, then by the indicator's index, and are written before more is read. At the
/// end of the input, if there was a hit, follows an envelope with one sighting per indicator seen.
///
/// | Exit status | Condition |
/// |---|---|
/// | 0 | the input was read to its end, and all hits and the report were written |
/// | 1 | memory ran out |
/// | 2 | if and only if the arguments are no command line |
/// | 4 | the first refused line of the file, or else of the input |
/// | 5 | if and only if the input or the files counted a fault |
/// | 6 | if and only if the output counted a fault |
/// | 7 | at the first observation where a pattern exceeds its limit on retained partial matches |
///
/// The reason is written to `faults` in one line. A failing write there changes nothing else.
pub fn run_hunt<F: Files, I: Source, O: Sink, E: Sink>(
    alloc: Global,
    arguments: &[String],
    files: &mut F,
    input: &mut I,
    output: &mut O,
    faults: &mut E,
) -> u8
    ensures ends { EndsHuntRun (argument_texts arguments.now) (F.contents files.old)
        (streams (I.left input.old) (I.began input.old) (O.written output.old))
        (streams (I.left input.new) (I.began input.new) (O.written output.new)) result
        (λ reason. WritesReason reason (E.written faults.old) (E.written faults.new)
        (E.faults faults.old) (E.faults faults.new)) }
    ensures refusals { (result ≡ 2) ↔ AskForNoHunt (argument_texts arguments.now) }
    // with status 0 or 4 exactly the hits were written, or the indicator file was refused
    ensures reported { (result ≡ 0) ⊎ (result ≡ 4)
        → AskForHuntWhere (argument_texts arguments.now) (HuntsOrRefuses (F.contents files.old)
        (streams (I.left input.old) (I.began input.old) (O.written output.old))
        (streams (I.left input.new) (I.began input.new) (O.written output.new)) result) }
    ensures over_limit { result ≡ 7
        → AskForHuntWhere (argument_texts arguments.now) (HuntsToLimit (F.contents files.old)
        (streams (I.left input.old) (I.began input.old) (O.written output.old))
        (streams (I.left input.new) (I.began input.new) (O.written output.new))) }
    ensures untouched { result ≡ 2
        → (files.new ≡ files.old) × (input.new ≡ input.old) × (output.new ≡ output.old) }
    ensures unopened { ¬ AskForFile (argument_texts arguments.now) → files.new ≡ files.old }
    // status 5 exactly if the input or, with `--indicators`, the files counted a fault
    ensures reads { CountedByOne (AskForFile (argument_texts arguments.now)) (result ≡ 5)
        (I.faults input.old) (I.faults input.new) (F.faults files.old) (F.faults files.new) }
    ensures output { Counted (result ≡ 6) (O.faults output.old) (O.faults output.new) }
{
    let ending = execute(alloc, arguments, files, input, output);
    finish(&ending, faults)
}

/// Writes why the program ends, and returns its exit status.
fn finish<E: Sink>(ending: &HuntEnding, faults: &mut E) -> u8
    ensures status { result ≡ hunt_status ending.now }
    ensures reason { (text : List ℕ) × IsHuntReason ending.now text
        × WritesReason text (E.written faults.old) (E.written faults.new) (E.faults faults.old)
        (E.faults faults.new) }
{
    let _ = ending.write_reason(faults);
    ending.status()
}
