ghost use Rattle.std.specs.Prelude.{◌≡◌, ◌≢◌, ◌≤◌, ◌++◌, List, ℕ, codes, IfOk, IfErr, IsErr};
ghost use Rattle.flow_edges.specs.Faults.{Counted};
ghost use Rattle.flow_edges.specs.Flow.{WritesWhole};
ghost use Rattle.match_generator.specs.declared.log.TheConstants.{MAX_SEED, MAX_COUNT};
ghost use Rattle.pattern_reader.specs.Read.{IsReadAs};
ghost use Rattle.command_make.specs.MakeEndings.{made_pattern, AreNumbersOf, numbers_text};
ghost use Rattle.command_make.specs.MakeEndings.{EndsMake, StopsEarly, make_status};

use command_line::DEFAULT_RETAINED_LIMIT;
use command_reasons::{write_no_memory, write_write_fault};
use flow_edges::{Sink, write_all_vectored, write_whole};
use flow_memory::QuietSink;
use flow_values::Fault;
use itoa::Buffer;
use match_generator::GeneratedLog;
use match_input::write_input_refusal;
use match_run::{InputRule, MatchEnd, Matcher, Mode, match_stream};
use pattern_reader::{Pattern, read_pattern};
use pattern_types::leaf_laws::leaves_are_brackets;
use std::alloc::Global;

/// The pattern matched over the generated log.
const PATTERN: &str = "[user-account:account_login = 'u1'] REPEATS 2 TIMES WITHIN 30 SECONDS";

/// How `make` ends.
#[derive(Debug, Drop)]
pub enum MakeEnding {
    /// The numbers were written.
    Made,
    /// A line of the log is refused. Tests show that this does not occur.
    Refused { line: u64, rule: InputRule },
    /// The output failed.
    WriteFault,
    /// Memory ran out.
    NoMemory,
}

impl MakeEnding {
    ghost use Rattle.command_make.specs.MakeEndings.{IsMakeReason};

    /// The program's exit status.
    pub fn status(&self) -> u8
        ensures { result ≡ make_status self.now }
    {
        match self {
            MakeEnding::Made => 0,
            MakeEnding::NoMemory => 1,
            MakeEnding::Refused { .. } => 4,
            MakeEnding::WriteFault => 6,
        }
    }

    /// Writes why the command ends. Allocates nothing.
    pub fn write_reason<S: Sink>(&self, reasons: &mut S) -> Result<(), Fault>
        ensures text { (text : List ℕ) × IsMakeReason self.now text
            × WritesWhole text (S.written reasons.old) (S.written reasons.new) result }
        ensures causes { Counted (IsErr result) (S.faults reasons.old) (S.faults reasons.new) }
    {
        match self {
            MakeEnding::Made => write_whole(reasons, b""),
            MakeEnding::NoMemory => write_no_memory(reasons),
            MakeEnding::Refused { line, rule } => write_input_refusal(*line, rule, reasons),
            MakeEnding::WriteFault => write_write_fault(reasons),
        }
    }
}

/// The size of a listing: the numbers of observations and of bindings, and the largest observation
/// number of the last binding, or 0.
#[derive(Clone, Copy)]
struct Numbers {
    observations: u64,
    bindings: u128,
    last: u64,
}

/// The command `make`: matches the fixed pattern over the generated log, and writes the size of the
/// listing.
pub fn make<O: Sink>(alloc: Global, seed: u32, count: u32, output: &mut O) -> MakeEnding
    requires seed { seed ≤ MAX_SEED }
    requires count { count ≤ MAX_COUNT }
    ensures end { EndsMake seed count (O.written output.old) (O.written output.new) result }
    ensures output { Counted (make_status result ≡ 6) (O.faults output.old) (O.faults output.new) }
{
    let numbers = match numbers_of(alloc, seed, count) {
        Ok(numbers) => numbers,
        Err(ending) => return ending,
    };
    match write_numbers(numbers, output) {
        Ok(()) => MakeEnding::Made,
        Err(_) => MakeEnding::WriteFault,
    }
}

/// The size of the generated log's listing.
fn numbers_of(alloc: Global, seed: u32, count: u32) -> Result<Numbers, MakeEnding>
    requires seed { seed ≤ MAX_SEED }
    requires count { count ≤ MAX_COUNT }
    ensures ok { IfOk result
        (λ numbers. AreNumbersOf seed count numbers.observations numbers.bindings numbers.last) }
    ensures err { IfErr result (StopsEarly seed count) }
{
    match read_pattern(alloc, PATTERN) {
        Ok(pattern) => {
            let numbers = matched(alloc, &pattern, seed, count);
            drop(pattern);
            numbers
        }
        // No other error occurs: the text is a pattern, as tests show.
        Err(_) => Err(MakeEnding::NoMemory),
    }
}

/// Matches the parsed pattern over the generated log.
fn matched(alloc: Global, pattern: &Pattern, seed: u32, count: u32) -> Result<Numbers, MakeEnding>
    requires read { IsReadAs made_pattern pattern.now }
    requires seed { seed ≤ MAX_SEED }
    requires count { count ≤ MAX_COUNT }
    ensures ok { IfOk result
        (λ numbers. AreNumbersOf seed count numbers.observations numbers.bindings numbers.last) }
    ensures err { IfErr result (StopsEarly seed count) }
{
    leaves_are_brackets();
    let Ok(mut matcher) = Matcher::new(alloc, pattern, u64::from(DEFAULT_RETAINED_LIMIT)) else {
        return Err(MakeEnding::NoMemory);
    };
    let mut log = GeneratedLog::new(seed, count);
    let mut unkept = QuietSink::new();
    match match_stream(alloc, &mut matcher, &mut log, &mut unkept, Mode::Lines) {
        MatchEnd::Done {
            observations,
            bindings,
            last,
        } => Ok(Numbers {
            observations,
            bindings,
            last,
        }),
        MatchEnd::Input { line, rule } => Err(MakeEnding::Refused { line, rule }),
        // Neither stream fails, and 100,000 observations retain at most 199,999 partial matches.
        MatchEnd::ReadFault
        | MatchEnd::WriteFault
        | MatchEnd::OverLimit { .. }
        | MatchEnd::NoMemory => Err(MakeEnding::NoMemory),
    }
}

/// Writes numbers, as `observations 5 bindings 1 last 4` and a line feed.
fn write_numbers<O: Sink>(numbers: Numbers, output: &mut O) -> Result<(), Fault>
    ensures text { WritesWhole (numbers_text numbers.observations numbers.bindings numbers.last)
        (O.written output.old) (O.written output.new) result }
    ensures causes { Counted (IsErr result) (O.faults output.old) (O.faults output.new) }
{
    let mut buffer = Buffer::new();
    let observations = buffer.format(numbers.observations);
    let mut buffer = Buffer::new();
    let bindings = buffer.format(numbers.bindings);
    let mut buffer = Buffer::new();
    let last = buffer.format(numbers.last);
    write_texts(observations, bindings, last, output)
}

/// Writes the line with the formatted numbers.
fn write_texts<O: Sink>(
    observations: &str,
    bindings: &str,
    last: &str,
    output: &mut O,
) -> Result<(), Fault>
    ensures text { WritesWhole
        (codes "observations " ++ (observations.now ++ (codes " bindings " ++ (bindings.now
        ++ (codes " last " ++ (last.now ++ codes "\n"))))))
        (O.written output.old) (O.written output.new) result }
    ensures causes { Counted (IsErr result) (O.faults output.old) (O.faults output.new) }
{
    write_all_vectored(
        output,
        &[
            b"observations ",
            observations.as_bytes(),
            b" bindings ",
            bindings.as_bytes(),
            b" last ",
            last.as_bytes(),
            b"\n",
        ],
    )
}
