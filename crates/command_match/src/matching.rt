ghost use Rattle.std.specs.Prelude.{◌≡◌, ◌≢◌, List, ℕ, IsErr};
ghost use Rattle.flow_edges.specs.Faults.{Counted};
ghost use Rattle.flow_edges.specs.Flow.{WritesWhole};
ghost use Rattle.pattern_reader.specs.Read.{IsReadAs};
ghost use Rattle.flow_edges.specs.Streams.{streams};
ghost use Rattle.command_match.specs.Tasks.{match_task};
ghost use Rattle.command_match.specs.Tasks.{mode_of};
ghost use Rattle.command_match.specs.MatchEndings.{EndsMatch, match_status};

use command_line::MatchRequest;
use command_reasons::{
    write_no_memory, write_over_limit, write_pattern_reason, write_read_fault, write_write_fault,
};
use flow_edges::{Sink, Source, write_whole};
use flow_values::{Fault, NoMemory};
use match_input::write_input_refusal;
use match_run::{MatchEnd, Matcher, Mode, match_stream};
use pattern_reader::reader_laws::none_refused;
use pattern_reader::{Pattern, PatternRefusal, read_pattern};
use pattern_types::leaf_laws::leaves_are_brackets;
use std::alloc::Global;
use std::mem;

/// How `match` ends.
#[derive(Debug, Drop)]
pub enum MatchEnding {
    /// The pattern is refused.
    PatternRefused(PatternRefusal),
    /// The input was matched, with this end.
    Ended(MatchEnd),
    /// Memory ran out before the input was read.
    NoMemory,
}

impl MatchEnding {
    ghost use Rattle.command_match.specs.MatchEndings.{IsMatchReason};

    /// The program's exit status.
    pub fn status(&self) -> u8
        ensures { result ≡ match_status self.now }
    {
        match self {
            MatchEnding::PatternRefused(_) => 3,
            MatchEnding::Ended(MatchEnd::Done { .. }) => 0,
            MatchEnding::Ended(MatchEnd::Input { .. }) => 4,
            MatchEnding::Ended(MatchEnd::ReadFault) => 5,
            MatchEnding::Ended(MatchEnd::WriteFault) => 6,
            MatchEnding::Ended(MatchEnd::OverLimit { .. }) => 7,
            MatchEnding::Ended(MatchEnd::NoMemory) | MatchEnding::NoMemory => 1,
        }
    }

    /// Writes why the command ends. Allocates nothing.
    pub fn write_reason<S: Sink>(&self, reasons: &mut S) -> Result<(), Fault>
        ensures text { (text : List ℕ) × IsMatchReason self.now text
            × WritesWhole text (S.written reasons.old) (S.written reasons.new) result }
        ensures causes { Counted (IsErr result) (S.faults reasons.old) (S.faults reasons.new) }
    {
        match self {
            MatchEnding::PatternRefused(refusal) => write_pattern_reason(refusal, reasons),
            MatchEnding::Ended(MatchEnd::Done { .. }) => write_whole(reasons, b""),
            MatchEnding::Ended(MatchEnd::Input { line, rule }) => {
                write_input_refusal(*line, rule, reasons)
            }
            MatchEnding::Ended(MatchEnd::ReadFault) => write_read_fault(reasons),
            MatchEnding::Ended(MatchEnd::WriteFault) => write_write_fault(reasons),
            MatchEnding::Ended(
                MatchEnd::OverLimit {
                    number,
                    retained_limit,
                },
            ) => { write_over_limit(*number, *retained_limit, reasons) }
            MatchEnding::Ended(MatchEnd::NoMemory) | MatchEnding::NoMemory => {
                write_no_memory(reasons)
            }
        }
    }
}

/// Writes the bindings of a parsed pattern over an input.
fn match_pattern<I: Source, O: Sink>(
    alloc: Global,
    pattern: &Pattern,
    request: MatchRequest<'_>,
    input: &mut I,
    output: &mut O,
) -> MatchEnding
    requires { IsReadAs request.pattern.now pattern.now }
    ensures end { EndsMatch (match_task request.entry)
        (streams (I.left input.old) (I.began input.old) (O.written output.old))
        (streams (I.left input.new) (I.began input.new) (O.written output.new)) result }
    ensures read { match_status result ≢ 3 }
    ensures input { Counted (match_status result ≡ 5) (I.faults input.old) (I.faults input.new) }
    ensures output { Counted (match_status result ≡ 6) (O.faults output.old) (O.faults output.new) }
{
    leaves_are_brackets();
    let mut matcher = match Matcher::new(alloc, pattern, request.retained_limit) {
        Ok(matcher) => matcher,
        Err(NoMemory) => return MatchEnding::NoMemory,
    };
    let end = match_stream(alloc, &mut matcher, input, output, mode_of(request.whole));
    // The program ends next. Dropping the matcher would recurse as deep as the pattern nests.
    mem::forget(matcher);
    MatchEnding::Ended(end)
}

/// How the input is split into bundles.
fn mode_of(whole: bool) -> Mode
    ensures { result ≡ mode_of whole }
{
    if whole { Mode::Whole } else { Mode::Lines }
}

/// The command `match`: writes the bindings of a pattern over an input.
pub fn match_bindings<I: Source, O: Sink>(
    alloc: Global,
    request: MatchRequest<'_>,
    input: &mut I,
    output: &mut O,
) -> MatchEnding
    ensures end { EndsMatch (match_task request.entry)
        (streams (I.left input.old) (I.began input.old) (O.written output.old))
        (streams (I.left input.new) (I.began input.new) (O.written output.new)) result }
    ensures untouched { match_status result ≡ 3
        → (input.new ≡ input.old) × (output.new ≡ output.old) }
    ensures input { Counted (match_status result ≡ 5) (I.faults input.old) (I.faults input.new) }
    ensures output { Counted (match_status result ≡ 6) (O.faults output.old) (O.faults output.new) }
{
    none_refused();
    match read_pattern(alloc, request.pattern) {
        Ok(read) => {
            let ending = match_pattern(alloc, &read, request, input, output);
            drop(read);
            ending
        }
        Err(PatternRefusal::NoMemory) => MatchEnding::NoMemory,
        Err(refusal) => MatchEnding::PatternRefused(refusal),
    }
}
