//! A log matched while each read of it, and each write of its bindings, fails in order.

ghost use Rattle.std.specs.Prelude.{ℕ, List};
ghost use Rattle.pattern_reader.specs.Read.{IsReadAs};

use crate::lists::listed;
use flow_memory::{MemorySink, MemorySource};
use flow_values::NoMemory;
use match_run::{MatchEnd, Matcher, Mode, match_stream};
use pattern_reader::{Pattern, read_pattern};
use pattern_types::leaf_laws::leaves_are_brackets;
use std::alloc::Global;
use std::test::Fail;

/// A line in which the account `a` is observed.
const LOGIN: &str =
    "{\"type\":\"bundle\",\"id\":\"bundle--00000000-0000-4000-8000-000000000001\",\"objects\":[{\"type\":\"observed-data\",\"spec_version\":\"2.1\",\"id\":\"observed-data--00000000-0000-4000-8000-000000000001\",\"created\":\"2021-06-10T00:00:00.000Z\",\"modified\":\"2021-06-10T00:00:00.000Z\",\"first_observed\":\"2021-06-10T00:00:00Z\",\"last_observed\":\"2021-06-10T00:00:00Z\",\"number_observed\":1,\"object_refs\":[\"user-account--00000000-0000-4000-8000-000000000001\"]},{\"type\":\"user-account\",\"id\":\"user-account--00000000-0000-4000-8000-000000000001\",\"account_login\":\"a\"}]}\n";

/// How a match ended, what it wrote, and how many rows it retains.
#[derive(Drop)]
struct Outcome {
    end: MatchEnd,
    output: MemorySink,
    kept: Option<usize>,
}

/// Matches the line twice with a pattern that holds for it. Reads return at most 100 bytes, and the
/// read and the write with these numbers fail.
fn match_with_faults(alloc: Global, read: u64, write: u64) -> Result<Outcome, Fail> {
    let log = format!(in alloc; "{LOGIN}{LOGIN}")?;
    let bytes = listed(alloc, log.as_bytes())?;
    let input = MemorySource::new(bytes, 100, listed(alloc, &[read])?);
    let output = MemorySink::new(alloc, 1_024, listed(alloc, &[write])?)?;
    let pattern = read_pattern(alloc, "[user-account:account_login = 'a']")?;
    let outcome = match_pattern(alloc, &pattern, input, output);
    drop(pattern);
    Ok(outcome?)
}

/// Matches a parsed pattern.
fn match_pattern(
    alloc: Global,
    pattern: &Pattern,
    mut input: MemorySource,
    mut output: MemorySink,
) -> Result<Outcome, NoMemory>
    requires { (text : List ℕ) × IsReadAs text pattern.now }
{
    leaves_are_brackets();
    let mut matcher = Matcher::new(alloc, pattern, 10)?;
    let end = match_stream(alloc, &mut matcher, &mut input, &mut output, Mode::Lines);
    let kept = retained(&matcher);
    Ok(Outcome { end, output, kept })
}

/// How many rows a matcher retains.
fn retained(matcher: &Matcher) -> Option<usize> {
    Some(matcher.kept().ok()?.len())
}

#[test]
fn what_stands_after_a_fault(rt: HostRuntime) -> Result<(), Fail> {
    for (read, write, wanted, output) in [
        (0, 0, "Done", "1: 1\n2: 2\n"),
        (1, 0, "ReadFault", ""),
        (5, 0, "ReadFault", ""),
        (8, 0, "ReadFault", "1: 1\n"),
        (0, 1, "WriteFault", ""),
        (0, 2, "WriteFault", "1: 1\n"),
    ] {
        let outcome = match_with_faults(rt.alloc(), read, write)?;
        let end = match outcome.end {
            MatchEnd::Done { .. } => "Done",
            MatchEnd::ReadFault => "ReadFault",
            MatchEnd::WriteFault => "WriteFault",
            _ => "another end",
        };
        assert_eq!(rt; (end, outcome.kept), (wanted, Some(0)), "{read}, {write}");
        assert_eq!(rt;
            outcome.output.bytes(),
            output.as_bytes(),
            "{read}, {write}"
        );
    }
    Ok(())
}
