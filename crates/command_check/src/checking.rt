ghost use Rattle.std.specs.Prelude.{◌≡◌, ◌≢◌, List, ℕ, IsErr};
ghost use Rattle.flow_edges.specs.Faults.{Counted};
ghost use Rattle.flow_edges.specs.Flow.{WritesWhole};
ghost use Rattle.flow_edges.specs.Streams.{streams};
ghost use Rattle.command_check.specs.CheckEndings.{EndsCheck, EndsValidating, check_status};

use crate::validating::validate;
use crate::verdict::Verdict;
use crate::verdict_text::verdict_text;
use command_reasons::{write_no_memory, write_read_fault, write_write_fault};
use flow_edges::{Sink, Source, write_whole};
use flow_lines::{InputRefusal, read_whole};
use flow_values::{Fault, Items};
use match_input::{InputRule, write_input_refusal};
use std::alloc::Global;

/// How `check` ends.
#[derive(Debug, Drop)]
pub enum CheckEnding {
    /// The input was read completely, and the verdict on it was written.
    Validated(Verdict),
    /// The input is longer than allowed.
    TooLong,
    /// The input failed.
    ReadFault,
    /// The output failed.
    WriteFault,
    /// Memory ran out.
    NoMemory,
}

impl CheckEnding {
    ghost use Rattle.command_check.specs.CheckEndings.{IsCheckReason};

    /// The program's exit status.
    pub fn status(&self) -> u8
        ensures { result ≡ check_status self.now }
    {
        match self {
            CheckEnding::Validated(Verdict::Sound { .. }) => 0,
            CheckEnding::NoMemory => 1,
            CheckEnding::Validated(Verdict::Broken(_) | Verdict::Unfit { .. } | Verdict::Refused(_))
            | CheckEnding::TooLong => 4,
            CheckEnding::ReadFault => 5,
            CheckEnding::WriteFault => 6,
        }
    }

    /// Writes why the command ends; a refused input counts as line 1. Allocates nothing.
    pub fn write_reason<S: Sink>(&self, reasons: &mut S) -> Result<(), Fault>
        ensures text { (text : List ℕ) × IsCheckReason self.now text
            × WritesWhole text (S.written reasons.old) (S.written reasons.new) result }
        ensures causes { Counted (IsErr result) (S.faults reasons.old) (S.faults reasons.new) }
    {
        match self {
            CheckEnding::Validated(Verdict::Refused(rule)) => write_input_refusal(1, rule, reasons),
            CheckEnding::Validated(
                Verdict::Sound { .. } | Verdict::Broken(_) | Verdict::Unfit { .. },
            ) => write_whole(reasons, b""),
            CheckEnding::TooLong => write_input_refusal(1, &InputRule::InputTooLong, reasons),
            CheckEnding::ReadFault => write_read_fault(reasons),
            CheckEnding::WriteFault => write_write_fault(reasons),
            CheckEnding::NoMemory => write_no_memory(reasons),
        }
    }
}

/// The command `check`: writes the violations of a bundle's objects, else those of their versions
/// and granular markings, else how many objects are valid.
pub fn check<I: Source, O: Sink>(alloc: Global, input: &mut I, output: &mut O) -> CheckEnding
    ensures end { EndsCheck (streams (I.left input.old) (I.began input.old) (O.written output.old))
        (streams (I.left input.new) (I.began input.new) (O.written output.new)) result }
    ensures input { Counted (check_status result ≡ 5) (I.faults input.old) (I.faults input.new) }
    ensures output { Counted (check_status result ≡ 6) (O.faults output.old) (O.faults output.new) }
{
    match read_whole(alloc, input) {
        Ok(bytes) => check_bytes(alloc, bytes, output),
        Err(InputRefusal::Fault) => CheckEnding::ReadFault,
        Err(InputRefusal::TooLong) => CheckEnding::TooLong,
        Err(InputRefusal::NoMemory) => CheckEnding::NoMemory,
    }
}

/// Validates bytes, and writes the verdict.
fn check_bytes<O: Sink>(alloc: Global, bytes: Items<u8>, output: &mut O) -> CheckEnding
    ensures end { EndsValidating bytes (O.written output.old) (O.written output.new) result }
    ensures read { check_status result ≢ 5 }
    ensures output { Counted (check_status result ≡ 6) (O.faults output.old) (O.faults output.new) }
{
    let Ok(verdict) = validate(alloc, bytes) else {
        return CheckEnding::NoMemory;
    };
    let Ok(text) = verdict_text(alloc, &verdict) else {
        return CheckEnding::NoMemory;
    };
    match write_whole(output, text.as_str().as_bytes()) {
        Ok(()) => CheckEnding::Validated(verdict),
        Err(_) => CheckEnding::WriteFault,
    }
}
