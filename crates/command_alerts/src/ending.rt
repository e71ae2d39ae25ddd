ghost use Rattle.flow_edges.specs.Faults.{Counted};
ghost use Rattle.flow_edges.specs.Flow.{WritesWhole};

use command_reasons::{write_no_memory, write_pattern_reason, write_read_fault, write_write_fault};
use flow_edges::{Sink, write_whole};
use flow_values::Fault;
use match_input::write_input_refusal;
use match_run::WatchEnd;
use pattern_reader::PatternRefusal;
use std::convert::Infallible;

/// How the program ends.
#[derive(Debug, Drop)]
pub enum AlertEnding {
    /// The arguments are no command line.
    Usage,
    /// The pattern is refused.
    PatternRefused(PatternRefusal),
    /// The pattern is not one observation expression.
    NotLeaf,
    /// The input was processed, with this end.
    Ended(WatchEnd<Infallible>),
    /// Memory ran out before the input was read.
    NoMemory,
}

impl AlertEnding {
    ghost use Rattle.std.specs.Prelude.{◌≡◌, List, ℕ, IsErr};
    ghost use Rattle.command_alerts.specs.Endings.{alert_status, IsAlertReason};

    /// The program's exit status.
    pub fn status(&self) -> u8
        ensures { result ≡ alert_status self.now }
    {
        match self {
            AlertEnding::Usage => 2,
            AlertEnding::PatternRefused(_) | AlertEnding::NotLeaf => 3,
            AlertEnding::Ended(WatchEnd::Done) => 0,
            AlertEnding::Ended(WatchEnd::Input { .. }) => 4,
            AlertEnding::Ended(WatchEnd::ReadFault) => 5,
            AlertEnding::Ended(WatchEnd::WriteFault) => 6,
            AlertEnding::Ended(WatchEnd::Stopped(never)) => match *never {},
            AlertEnding::Ended(WatchEnd::NoMemory) | AlertEnding::NoMemory => 1,
        }
    }

    /// Writes why the program ends, in one line, or nothing after success. Allocates nothing.
    pub fn write_reason<S: Sink>(&self, reasons: &mut S) -> Result<(), Fault>
        ensures text { (text : List ℕ) × IsAlertReason self.now text
            × WritesWhole text (S.written reasons.old) (S.written reasons.new) result }
        ensures causes { Counted (IsErr result) (S.faults reasons.old) (S.faults reasons.new) }
    {
        match self {
            AlertEnding::Usage => {
                write_whole(reasons, b"usage: stix_alerts PATTERN N SECONDS\n")
            }
            AlertEnding::PatternRefused(refusal) => write_pattern_reason(refusal, reasons),
            AlertEnding::NotLeaf => write_whole(reasons, b"pattern refused: NotLeaf\n"),
            AlertEnding::Ended(WatchEnd::Done) => write_whole(reasons, b""),
            AlertEnding::Ended(WatchEnd::Input { line, rule }) => {
                write_input_refusal(*line, rule, reasons)
            }
            AlertEnding::Ended(WatchEnd::ReadFault) => write_read_fault(reasons),
            AlertEnding::Ended(WatchEnd::WriteFault) => write_write_fault(reasons),
            AlertEnding::Ended(WatchEnd::Stopped(never)) => match *never {},
            AlertEnding::Ended(WatchEnd::NoMemory) | AlertEnding::NoMemory => {
                write_no_memory(reasons)
            }
        }
    }
}
