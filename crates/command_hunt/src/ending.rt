ghost use Rattle.std.specs.Prelude.{◌≡◌, List, ℕ, IsErr};
ghost use Rattle.flow_edges.specs.Faults.{Counted};
ghost use Rattle.flow_edges.specs.Flow.{WritesWhole};
ghost use Rattle.command_hunt.specs.declared.ending.HuntEnding.TheVariants.{Unfed};
ghost use Rattle.command_hunt.specs.Endings.{hunt_status, IsHuntReason};

use command_reasons::{write_no_memory, write_over_limit, write_read_fault, write_write_fault};
use flow_edges::{Sink, write_whole};
use flow_values::Fault;
use hunt_feed::{FeedEnd, write_feed_refusal};
use hunt_report::OverLimit;
use match_input::write_input_refusal;
use match_run::WatchEnd;

/// How the program ends.
#[derive(Debug, Drop)]
pub enum HuntEnding {
    /// The arguments are no command line.
    Usage,
    /// The indicator file could not be read completely. Nothing of the input was read.
    Unfed(FeedEnd),
    /// The input was processed, with this end; or memory ran out before.
    Ended(WatchEnd<OverLimit>),
}

impl HuntEnding {
    /// The program's exit status.
    pub fn status(&self) -> u8
        ensures { result ≡ hunt_status self.now }
    {
        match self {
            HuntEnding::Ended(WatchEnd::Done) => 0,
            HuntEnding::Ended(WatchEnd::NoMemory) => 1,
            HuntEnding::Usage => 2,
            HuntEnding::Unfed(FeedEnd::NoMemory) => 1,
            HuntEnding::Unfed(FeedEnd::Refused { .. }) => 4,
            HuntEnding::Unfed(FeedEnd::Fault) => 5,
            HuntEnding::Ended(WatchEnd::Input { .. }) => 4,
            HuntEnding::Ended(WatchEnd::ReadFault) => 5,
            HuntEnding::Ended(WatchEnd::WriteFault) => 6,
            HuntEnding::Ended(WatchEnd::Stopped(_)) => 7,
        }
    }

    /// Writes why the program ends, in one line, or nothing after success. Allocates nothing.
    pub fn write_reason<S: Sink>(&self, reasons: &mut S) -> Result<(), Fault>
        ensures text { (text : List ℕ) × IsHuntReason self.now text
            × WritesWhole text (S.written reasons.old) (S.written reasons.new) result }
        ensures causes { Counted (IsErr result) (S.faults reasons.old) (S.faults reasons.new) }
    {
        match self {
            HuntEnding::Usage => write_whole(
                reasons,
                b"usage: stix_hunt [--indicators FILE] TIME [CAP]\n",
            ),
            HuntEnding::Unfed(end) => write_unfed(end, reasons),
            HuntEnding::Ended(WatchEnd::Done) => write_whole(reasons, b""),
            HuntEnding::Ended(WatchEnd::Input { line, rule }) => {
                write_input_refusal(*line, rule, reasons)
            }
            HuntEnding::Ended(WatchEnd::ReadFault) => write_read_fault(reasons),
            HuntEnding::Ended(WatchEnd::WriteFault) => write_write_fault(reasons),
            HuntEnding::Ended(WatchEnd::Stopped(why)) => write_over_limit(
                why.number,
                why.retained_limit,
                reasons,
            ),
            HuntEnding::Ended(WatchEnd::NoMemory) => write_no_memory(reasons),
        }
    }
}

/// Writes why the indicator file could not be read completely.
fn write_unfed<S: Sink>(end: &FeedEnd, reasons: &mut S) -> Result<(), Fault>
    ensures text { (text : List ℕ) × IsHuntReason (Unfed end.now) text
        × WritesWhole text (S.written reasons.old) (S.written reasons.new) result }
    ensures causes { Counted (IsErr result) (S.faults reasons.old) (S.faults reasons.new) }
{
    match end {
        FeedEnd::Refused { line, rule } => write_feed_refusal(*line, rule, reasons),
        FeedEnd::Fault => write_whole(reasons, b"indicators fault\n"),
        FeedEnd::NoMemory => write_no_memory(reasons),
    }
}
