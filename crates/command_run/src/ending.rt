ghost use Rattle.flow_edges.specs.Faults.{Counted};
ghost use Rattle.flow_edges.specs.Flow.{WritesWhole};

use crate::ServeEnding;
use command_check::CheckEnding;
use command_make::MakeEnding;
use command_match::MatchEnding;
use command_reasons::write_no_memory;
use command_show::ShowEnding;
use flow_edges::{Sink, write_whole};
use flow_values::Fault;

/// How the program ends: the end of its command, or that the arguments are no command line.
#[derive(Debug, Drop)]
pub enum Ending {
    Match(MatchEnding),
    Check(CheckEnding),
    Show(ShowEnding),
    Make(MakeEnding),
    Serve(ServeEnding),
    /// The arguments are no command line.
    Usage,
    /// Memory ran out while the arguments were parsed.
    NoMemory,
}

impl Ending {
    ghost use Rattle.std.specs.Prelude.{◌≡◌, List, ℕ, IsErr};
    ghost use Rattle.command_run.specs.RunEndings.{exit_status, IsReasonOf};

    /// The program's exit status.
    pub fn status(&self) -> u8
        ensures { result ≡ exit_status self.now }
    {
        match self {
            Ending::Match(ending) => ending.status(),
            Ending::Check(ending) => ending.status(),
            Ending::Show(ending) => ending.status(),
            Ending::Make(ending) => ending.status(),
            Ending::Serve(ending) => ending.status(),
            Ending::Usage => 2,
            Ending::NoMemory => 1,
        }
    }

    /// Writes why the program ends, in one line, or nothing after success. Allocates nothing.
    pub fn write_reason<S: Sink>(&self, reasons: &mut S) -> Result<(), Fault>
        ensures text { (text : List ℕ) × IsReasonOf self.now text
            × WritesWhole text (S.written reasons.old) (S.written reasons.new) result }
        ensures causes { Counted (IsErr result) (S.faults reasons.old) (S.faults reasons.new) }
    {
        match self {
            Ending::Match(ending) => ending.write_reason(reasons),
            Ending::Check(ending) => ending.write_reason(reasons),
            Ending::Show(ending) => ending.write_reason(reasons),
            Ending::Make(ending) => ending.write_reason(reasons),
            Ending::Serve(ending) => ending.write_reason(reasons),
            Ending::Usage => write_whole(
                reasons,
                b"usage: stix_command (match | check | show | serve | make) WORDS\n",
            ),
            Ending::NoMemory => write_no_memory(reasons),
        }
    }
}
