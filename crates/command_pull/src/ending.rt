ghost use Rattle.std.specs.Prelude.{◌≡◌, IsErr};
ghost use Rattle.flow_edges.specs.Faults.{Counted};
ghost use Rattle.flow_edges.specs.Flow.{WritesWhole};
ghost use Rattle.command_pull.specs.Endings.{skipped_count_text, end_reason};

use command_peer::write_refusal;
use command_reasons::{write_no_memory, write_write_fault};
use flow_edges::{Sink, write_all_vectored, write_whole};
use flow_values::Fault;
use itoa::Buffer;
use match_run::CutShort;
use taxii_client::PageEnd;

/// How the program ends.
#[derive(Debug, Drop)]
pub enum PullEnding {
    /// The arguments are no command line.
    Usage,
    /// All pages were received and written.
    Done,
    /// The next page did not arrive.
    Lost(PageEnd),
    /// The last page was not written completely.
    CutShort(CutShort),
    /// Memory ran out before the first request.
    NoMemory,
}

/// How the program ends, and how many entries of the received pages are invalid.
#[derive(Debug, Drop)]
pub struct PullEnd {
    pub skipped: u128,
    pub ending: PullEnding,
}

impl PullEnd {
    /// An end before the first page.
    pub(crate) fn before_pages(ending: PullEnding) -> PullEnd
        ensures { result ≡ record { skipped = 0; ending = ending } }
    {
        PullEnd { skipped: 0, ending }
    }

    /// Writes how many entries were skipped, if any, and why the program ends. Allocates nothing.
    pub(crate) fn write_reason<S: Sink>(&self, reasons: &mut S) -> Result<(), Fault>
        ensures text { WritesWhole (end_reason self.now) (S.written reasons.old)
            (S.written reasons.new) result }
        ensures causes { Counted (IsErr result) (S.faults reasons.old) (S.faults reasons.new) }
    {
        write_skipped(self.skipped, reasons)?;
        self.ending.write_reason(reasons)
    }
}

impl PullEnding {
    ghost use Rattle.command_pull.specs.Endings.{pull_status, pull_reason};

    /// The program's exit status.
    pub fn status(&self) -> u8
        ensures { result ≡ pull_status self.now }
    {
        match self {
            PullEnding::Done => 0,
            PullEnding::Lost(PageEnd::NoMemory)
            | PullEnding::CutShort(CutShort::NoMemory)
            | PullEnding::NoMemory => 1,
            PullEnding::Usage => 2,
            PullEnding::Lost(PageEnd::Fault) => 5,
            PullEnding::CutShort(CutShort::WriteFault) => 6,
            PullEnding::Lost(PageEnd::Refused(_)) => 11,
            PullEnding::Lost(PageEnd::Cut) => 12,
            PullEnding::Lost(PageEnd::TooManyPages) => 13,
        }
    }

    /// Writes why the program ends, in one line, or nothing after success. Allocates nothing.
    pub fn write_reason<S: Sink>(&self, reasons: &mut S) -> Result<(), Fault>
        ensures text { WritesWhole (pull_reason self.now) (S.written reasons.old)
            (S.written reasons.new) result }
        ensures causes { Counted (IsErr result) (S.faults reasons.old) (S.faults reasons.new) }
    {
        match self {
            PullEnding::Done => write_whole(reasons, b""),
            PullEnding::Usage => write_whole(
                reasons,
                b"usage: stix_pull HOST PORT ROOT COLLECTION [LIMIT]\n",
            ),
            PullEnding::Lost(PageEnd::NoMemory)
            | PullEnding::CutShort(CutShort::NoMemory)
            | PullEnding::NoMemory => write_no_memory(reasons),
            PullEnding::Lost(PageEnd::Fault) => write_whole(reasons, b"link fault\n"),
            PullEnding::CutShort(CutShort::WriteFault) => write_write_fault(reasons),
            PullEnding::Lost(PageEnd::Refused(refusal)) => write_refusal(refusal, reasons),
            PullEnding::Lost(PageEnd::Cut) => write_whole(reasons, b"reply cut\n"),
            PullEnding::Lost(PageEnd::TooManyPages) => write_whole(reasons, b"too many pages\n"),
        }
    }
}

/// Writes how many entries were skipped, if any.
fn write_skipped<S: Sink>(skipped: u128, reasons: &mut S) -> Result<(), Fault>
    ensures text { WritesWhole (skipped_count_text skipped) (S.written reasons.old)
        (S.written reasons.new) result }
    ensures causes { Counted (IsErr result) (S.faults reasons.old) (S.faults reasons.new) }
{
    if skipped == 0 {
        return write_whole(reasons, b"");
    }
    let mut buffer = Buffer::new();
    let count = buffer.format(skipped);
    write_all_vectored(reasons, &[b"skipped ", count.as_bytes(), b"\n"])
}
