ghost use Rattle.std.specs.Prelude.{◌≡◌, codes, IsErr};
ghost use Rattle.flow_edges.specs.Faults.{Counted};
ghost use Rattle.flow_edges.specs.Flow.{WritesWhole};
ghost use Rattle.command_mirror.specs.Endings.{stop_status, stop_reason};

use command_peer::write_refusal;
use command_reasons::{write_bad_row, write_no_memory, write_store_fault, write_write_fault};
use flow_edges::{Sink, write_whole};
use flow_values::Fault;
use taxii_client::{CopyStop, FetchStop, StoreRefusal};
use taxii_rows::FaultCause;
use taxii_store::LoadRefusal;

/// How the program ends.
#[derive(Debug, Drop)]
pub enum MirrorEnding {
    /// The arguments are no command line.
    Usage,
    /// All pages were absorbed, and the summary was written.
    Done,
    /// All pages were absorbed, but writing the summary failed.
    WriteFault,
    Stopped(CopyStop),
    /// Memory ran out before the store was read.
    NoMemory,
}

impl MirrorEnding {
    ghost use Rattle.command_mirror.specs.Endings.{mirror_status, mirror_reason};

    /// The program's exit status.
    pub fn status(&self) -> u8
        ensures { result ≡ mirror_status self.now }
    {
        match self {
            MirrorEnding::Done => 0,
            MirrorEnding::NoMemory => 1,
            MirrorEnding::Usage => 2,
            MirrorEnding::WriteFault => 6,
            MirrorEnding::Stopped(stop) => status_of(stop),
        }
    }

    /// Writes why the program ends, in one line, or nothing after success; `cause` is that of the
    /// keeper's last fault. Allocates nothing.
    pub fn write_reason<S: Sink>(&self, cause: FaultCause, reasons: &mut S) -> Result<(), Fault>
        ensures text { WritesWhole (mirror_reason cause self.now) (S.written reasons.old)
            (S.written reasons.new) result }
        ensures causes { Counted (IsErr result) (S.faults reasons.old) (S.faults reasons.new) }
    {
        match self {
            MirrorEnding::Done => write_whole(reasons, b""),
            MirrorEnding::NoMemory => write_no_memory(reasons),
            MirrorEnding::Usage => write_usage(reasons),
            MirrorEnding::WriteFault => write_write_fault(reasons),
            MirrorEnding::Stopped(stop) => write_stop(stop, cause, reasons),
        }
    }
}

/// The exit status for a stopped copy.
fn status_of(stop: &CopyStop) -> u8
    ensures { result ≡ stop_status stop.now }
{
    match stop {
        CopyStop::NotLoaded(LoadRefusal::NoMemory)
        | CopyStop::NotFetched(FetchStop::NoMemory)
        | CopyStop::NotAbsorbed(StoreRefusal::NoMemory) => 1,
        CopyStop::NotFetched(FetchStop::LinkLost) => 5,
        CopyStop::NotLoaded(LoadRefusal::KeeperFault)
        | CopyStop::NotAbsorbed(StoreRefusal::Fault) => 9,
        CopyStop::NotLoaded(LoadRefusal::BadRow { .. }) => 10,
        CopyStop::NotFetched(FetchStop::Refused(_)) => 11,
        CopyStop::NotFetched(FetchStop::TooManyPages) => 13,
        CopyStop::NotAbsorbed(StoreRefusal::DatesUsedUp) => 14,
    }
}

/// Writes why a copy stopped.
fn write_stop<S: Sink>(stop: &CopyStop, cause: FaultCause, reasons: &mut S) -> Result<(), Fault>
    ensures text { WritesWhole (stop_reason cause stop.now) (S.written reasons.old)
        (S.written reasons.new) result }
    ensures causes { Counted (IsErr result) (S.faults reasons.old) (S.faults reasons.new) }
{
    match stop {
        CopyStop::NotLoaded(LoadRefusal::NoMemory)
        | CopyStop::NotFetched(FetchStop::NoMemory)
        | CopyStop::NotAbsorbed(StoreRefusal::NoMemory) => write_no_memory(reasons),
        CopyStop::NotFetched(FetchStop::LinkLost) => write_whole(reasons, b"link lost\n"),
        CopyStop::NotLoaded(LoadRefusal::KeeperFault)
        | CopyStop::NotAbsorbed(StoreRefusal::Fault) => write_store_fault(cause.text(), reasons),
        CopyStop::NotLoaded(LoadRefusal::BadRow { after }) => write_bad_row(*after, reasons),
        CopyStop::NotFetched(FetchStop::Refused(refusal)) => write_refusal(refusal, reasons),
        CopyStop::NotFetched(FetchStop::TooManyPages) => write_whole(reasons, b"too many pages\n"),
        CopyStop::NotAbsorbed(StoreRefusal::DatesUsedUp) => {
            write_whole(reasons, b"date range is used up\n")
        }
    }
}

/// Writes the usage.
fn write_usage<S: Sink>(reasons: &mut S) -> Result<(), Fault>
    ensures text { WritesWhole
        (codes "usage: stix_mirror HOST PORT ROOT COLLECTION FILE TRIES [--since TIME]\n")
        (S.written reasons.old) (S.written reasons.new) result }
    ensures causes { Counted (IsErr result) (S.faults reasons.old) (S.faults reasons.new) }
{
    write_whole(
        reasons,
        b"usage: stix_mirror HOST PORT ROOT COLLECTION FILE TRIES [--since TIME]\n",
    )
}
