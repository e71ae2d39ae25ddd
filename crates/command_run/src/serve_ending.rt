ghost use Rattle.std.specs.Prelude.{◌≡◌, IsErr};

use command_reasons::{write_bad_row, write_no_memory, write_store_fault, write_write_fault};
use flow_edges::{Sink, write_whole};
use flow_values::Fault;
use taxii_rows::FaultCause;
use taxii_server::Served;
use taxii_store::LoadRefusal;

/// How a `serve` ends.
#[derive(Clone, Copy, Debug, PartialEq, Eq)]
pub enum ServeEnding {
    /// Clients were served, and writing the summary failed.
    Done(Served),
    /// Memory ran out before the door was opened.
    NoMemory,
    /// Clients were served, and writing the summary failed.
    WriteFault,
    /// The door failed. The clients before that were served.
    DoorFault,
    /// The store failed while it was read, before the door was opened.
    StoreFault(FaultCause),
    /// The row after this date is bad, or the watermark after the last row.
    BadRow {
        /// In microseconds since 1970; 0 for the first row.
        after: u64,
    },
}

impl ServeEnding {
    ghost use Rattle.flow_edges.specs.Faults.{Counted};
    ghost use Rattle.flow_edges.specs.Flow.{WritesWhole};
    ghost use Rattle.command_run.specs.ServeEndings.{serve_status, serve_reason, load_ending};

    /// The program's exit status.
    pub fn status(self) -> u8
        ensures { result ≡ serve_status self }
    {
        match self {
            ServeEnding::Done(_) => 0,
            ServeEnding::NoMemory => 1,
            ServeEnding::WriteFault => 6,
            ServeEnding::DoorFault => 8,
            ServeEnding::StoreFault(_) => 9,
            ServeEnding::BadRow { .. } => 10,
        }
    }

    /// Writes why the command ends. Allocates nothing.
    pub fn write_reason<S: Sink>(self, reasons: &mut S) -> Result<(), Fault>
        ensures text { WritesWhole (serve_reason self) (S.written reasons.old)
            (S.written reasons.new) result }
        ensures causes { Counted (IsErr result) (S.faults reasons.old) (S.faults reasons.new) }
    {
        match self {
            ServeEnding::Done(_) => write_whole(reasons, b""),
            ServeEnding::NoMemory => write_no_memory(reasons),
            ServeEnding::WriteFault => write_write_fault(reasons),
            ServeEnding::DoorFault => write_whole(reasons, b"door fault\n"),
            ServeEnding::StoreFault(cause) => write_store_fault(cause.text(), reasons),
            ServeEnding::BadRow { after } => write_bad_row(after, reasons),
        }
    }

    /// The end of a `serve` whose rows cannot be loaded; `cause` is that of the keeper's last
    /// fault.
    pub(crate) fn of_refusal(refusal: LoadRefusal, cause: FaultCause) -> ServeEnding
        ensures { result ≡ load_ending cause refusal }
    {
        match refusal {
            LoadRefusal::KeeperFault => ServeEnding::StoreFault(cause),
            LoadRefusal::BadRow { after } => ServeEnding::BadRow { after },
            LoadRefusal::NoMemory => ServeEnding::NoMemory,
        }
    }
}
