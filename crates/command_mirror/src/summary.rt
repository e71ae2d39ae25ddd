ghost use Rattle.std.specs.Prelude.{OnErr, IsErr};
ghost use Rattle.flow_edges.specs.Faults.{Counted};
ghost use Rattle.flow_edges.specs.Flow.{WritesWhole, WritesPart};
ghost use Rattle.command_mirror.specs.Summary.{counts_text, mirror_summary};

use flow_edges::{Sink, write_all_vectored};
use flow_values::Fault;
use itoa::Buffer;
use taxii_client::Totals;

/// Writes the summary, as `pages 1 added 3 present 0 skipped 0` and a line feed. Allocates nothing.
pub(crate) fn write_summary<O: Sink>(totals: &Totals, output: &mut O) -> Result<(), Fault>
    ensures text { WritesWhole (mirror_summary totals.now) (O.written output.old)
        (O.written output.new) result }
    ensures part { OnErr result
        (WritesPart (mirror_summary totals.now) (O.written output.old) (O.written output.new)) }
    ensures causes { Counted (IsErr result) (O.faults output.old) (O.faults output.new) }
{
    let mut buffer = Buffer::new();
    let pages = buffer.format(totals.pages);
    let mut buffer = Buffer::new();
    let added = buffer.format(totals.added);
    let mut buffer = Buffer::new();
    let present = buffer.format(totals.present);
    let mut buffer = Buffer::new();
    let skipped = buffer.format(totals.skipped);
    write_counts(pages, added, present, skipped, output)
}

/// Writes the summary with the formatted counts.
fn write_counts<O: Sink>(
    pages: &str,
    added: &str,
    present: &str,
    skipped: &str,
    output: &mut O,
) -> Result<(), Fault>
    ensures text { WritesWhole (counts_text pages.now added.now present.now skipped.now)
        (O.written output.old) (O.written output.new) result }
    ensures part { OnErr result
        (WritesPart (counts_text pages.now added.now present.now skipped.now)
        (O.written output.old) (O.written output.new)) }
    ensures causes { Counted (IsErr result) (O.faults output.old) (O.faults output.new) }
{
    write_all_vectored(
        output,
        &[
            b"pages ",
            pages.as_bytes(),
            b" added ",
            added.as_bytes(),
            b" present ",
            present.as_bytes(),
            b" skipped ",
            skipped.as_bytes(),
            b"\n",
        ],
    )
}
