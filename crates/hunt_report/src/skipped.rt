//! The lines of skipped indicators.

ghost use Rattle.std.specs.Prelude.{◌≡◌, ◌++◌, ℕ, List, Option, Err, All, IfOk, OnOk, OnErr};
ghost use Rattle.std.specs.Prelude.{string_bytes};
ghost use Rattle.flow_edges.specs.Faults.{Counted};
ghost use Rattle.flow_edges.specs.Flow.{written_with, WritesPrefix};
ghost use Rattle.stix_ids.specs.Kind.{IsKind};
ghost use Rattle.match_run.specs.Buffered.{IsBuffered};
ghost use Rattle.match_run.specs.declared.cut_short.CutShort.TheVariants as cut;
ghost use Rattle.hunt_report.specs.Lines.{skipped_line, skipped_lines};

use flow_edges::Sink;
use flow_values::NoMemory;
use hunt_feed::Skipped;
use match_run::watch_laws::parts_are_buffered;
use match_run::{CutShort, Pending};
use std::alloc::Global;
use stix_ids::write_id;

/// Writes a line for each skipped indicator: its identifier, and why its pattern doesn't parse.
/// After an `Err` a prefix of the lines was written.
pub fn write_skipped<O: Sink>(
    alloc: Global,
    skipped: &[Skipped],
    output: &mut O,
) -> Result<(), CutShort>
    requires { All (λ s. IsKind s.id.kind) skipped.now }
    ensures ok { OnOk result (O.written output.new
        ≡ written_with (skipped_lines skipped.now) (O.written output.old)) }
    ensures err { OnErr result (WritesPrefix (skipped_lines skipped.now) (O.written output.old)
        (O.written output.new)) }
    ensures causes { Counted (result ≡ Err CutShort.WriteFault) (O.faults output.old)
        (O.faults output.new) }
{
    parts_are_buffered();
    let mut pending = Pending::new(alloc);
    for indicator in skipped {
        add_skipped(alloc, indicator, &mut pending, output)?;
    }
    pending.write(output)?;
    Ok(())
}

/// Appends the line of one skipped indicator.
fn add_skipped<O: Sink>(
    alloc: Global,
    skipped: &Skipped,
    pending: &mut Pending,
    output: &mut O,
) -> Result<(), CutShort>
    requires { IsKind skipped.now.id.kind }
    ensures ok { (before : List ℕ) (first : Option (List ℕ))
        → IsBuffered before pending.old first (O.written output.old)
        → OnOk result (IsBuffered (before ++ skipped_line skipped.now) pending.new first
        (O.written output.new)) }
    ensures err { (before : List ℕ) (first : Option (List ℕ))
        → IsBuffered before pending.old first (O.written output.old)
        → OnErr result (WritesPrefix (before ++ skipped_line skipped.now) first
        (O.written output.new)) }
    ensures causes { Counted (result ≡ Err CutShort.WriteFault) (O.faults output.old)
        (O.faults output.new) }
{
    parts_are_buffered();
    let line = skipped_line(alloc, skipped)?;
    pending.add(line.as_str().as_bytes(), output)?;
    Ok(())
}

/// The line of a skipped indicator.
fn skipped_line(alloc: Global, skipped: &Skipped) -> Result<String, NoMemory>
    requires { IsKind skipped.now.id.kind }
    ensures { IfOk result (λ line. string_bytes line ≡ skipped_line skipped.now) }
{
    let id = write_id(alloc, &skipped.id)?;
    let id = id.as_str();
    let refusal = skipped.refusal;
    Ok(format!(in alloc; "skipped {id}: {refusal}\n")?)
}
