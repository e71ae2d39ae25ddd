//! A write buffer for the lines of bindings.

ghost use Rattle.std.specs.Prelude.{◌≡◌, ◌⊎◌, ◌++◌, [], ℕ, List, Option, Err, map, IfErr, OnOk};
ghost use Rattle.std.specs.Prelude.{OnErr};
ghost use Rattle.flow_edges.specs.Faults.{Counted};
ghost use Rattle.flow_edges.specs.Flow.{written_with, WritesPrefix};
ghost use Rattle.match_bindings.specs.BindTree.{tree_of};
ghost use Rattle.match_bindings.specs.Line.{line_text};
ghost use Rattle.match_run.specs.Listing.{listing_text};
ghost use Rattle.match_run.specs.inner.MatchEnds.{CutsLines};
ghost use Rattle.match_run.specs.inner.Rows.{IsPartBuffered};

use crate::MatchEnd;
use flow_edges::{Sink, write_whole};
use flow_values::NoMemory;
use match_bindings::{Bind, line_of};
use std::alloc::Global;

/// How many bytes are buffered before they are written.
const PIECE: usize = 65_536;

/// Appends the line of each binding to the buffer, and writes the buffer whenever it is full.
pub(crate) fn add_lines<O: Sink>(
    alloc: Global,
    binds: &[Bind],
    pending: &mut Vec<u8>,
    output: &mut O,
) -> Result<(), MatchEnd>
    ensures ok { (text : List ℕ) (first : Option (List ℕ))
        → IsPartBuffered text pending.old.items first (O.written output.old)
        → OnOk result (IsPartBuffered (text ++ listing_text
        (map tree_of binds.now)) pending.new.items
        first (O.written output.new)) }
    ensures err { (text : List ℕ) (first : Option (List ℕ))
        → IsPartBuffered text pending.old.items first (O.written output.old)
        → OnErr result (WritesPrefix (text ++ listing_text (map tree_of binds.now)) first
        (O.written output.new)) }
    ensures end { IfErr result CutsLines }
    ensures causes { Counted (result ≡ Err MatchEnd.WriteFault) (O.faults output.old)
        (O.faults output.new) }
{
    for bind in binds {
        add_line(alloc, bind, pending, output)?;
    }
    Ok(())
}

/// Appends the line of one binding.
fn add_line<O: Sink>(
    alloc: Global,
    bind: &Bind,
    pending: &mut Vec<u8>,
    output: &mut O,
) -> Result<(), MatchEnd>
    ensures ok { (text : List ℕ) (first : Option (List ℕ))
        → IsPartBuffered text pending.old.items first (O.written output.old)
        → OnOk result (IsPartBuffered (text ++ line_text (tree_of bind.now)) pending.new.items first
        (O.written output.new)) }
    ensures err { (text : List ℕ) (first : Option (List ℕ))
        → IsPartBuffered text pending.old.items first (O.written output.old)
        → OnErr result (WritesPrefix (text ++ line_text (tree_of bind.now)) first
        (O.written output.new)) }
    ensures end { IfErr result CutsLines }
    ensures causes { Counted (result ≡ Err MatchEnd.WriteFault) (O.faults output.old)
        (O.faults output.new) }
{
    push_line(alloc, bind, pending)?;
    if pending.len() < PIECE {
        return Ok(());
    }
    write_pending(pending, output)
}

/// Appends a line to the buffer.
fn push_line(alloc: Global, bind: &Bind, pending: &mut Vec<u8>) -> Result<(), NoMemory>
    ensures { OnOk result (pending.new.items ≡ pending.old.items ++ line_text (tree_of bind.now)) }
{
    let line = line_of(alloc, bind)?;
    pending.extend_from_slice(line.as_str().as_bytes())?;
    Ok(())
}

/// Writes the buffer.
pub(crate) fn write_pending<O: Sink>(pending: &mut Vec<u8>, output: &mut O) -> Result<(), MatchEnd>
    ensures ok { OnOk result ((pending.new.items ≡ [])
        × (O.written output.new ≡ written_with pending.old.items (O.written output.old))) }
    ensures err { OnErr result (WritesPrefix pending.old.items (O.written output.old)
        (O.written output.new)) }
    ensures end { IfErr result (λ end. end ≡ MatchEnd.WriteFault) }
    ensures causes { Counted (result ≡ Err MatchEnd.WriteFault) (O.faults output.old)
        (O.faults output.new) }
{
    match write_whole(output, pending) {
        Ok(()) => {
            pending.clear();
            Ok(())
        }
        Err(_) => Err(MatchEnd::WriteFault),
    }
}
