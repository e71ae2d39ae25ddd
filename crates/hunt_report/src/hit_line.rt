//! The lines of hits, buffered.

ghost use Rattle.std.specs.Prelude.{◌≡◌, ◌<◌, ◌++◌, ℕ, List, Option, Some, All, Err, length, IfOk};
ghost use Rattle.std.specs.Prelude.{OnOk, OnErr, string_bytes};
ghost use Rattle.flow_edges.specs.Faults.{Counted};
ghost use Rattle.flow_edges.specs.Flow.{WritesPrefix};
ghost use Rattle.stix_ids.specs.Kind.{IsKind};
ghost use Rattle.match_bindings.specs.BindTree.{tree_of};
ghost use Rattle.match_run.specs.Buffered.{IsBuffered};
ghost use Rattle.match_run.specs.declared.cut_short.CutShort.TheVariants as cut;
ghost use Rattle.hunt_report.specs.Lines.{line_for, hit_line, hits_text};

use flow_edges::Sink;
use flow_values::NoMemory;
use hunt_engine::Hit;
use hunt_feed::Hunted;
use match_bindings::{Bind, line_of};
use match_run::watch_laws::parts_are_buffered;
use match_run::{CutShort, Pending};
use std::alloc::Global;
use stix_ids::write_id;

/// Appends the line of each hit to the buffer, and writes the buffer whenever it is full.
pub(crate) fn add_hits<O: Sink>(
    alloc: Global,
    hunted: &[Hunted],
    hits: &[Hit],
    pending: &mut Pending,
    output: &mut O,
) -> Result<(), CutShort>
    requires kinds { All (λ h. IsKind h.id.kind) hunted.now }
    requires inside { All (λ hit. hit.hunted < length hunted.now) hits.now }
    ensures ok { (before : List ℕ) (first : Option (List ℕ))
        → IsBuffered before pending.old first (O.written output.old)
        → OnOk result (IsBuffered (before ++ hits_text hunted.now hits.now) pending.new first
        (O.written output.new)) }
    ensures err { (before : List ℕ) (first : Option (List ℕ))
        → IsBuffered before pending.old first (O.written output.old)
        → OnErr result (WritesPrefix (before ++ hits_text hunted.now hits.now) first
        (O.written output.new)) }
    ensures causes { Counted (result ≡ Err CutShort.WriteFault) (O.faults output.old)
        (O.faults output.new) }
{
    for hit in hits {
        add_hit(alloc, hunted, hit, pending, output)?;
    }
    Ok(())
}

/// Appends the line of one hit.
fn add_hit<O: Sink>(
    alloc: Global,
    hunted: &[Hunted],
    hit: &Hit,
    pending: &mut Pending,
    output: &mut O,
) -> Result<(), CutShort>
    requires kinds { All (λ h. IsKind h.id.kind) hunted.now }
    requires inside { hit.now.hunted < length hunted.now }
    ensures ok { (before : List ℕ) (first : Option (List ℕ))
        → IsBuffered before pending.old first (O.written output.old)
        → OnOk result (IsBuffered (before ++ hit_line hunted.now hit.now) pending.new first
        (O.written output.new)) }
    ensures err { (before : List ℕ) (first : Option (List ℕ))
        → IsBuffered before pending.old first (O.written output.old)
        → OnErr result (WritesPrefix (before ++ hit_line hunted.now hit.now) first
        (O.written output.new)) }
    ensures causes { Counted (result ≡ Err CutShort.WriteFault) (O.faults output.old)
        (O.faults output.new) }
{
    parts_are_buffered();
    let place = hit.hunted as usize;
    let line = hit_line(alloc, &hunted[place], &hit.bind)?;
    pending.add(line.as_str().as_bytes(), output)?;
    Ok(())
}

/// The line of a hit: the indicator's identifier, a space, and the line of the binding.
fn hit_line(alloc: Global, indicator: &Hunted, bind: &Bind) -> Result<String, NoMemory>
    requires { IsKind indicator.now.id.kind }
    ensures { IfOk result (λ line. string_bytes line
        ≡ line_for (Some indicator.now) (tree_of bind.now)) }
{
    let id = write_id(alloc, &indicator.id)?;
    let binding = line_of(alloc, bind)?;
    let mut line = String::with_capacity(alloc, id.as_str().len() + 1 + binding.as_str().len())?;
    line.push_str(id.as_str())?;
    line.push_str(" ")?;
    line.push_str(binding.as_str())?;
    Ok(line)
}
