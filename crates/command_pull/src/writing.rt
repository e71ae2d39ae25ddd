ghost use Rattle.std.specs.Prelude.{◌≡◌, ◌++◌, [], ℕ, List, Option, IfOk, OnOk, OnErr, All, Err};
ghost use Rattle.flow_edges.specs.Faults.{Counted};
ghost use Rattle.flow_edges.specs.Flow.{written_with, WritesPrefix};
ghost use Rattle.match_run.specs.Buffered.{IsBuffered};
ghost use Rattle.taxii_client.specs.Telling.{line_of, told_of, bad_in, IsWritableEntry};

use flow_edges::Sink;
use flow_values::{NoMemory, Text};
use match_run::watch_laws::parts_are_buffered;
use match_run::{CutShort, Pending};
use std::alloc::Global;
use stix_json::{Entry, write_json};

/// The number of invalid entries of a page.
pub(crate) fn count_bad(entries: &[Entry]) -> usize
    ensures { result ≡ bad_in entries.now }
{
    entries
        .iter()
        .filter(|entry| matches!(entry, Entry::Bad(_)))
        .count()
}

/// Writes a line for each valid entry of a page.
pub(crate) fn write_page<O: Sink>(
    alloc: Global,
    entries: &[Entry],
    output: &mut O,
) -> Result<(), CutShort>
    requires { All IsWritableEntry entries.now }
    ensures ok { OnOk result
        (O.written output.new ≡ written_with (told_of entries.now) (O.written output.old)) }
    ensures err { OnErr result
        (WritesPrefix (told_of entries.now) (O.written output.old) (O.written output.new)) }
    ensures causes { Counted (result ≡ Err CutShort.WriteFault) (O.faults output.old)
        (O.faults output.new) }
{
    let mut pending = Pending::new(alloc);
    add_page(alloc, entries, &mut pending, output)?;
    pending.write(output)?;
    Ok(())
}

/// Appends a line for each valid entry of a page to the pending output.
fn add_page<O: Sink>(
    alloc: Global,
    entries: &[Entry],
    pending: &mut Pending,
    output: &mut O,
) -> Result<(), CutShort>
    requires ordered { All IsWritableEntry entries.now }
    requires empty { pending.old ≡ [] }
    ensures ok { OnOk result
        (IsBuffered (told_of entries.now) pending.new (O.written output.old)
        (O.written output.new)) }
    ensures err { OnErr result
        (WritesPrefix (told_of entries.now) (O.written output.old) (O.written output.new)) }
    ensures causes { Counted (result ≡ Err CutShort.WriteFault) (O.faults output.old)
        (O.faults output.new) }
{
    parts_are_buffered();
    for entry in entries {
        add_entry(alloc, entry, pending, output)?;
    }
    Ok(())
}

/// Appends the line of an entry to the pending output.
fn add_entry<O: Sink>(
    alloc: Global,
    entry: &Entry,
    pending: &mut Pending,
    output: &mut O,
) -> Result<(), CutShort>
    requires { IsWritableEntry entry.now }
    ensures ok { (before : List ℕ) (first : Option (List ℕ))
        → IsBuffered before pending.old first (O.written output.old)
        → OnOk result (IsBuffered (before ++ line_of entry.now) pending.new first
        (O.written output.new)) }
    ensures err { (before : List ℕ) (first : Option (List ℕ))
        → IsBuffered before pending.old first (O.written output.old)
        → OnErr result (WritesPrefix (before ++ line_of entry.now) first (O.written output.new)) }
    ensures causes { Counted (result ≡ Err CutShort.WriteFault) (O.faults output.old)
        (O.faults output.new) }
{
    parts_are_buffered();
    let line = text_of(alloc, entry)?;
    pending.add(line.as_str().as_bytes(), output)
}

/// The line of a valid entry, or an empty text.
fn text_of(alloc: Global, entry: &Entry) -> Result<Text, NoMemory>
    requires { IsWritableEntry entry.now }
    ensures { IfOk result (λ line. line ≡ line_of entry.now) }
{
    match entry {
        Entry::Good(json) => {
            let mut line = write_json(alloc, json)?;
            line.push("\n")?;
            Ok(line)
        }
        Entry::Bad(_) => Ok(Text::new(alloc)),
    }
}
