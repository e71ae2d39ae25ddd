ghost use Rattle.std.specs.Prelude.{◌≡◌, ◌≢◌, ℕ, List, Option, IfOk, IfErr, IsErr};
ghost use Rattle.flow_edges.specs.Faults.{Counted};
ghost use Rattle.flow_edges.specs.Flow.{WritesWhole};
ghost use Rattle.pattern_reader.specs.declared.pattern_refusal.PatternRefusal.TheVariants as PatternRefusal;
ghost use Rattle.flow_edges.specs.Streams.{streams};
ghost use Rattle.command_reasons.specs.Reasons.{IsRefusedPattern};
ghost use Rattle.command_show.specs.ShowEndings.{IsPatternLine, IsLineOfPattern, EndsShow};
ghost use Rattle.command_show.specs.ShowEndings.{show_status};

use command_reasons::{write_no_memory, write_pattern_reason, write_write_fault};
use flow_edges::{Sink, write_whole};
use flow_values::{Fault, Text};
use pattern_reader::reader_laws::none_refused;
use pattern_reader::{Pattern, PatternRefusal, read_pattern};
use pattern_writer::write_pattern;
use std::alloc::Global;

/// How `show` ends.
#[derive(Debug, Drop)]
pub enum ShowEnding {
    /// The canonical text was written.
    Shown,
    /// The pattern is refused.
    PatternRefused(PatternRefusal),
    /// The output failed.
    WriteFault,
    /// Memory ran out.
    NoMemory,
}

impl ShowEnding {
    ghost use Rattle.command_show.specs.ShowEndings.{IsShowReason};

    /// The program's exit status.
    pub fn status(&self) -> u8
        ensures { result ≡ show_status self.now }
    {
        match self {
            ShowEnding::Shown => 0,
            ShowEnding::NoMemory => 1,
            ShowEnding::PatternRefused(_) => 3,
            ShowEnding::WriteFault => 6,
        }
    }

    /// Writes why the command ends. Allocates nothing.
    pub fn write_reason<S: Sink>(&self, reasons: &mut S) -> Result<(), Fault>
        ensures text { (text : List ℕ) × IsShowReason self.now text
            × WritesWhole text (S.written reasons.old) (S.written reasons.new) result }
        ensures causes { Counted (IsErr result) (S.faults reasons.old) (S.faults reasons.new) }
    {
        match self {
            ShowEnding::Shown => write_whole(reasons, b""),
            ShowEnding::NoMemory => write_no_memory(reasons),
            ShowEnding::PatternRefused(refusal) => write_pattern_reason(refusal, reasons),
            ShowEnding::WriteFault => write_write_fault(reasons),
        }
    }
}

/// The command `show`: writes the canonical text of a pattern and a line feed.
pub fn show<O: Sink>(alloc: Global, pattern: &str, output: &mut O) -> ShowEnding
    ensures end { (left began : Option (List ℕ))
        → EndsShow pattern.now (streams left began (O.written output.old))
        (streams left began (O.written output.new)) result }
    ensures untouched { show_status result ≡ 3 → output.new ≡ output.old }
    ensures output { Counted (show_status result ≡ 6) (O.faults output.old) (O.faults output.new) }
{
    let line = match canonical_line(alloc, pattern) {
        Ok(line) => line,
        Err(PatternRefusal::NoMemory) => return ShowEnding::NoMemory,
        Err(refusal) => return ShowEnding::PatternRefused(refusal),
    };
    match write_whole(output, line.as_str().as_bytes()) {
        Ok(()) => ShowEnding::Shown,
        Err(_) => ShowEnding::WriteFault,
    }
}

/// The canonical text of a pattern and a line feed.
fn canonical_line(alloc: Global, pattern: &str) -> Result<Text, PatternRefusal>
    ensures ok { IfOk result (IsPatternLine pattern.now) }
    ensures err { IfErr result (λ refusal. refusal ≢ PatternRefusal.NoMemory
        → IsRefusedPattern pattern.now refusal) }
{
    none_refused();
    match read_pattern(alloc, pattern) {
        Ok(read) => {
            let line = line_of(alloc, &read);
            drop(read);
            line
        }
        Err(refusal) => Err(refusal),
    }
}

/// The line of a parsed pattern.
fn line_of(alloc: Global, pattern: &Pattern) -> Result<Text, PatternRefusal>
    ensures ok { IfOk result (IsLineOfPattern pattern.now) }
    ensures err { IfErr result (λ refusal. refusal ≡ PatternRefusal.NoMemory) }
{
    let mut text = write_pattern(alloc, pattern)?;
    text.push("\n")?;
    Ok(text)
}
