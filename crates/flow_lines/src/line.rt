ghost use Rattle.std.specs.Prelude.{◌≡◌};
ghost use Rattle.flow_lines.specs.Lines.{content, is_blank_text};

use flow_values::Items;

/// A line of an input, without its line feed and the carriage return before it.
#[derive(Debug, Drop)]
pub struct Line {
    /// The line number, from 1, counting blank lines too.
    pub number: u64,
    /// The bytes of the line.
    pub bytes: Items<u8>,
}

/// Drops one carriage return at the end of a line, where a line feed followed.
pub fn strip_return(line: &mut Vec<u8>, terminated: bool)
    ensures { line.new.items
        ≡ content (record { bytes = line.old.items; terminated = terminated }) }
{
    if terminated && line.last() == Some(&b'\r') {
        line.pop();
    }
}

/// Whether a line holds only spaces, tabs and carriage returns.
pub fn is_blank_line(line: &[u8]) -> bool
    ensures { result ≡ is_blank_text line.now }
{
    line.iter().all(|byte| matches!(byte, b' ' | b'\t' | b'\r'))
}
