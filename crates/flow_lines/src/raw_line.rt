ghost use Rattle.std.specs.Prelude.{◌≡◌, ◌≢◌, ℕ, ◌≤◌, [], ◌⊎◌, Some, None, Ok, Err, length, IfOk};
ghost use Rattle.std.specs.Prelude.{IfErr, IfSome, OnErr, MatchBool};
ghost use Rattle.flow_edges.specs.declared.source.TheConstants.{MAX_READ};
ghost use Rattle.flow_edges.specs.Faults.{Counted};
ghost use Rattle.flow_lines.specs.Lines.{NoLineFeed, length_refusal};
ghost use Rattle.flow_lines.specs.inner.Reading.{bytes_remaining, ReadsToLineFeed, ReadsLast};
ghost use Rattle.flow_lines.specs.inner.Reading.{BreaksOffLine, IsBufferedLine, IsWithinLine};

use crate::read_buffer::ReadBuffer;
use crate::refusal::{LineRefusal, MAX_INPUT, MAX_LINE};
use flow_edges::Source;

/// The number of a line, and the offset of its first byte in the input.
#[derive(Clone, Copy)]
pub struct LineStart {
    pub number: u64,
    pub offset: u64,
}

/// The refusal of a line with `size` bytes before its line feed, if it or the input is too long.
fn refusal_for_length(start: LineStart, size: u64, terminated: bool) -> Option<LineRefusal>
    requires { start.offset ≤ MAX_INPUT }
    ensures { result ≡ length_refusal start.number start.offset size terminated }
{
    let number = start.number;
    let room = MAX_INPUT - start.offset;
    if size > MAX_LINE && room >= MAX_LINE {
        return Some(LineRefusal::LineTooLong { number });
    }
    if size > room || (terminated && size == room) {
        return Some(LineRefusal::InputTooLong { number });
    }
    None
}

/// Reads until the line is complete, and returns whether it ends with a line feed.
pub fn read_line<S: Source>(
    read_buffer: &mut ReadBuffer,
    line: &mut Vec<u8>,
    start: LineStart,
    source: &mut S,
) -> Result<bool, LineRefusal>
    requires offset { start.offset ≤ MAX_INPUT }
    requires empty { line.old.items ≡ [] }
    requires room { length read_buffer.old ≤ MAX_READ }

    ensures line { IfOk result
        (λ terminated. let all = bytes_remaining [] read_buffer.old (S.left source.old) in MatchBool
        terminated
        (ReadsToLineFeed start.number start.offset all (S.left source.new) line.new.items
        read_buffer.new)
        (ReadsLast start.number start.offset all (S.left source.new) line.new.items
        read_buffer.new)) }
    ensures refused { IfErr result
        (BreaksOffLine start.number start.offset
        (bytes_remaining [] read_buffer.old (S.left source.old)) (S.left source.new)
        line.new.items read_buffer.new) }
    ensures causes { Counted (result ≡ Err LineRefusal.Fault) (S.faults source.old)
        (S.faults source.new) }
    ensures small { length read_buffer.new ≤ MAX_READ }
    ensures unread { ¬ (NoLineFeed read_buffer.old) → source.new ≡ source.old }
    ensures in_time { NoLineFeed read_buffer.old
        → IfOk result (λ _. IfSome (S.began source.new)
        (IsWithinLine (bytes_remaining [] read_buffer.old (S.left source.old)))) }
    ensures held { IfOk result (λ terminated. ¬ (NoLineFeed read_buffer.old)
        → IsBufferedLine read_buffer.old read_buffer.new line.new.items terminated) }
{
    'reads: loop {
        let permit = read_buffer.take_line(line)?;
        let terminated = permit.is_none();
        if let Some(refusal) = refusal_for_length(start, line.len() as u64, terminated) {
            return Err(refusal);
        }
        let Some(permit) = permit else {
            return Ok(true);
        };
        match read_buffer.fill(permit, source) {
            Ok(0) => return Ok(false),
            Ok(_) => {}
            Err(_) => return Err(LineRefusal::Fault),
        }
    }
}
