ghost use Rattle.std.specs.Prelude.{◌≡◌, ◌≢◌, ℕ, ◌≤◌, ◌+◌, ◌++◌, [], true, false, Ok, Err, IfOk};
ghost use Rattle.std.specs.Prelude.{IfErr, IfSome, OnOk, MatchBool};
ghost use Rattle.flow_edges.specs.Faults.{Counted};
ghost use Rattle.flow_lines.specs.Lines.{AnswersLine, HoldsLine, LosesNone, StopsInLine, LacksLine};
ghost use Rattle.flow_lines.specs.Lines.{NoLineFeed, is_blank_text};
ghost use Rattle.flow_lines.specs.inner.Reading.{IsBetweenLines, ReadsOrEnds, StopsReading};
ghost use Rattle.flow_lines.specs.inner.Reading.{lines_state};

use crate::line::{Line, is_blank_line, strip_return};
use crate::raw_line::{LineStart, read_line};
use crate::read_buffer::ReadBuffer;
use crate::refusal::LineRefusal;
use flow_edges::Source;
use flow_values::{Items, NoMemory};
use std::alloc::Global;
use std::mem;

/// The position of a reader in its input.
#[derive(Drop)]
pub struct Cursor {
    pub alloc: Global,
    pub read_buffer: ReadBuffer,
    /// The bytes of the current line.
    pub line: Vec<u8>,
    /// The number of lines read, blank ones included.
    pub count: u64,
    /// The number of bytes of these lines.
    pub given: u64,
}

impl Cursor {
    /// Reads the next line, blank or not, without its line feed and the carriage return before it.
    /// Returns false at the end of the input.
    fn read_next<S: Source>(&mut self, source: &mut S) -> Result<bool, LineRefusal>
        requires { IsBetweenLines self.old.line.items self.old.read_buffer self.old.count
            self.old.given }

        ensures next { IfOk result
            (ReadsOrEnds self.old.line.items self.old.read_buffer self.new.line.items
            self.new.read_buffer
            self.old.count self.new.count self.old.given self.new.given (S.left source.old)
            (S.left source.new)) }
        ensures refused { IfErr result (StopsReading
            (lines_state self.old.line.items self.old.read_buffer self.old.count self.old.given)
            (lines_state self.new.line.items self.new.read_buffer self.new.count self.new.given)
            (S.left source.old) (S.left source.new)) }
        // A buffered line is returned without a read.
        ensures unread { HoldsLine self.old.read_buffer → source.new ≡ source.old }
        ensures in_time { NoLineFeed self.old.read_buffer
            → IfOk result (λ _. IfSome (S.began source.new)
            (LacksLine (lines_state self.old.line.items self.old.read_buffer self.old.count
            self.old.given) (self.old.count + 1) (S.left source.old))) }
        // After a blank line, a buffered line is still in the buffer: the loop of `next_line` needs
        // this.
        ensures held { IfOk result (λ found. found ≡ true
            → HoldsLine self.old.read_buffer → is_blank_text self.new.line.items ≡ true
            → HoldsLine self.new.read_buffer) }
        ensures there { ¬ (NoLineFeed self.old.read_buffer) → result ≡ Ok true
            → (source.new ≡ source.old)
            × (HoldsLine self.new.read_buffer → HoldsLine self.old.read_buffer)
            × (is_blank_text self.new.line.items ≡ false → HoldsLine self.old.read_buffer) }
        ensures causes { Counted (result ≡ Err LineRefusal.Fault) (S.faults source.old)
            (S.faults source.new) }
    {
        let start = LineStart {
            number: self.count + 1,
            offset: self.given,
        };
        let terminated = read_line(&mut self.read_buffer, &mut self.line, start, source)?;
        let width = self.line.len() as u64 + u64::from(terminated);
        if width == 0 {
            return Ok(false);
        }
        self.count += 1;
        self.given += width;
        strip_return(&mut self.line, terminated);
        Ok(true)
    }

    /// Reads to the end of the next line that isn't blank.
    pub fn next_line<S: Source>(&mut self, source: &mut S) -> Result<Option<Line>, LineRefusal>
        requires { IsBetweenLines self.old.line.items self.old.read_buffer self.old.count
            self.old.given }

        ensures lines { AnswersLine
            (lines_state self.old.line.items self.old.read_buffer self.old.count self.old.given)
            (lines_state self.new.line.items self.new.read_buffer self.new.count self.new.given)
            (S.left source.old) (S.left source.new) result }
        ensures between { OnOk result
            (IsBetweenLines self.new.line.items self.new.read_buffer self.new.count
            self.new.given) }
        ensures accounted { LosesNone
            (lines_state self.old.line.items self.old.read_buffer self.old.count self.old.given)
            (lines_state self.new.line.items self.new.read_buffer self.new.count self.new.given)
            (S.left source.old) (S.left source.new) result }
        ensures stops { IfErr result (StopsInLine
            (lines_state self.old.line.items self.old.read_buffer self.old.count self.old.given)
            (S.left source.old) (S.left source.new)) }
        ensures unread { HoldsLine (self.old.line.items ++ self.old.read_buffer)
            → source.new ≡ source.old }
        ensures in_time { ¬ (HoldsLine (self.old.line.items ++ self.old.read_buffer))
            → IfOk result (λ found. IfSome found (λ line.
            IfSome (S.began source.new)
            (LacksLine (lines_state self.old.line.items self.old.read_buffer self.old.count
            self.old.given)
            line.number (S.left source.old)))) }
        ensures causes { Counted (result ≡ Err LineRefusal.Fault) (S.faults source.old)
            (S.faults source.new) }
    {
        'lines: loop {
            if !self.read_next(source)? {
                return Ok(None);
            }
            if !is_blank_line(&self.line) {
                let bytes = mem::replace(&mut self.line, Vec::new(self.alloc));
                return Ok(Some(Line {
                    number: self.count,
                    bytes: Items::from_vec(bytes),
                }));
            }
            self.line.clear();
        }
    }
}
