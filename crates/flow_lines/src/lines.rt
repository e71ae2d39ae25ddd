ghost use Rattle.std.specs.Prelude.{◌≡◌, ◌≢◌, ℕ, ◌≤◌, [], None, Some, Err, IfOk, IfErr, IfSome};
ghost use Rattle.std.specs.Result.{result_err};
ghost use Rattle.flow_edges.specs.Faults.{Counted};

use crate::cursor::Cursor;
use crate::line::Line;
use crate::read_buffer::ReadBuffer;
use crate::refusal::LineRefusal;
use flow_edges::Source;
use flow_values::NoMemory;
use std::alloc::Global;
use std::marker::Model;

/// A reader of the lines of an input. Its value in contracts is the bytes buffered, the number of
/// lines returned, their length in bytes, and the refusal, if any.
#[derive(Drop)]
pub struct Lines {
    cursor: Cursor,
    refusal: Option<LineRefusal>,
}

impl Model for Lines {
    ghost use Rattle.std.specs.Prelude.{◌≡◌, ◌++◌, ◌≤◌, None};
    ghost use Rattle.flow_lines.specs.Lines.{LinesState, GivesLine};
    ghost use Rattle.flow_lines.specs.inner.Reading.{IsBetweenLines};

    ghost Value = { LinesState };

    ghost view = { λ lines. record {
      held = lines.cursor.line.items ++ lines.cursor.read_buffer;
      count = lines.cursor.count;
      given = lines.cursor.given;
      refusal = lines.refusal;
    } };

    ghost invariant = { λ lines. lines.refusal ≡ None
        → IsBetweenLines lines.cursor.line.items lines.cursor.read_buffer lines.cursor.count
        lines.cursor.given };
}

impl Lines {
    ghost use Rattle.flow_lines.specs.Lines.{lines_start, AnswersLine, LosesNone, StopsInLine};
    ghost use Rattle.flow_lines.specs.Lines.{HoldsLine, LacksLine};

    /// A reader at the start of an input.
    pub fn new(alloc: Global) -> Result<Lines, NoMemory>
        ensures { IfOk result (λ lines. lines ≡ lines_start) }
    {
        let read_buffer = ReadBuffer::new(alloc)?;
        Ok(Lines {
            cursor: Cursor {
                alloc,
                read_buffer,
                line: Vec::new(alloc),
                count: 0,
                given: 0,
            },
            refusal: None,
        })
    }

    /// The next line that isn't blank, or `None` at the end of the input.
    ///
    /// Reads only if the buffer has no complete line. So the last read for a line begins before the
    /// line is complete. A refused line takes from the source no more than the longest line and one
    /// read. Later calls repeat the refusal without a read.
    pub fn next_line<S: Source>(&mut self, source: &mut S) -> Result<Option<Line>, LineRefusal>
        ensures lines { self.old.refusal ≡ None
            → AnswersLine self.old self.new (S.left source.old) (S.left source.new) result }
        ensures accounted { self.old.refusal ≡ None
            → LosesNone self.old self.new (S.left source.old) (S.left source.new) result }
        ensures stops { self.old.refusal ≡ None
            → IfErr result (StopsInLine self.old (S.left source.old) (S.left source.new)) }
        // A complete line in the buffer is returned without a read.
        ensures unread { HoldsLine self.old.held → source.new ≡ source.old }
        // When the last read began, the line was not complete yet: no read is made in advance.
        ensures in_time { self.old.refusal ≡ None → ¬ (HoldsLine self.old.held)
            → IfOk result (λ found. IfSome found (λ line.
            IfSome (S.began source.new) (LacksLine self.old line.number (S.left source.old)))) }
        ensures refusal { self.new.refusal ≡ result_err result }
        // A refusal is final.
        ensures repeated { IfSome self.old.refusal (λ refusal.
            (result ≡ Err refusal) × (self.new ≡ self.old) × (source.new ≡ source.old)) }
        ensures causes { Counted ((self.old.refusal ≡ None) × (result ≡ Err LineRefusal.Fault))
            (S.faults source.old) (S.faults source.new) }
    {
        if let Some(refusal) = self.refusal {
            return Err(refusal);
        }
        match self.cursor.next_line(source) {
            Ok(line) => Ok(line),
            Err(refusal) => {
                self.refusal = Some(refusal);
                Err(refusal)
            }
        }
    }
}
