ghost use Rattle.std.specs.Prelude.{◌≡◌, ◌≢◌, ◌≤◌, Err, Ok, None, IfOk, IfSome};
ghost use Rattle.flow_edges.specs.Faults.{Counted};
ghost use Rattle.flow_edges.specs.Flow.{IsAtEnd};
ghost use Rattle.match_input.specs.Ahead.{IsOpen, HoldsLines, LacksLineIn};
ghost use Rattle.match_input.specs.inner.Turn.{AnswersTurn};

use crate::{InputRule, ReadEnd};
use flow_edges::Source;
use flow_lines::{InputRefusal, Line, LineRefusal, Lines, read_whole};
use std::alloc::Global;

/// How far an input is read.
#[derive(Drop)]
pub enum Stage {
    /// Lines are read in turn.
    Lines(Lines),
    /// The whole input is still to be read.
    Whole,
    /// Nothing is left.
    AtEnd,
    /// A line was refused, a read failed, or memory ran out.
    Ended,
}

impl Stage {
    /// The next line that isn't blank; in `Mode::Whole` the whole input as line 1. None at the end.
    pub(crate) fn next_line<S: Source>(
        &mut self,
        alloc: Global,
        source: &mut S,
    ) -> Result<Option<Line>, ReadEnd>
        ensures lines { IsOpen self.old
            → AnswersTurn self.old self.new (S.left source.old) (S.left source.new) result }
        ensures unread { HoldsLines self.old → source.new ≡ source.old }
        ensures in_time { IsOpen self.old → ¬ (HoldsLines self.old)
            → IfOk result (λ found. IfSome found (λ line.
            IfSome (S.began source.new) (LacksLineIn self.old line.number (S.left source.old)))) }
        ensures at_end { self.old ≡ Stage.AtEnd → (result ≡ Ok None) × (self.new ≡ self.old)
            × (source.new ≡ source.old) }
        ensures ended { self.old ≡ Stage.Ended → (result ≡ Err ReadEnd.Ended)
            × (self.new ≡ self.old) × (source.new ≡ source.old) }
        ensures causes { Counted (IsOpen self.old × (result ≡ Err ReadEnd.ReadFault))
            (S.faults source.old) (S.faults source.new) }
    {
        let line = match self {
            Stage::Lines(lines) => match lines.next_line(source) {
                Ok(line) => line,
                Err(refusal) => return Err(ReadEnd::from(refusal)),
            },
            Stage::Whole => whole_line(alloc, source)?,
            Stage::AtEnd => return Ok(None),
            Stage::Ended => return Err(ReadEnd::Ended),
        };
        if line.is_none() || matches!(self, Stage::Whole) {
            *self = Stage::AtEnd;
        }
        Ok(line)
    }
}

/// The whole input as line 1.
fn whole_line<S: Source>(alloc: Global, source: &mut S) -> Result<Option<Line>, ReadEnd>
    ensures lines { AnswersTurn Stage.Whole Stage.AtEnd (S.left source.old)
        (S.left source.new) result }
    ensures to_end { IfOk result (λ _. IsAtEnd (S.began source.new)) }
    ensures causes { Counted (result ≡ Err ReadEnd.ReadFault) (S.faults source.old)
        (S.faults source.new) }
{
    let bytes = read_whole(alloc, source)?;
    Ok(Some(Line { number: 1, bytes }))
}

impl From<LineRefusal> for ReadEnd {
    ghost use Rattle.match_input.specs.inner.Turn.{refused_read_end};

    ghost from_gives = { λ refusal end. end ≡ refused_read_end refusal };

    fn from(refusal: LineRefusal) -> ReadEnd {
        match refusal {
            LineRefusal::Fault => ReadEnd::ReadFault,
            LineRefusal::LineTooLong { number } => ReadEnd::Input {
                line: number,
                rule: InputRule::LineTooLong,
            },
            LineRefusal::InputTooLong { number } => ReadEnd::Input {
                line: number,
                rule: InputRule::InputTooLong,
            },
            LineRefusal::NoMemory => ReadEnd::NoMemory,
        }
    }
}

impl From<InputRefusal> for ReadEnd {
    ghost use Rattle.match_input.specs.inner.Turn.{end_of_whole};

    ghost from_gives = { λ refusal end. end ≡ end_of_whole refusal };

    fn from(refusal: InputRefusal) -> ReadEnd {
        match refusal {
            InputRefusal::Fault => ReadEnd::ReadFault,
            InputRefusal::TooLong => ReadEnd::Input {
                line: 1,
                rule: InputRule::InputTooLong,
            },
            InputRefusal::NoMemory => ReadEnd::NoMemory,
        }
    }
}
