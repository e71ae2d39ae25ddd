ghost use Rattle.std.specs.Prelude.{◌≡◌, ◌≢◌, ◌+◌, ◌≤◌, ◌<◌, ◌^◌, None, Ok, Err, IfOk, IfSome};
ghost use Rattle.std.specs.Prelude.{OnOk, length};
ghost use Rattle.flow_edges.specs.Faults.{Counted};
ghost use Rattle.match_input.specs.Line.{last_after};
ghost use Rattle.match_input.specs.Ahead.{IsOpen, HoldsLines, LacksLineIn, AnswersNext};
ghost use Rattle.match_input.specs.inner.Turn.{reader_state, AreFew};

use crate::bundle_line::{BundleLine, last_time, read_line};
use crate::{Batch, ReadEnd, Stage};
use flow_edges::Source;
use std::alloc::Global;
use stix_json::JsonReader;
use stix_times::Instant;

/// How far an input is read, and what the next line depends on.
#[derive(Drop)]
pub(crate) struct Progress {
    pub(crate) alloc: Global,
    pub(crate) stage: Stage,
    /// The JSON parser, reused for all lines.
    pub(crate) json: JsonReader,
    /// How many observations were returned.
    pub(crate) observations: u64,
    /// When the last of them was last observed.
    pub(crate) last: Option<Instant>,
}

impl Progress {
    /// The next bundle with its observations. None at the end.
    pub(crate) fn next_batch<S: Source>(&mut self, source: &mut S) -> Result<Option<Batch>, ReadEnd>
        requires { AreFew self.old.stage self.old.observations }
        ensures next { IsOpen self.old.stage
            → AnswersNext (reader_state self.old) (reader_state self.new) (S.left source.old)
            (S.left source.new) result }
        ensures few { OnOk result (AreFew self.new.stage self.new.observations) }
        ensures unread { HoldsLines self.old.stage → source.new ≡ source.old }
        ensures in_time { IsOpen self.old.stage → ¬ (HoldsLines self.old.stage)
            → IfOk result (λ found. IfSome found (λ batch.
            IfSome (S.began source.new) (LacksLineIn self.old.stage batch.line
            (S.left source.old)))) }
        ensures at_end { self.old.stage ≡ Stage.AtEnd
            → (result ≡ Ok None) × (reader_state self.new ≡ reader_state self.old)
            × (source.new ≡ source.old) }
        ensures ended { self.old.stage ≡ Stage.Ended
            → (result ≡ Err ReadEnd.Ended) × (reader_state self.new ≡ reader_state self.old)
            × (source.new ≡ source.old) }
        ensures causes { Counted (IsOpen self.old.stage × (result ≡ Err ReadEnd.ReadFault))
            (S.faults source.old) (S.faults source.new) }
    {
        let Some(line) = self.stage.next_line(self.alloc, source)? else {
            return Ok(None);
        };
        match read_line(
            self.alloc,
            &mut self.json,
            self.last,
            self.observations + 1,
            line.bytes.as_slice(),
        )? {
            Ok(read) => Ok(Some(self.give(line.number, read))),
            Err(rule) => Err(ReadEnd::Input {
                line: line.number,
                rule,
            }),
        }
    }

    /// Counts the observations of a bundle, and returns it.
    fn give(&mut self, line: u64, read: BundleLine) -> Batch
        requires { self.old.observations + length read.observations < 2 ^ 64 }
        ensures batch { result ≡ record
            { line = line; bundle = read.bundle; observations = read.observations } }
        ensures stage { self.new.stage ≡ self.old.stage }
        ensures observations { self.new.observations ≡ self.old.observations
            + length read.observations }
        ensures last { self.new.last ≡ last_after self.old.last read.observations }
    {
        let BundleLine {
            bundle,
            observations,
        } = read;
        self.last = last_time(self.last, observations.as_slice());
        self.observations += observations.len() as u64;
        Batch {
            line,
            bundle,
            observations,
        }
    }
}
