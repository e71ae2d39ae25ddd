ghost use Rattle.std.specs.Prelude.{◌≡◌, ◌≢◌, ◌≤◌, Err, Ok, None, IfOk, IfErr, IfSome};
ghost use Rattle.flow_edges.specs.Faults.{Counted};
ghost use Rattle.match_input.specs.Ahead.{reader_start, IsOpen, HoldsLines, LacksLineIn};
ghost use Rattle.match_input.specs.Ahead.{AnswersNext};

use crate::progress::Progress;
use crate::{Batch, Mode, ReadEnd, Stage};
use flow_edges::Source;
use flow_lines::Lines;
use flow_values::NoMemory;
use std::alloc::Global;
use std::marker::Model;
use stix_json::JsonReader;

/// A reader of the bundles of an input. Contracts observe how far the input is read, how many
/// observations were returned, and when the last of them was last observed.
#[derive(Drop)]
pub struct Reader {
    progress: Progress,
}

impl Model for Reader {
    ghost use Rattle.match_input.specs.Ahead.{InputReaderState};
    ghost use Rattle.match_input.specs.inner.Turn.{reader_state, AreFew};

    ghost Value = { InputReaderState };

    ghost view = { λ reader. reader_state reader.progress };

    ghost invariant = { λ reader. AreFew reader.progress.stage reader.progress.observations };
}

impl Reader {
    /// A reader at the start of an input.
    pub fn new(alloc: Global, mode: Mode) -> Result<Reader, NoMemory>
        ensures { IfOk result (λ reader. reader ≡ reader_start mode) }
    {
        let stage = match mode {
            Mode::Lines => Stage::Lines(Lines::new(alloc)?),
            Mode::Whole => Stage::Whole,
        };
        Ok(Reader {
            progress: Progress {
                alloc,
                stage,
                json: JsonReader::new(alloc)?,
                observations: 0,
                last: None,
            },
        })
    }

    /// The next bundle with its observations. None at the end of the input, and at each later call.
    ///
    /// Reads from the source only while the buffer holds no whole line, so it never reads further
    /// than this bundle requires. After a `ReadEnd` each later call returns `Ended` without
    /// reading.
    pub fn next<S: Source>(&mut self, source: &mut S) -> Result<Option<Batch>, ReadEnd>
        ensures next { IsOpen self.old.stage
            → AnswersNext self.old self.new (S.left source.old) (S.left source.new) result }
        // With a whole line in the buffer the source isn't touched.
        ensures unread { HoldsLines self.old.stage → source.new ≡ source.old }
        ensures in_time { IsOpen self.old.stage → ¬ (HoldsLines self.old.stage)
            → IfOk result (λ found. IfSome found (λ batch.
            IfSome (S.began source.new) (LacksLineIn self.old.stage batch.line
            (S.left source.old)))) }
        ensures at_end { self.old.stage ≡ Stage.AtEnd → (result ≡ Ok None) × (self.new ≡ self.old)
            × (source.new ≡ source.old) }
        ensures ended { self.old.stage ≡ Stage.Ended
            → (result ≡ Err ReadEnd.Ended) × (self.new ≡ self.old) × (source.new ≡ source.old) }
        // Every error is final.
        ensures ends { IfErr result (λ _. self.new.stage ≡ Stage.Ended) }
        // A read fault is reported exactly where the source counted one.
        ensures causes { Counted (IsOpen self.old.stage × (result ≡ Err ReadEnd.ReadFault))
            (S.faults source.old) (S.faults source.new) }
    {
        match self.progress.next_batch(source) {
            Ok(batch) => Ok(batch),
            Err(end) => {
                self.progress.stage = Stage::Ended;
                Err(end)
            }
        }
    }
}
