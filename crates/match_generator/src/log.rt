ghost use Rattle.std.specs.Prelude.{◌≡◌, ◌≤◌, ◌<◌, Some, Ok, length, take, drop, IsOk, IfOk, OnErr};
ghost use Rattle.std.specs.Prelude.{IsErr};
ghost use Rattle.flow_edges.specs.Faults.{Counted};
ghost use Rattle.flow_edges.specs.Flow.{left_after, IsNextOf, IsAtEnd};
ghost use Rattle.match_generator.specs.GeneratedLog.{log_text};

use crate::generator::Generator;
use crate::line::Line;
use flow_edges::Source;
use flow_values::Fault;
use std::marker::Model;

/// The largest seed.
pub const MAX_SEED: u32 = 2_147_483_647;

/// The most lines of a generated log.
pub const MAX_COUNT: u32 = 100_000;

/// A generated log as a `Source`. It never fails and takes no memory. Contracts observe the bytes
/// that are left.
#[derive(Drop)]
pub struct GeneratedLog {
    line: Line,
    /// How many bytes of the line were read.
    at: usize,
    generator: Generator,
    /// The time of the line's observation, in seconds after the start of the log.
    seconds: u32,
    lines_to_come: u32,
}

impl Model for GeneratedLog {
    ghost use Rattle.std.specs.Prelude.{ℕ, List, ◌+◌, ◌*◌, ◌≤◌, ◌++◌, length, drop};
    ghost use Rattle.match_generator.specs.declared.log.TheConstants.{MAX_COUNT};
    ghost use Rattle.match_generator.specs.GeneratedLog.{events, lines_text};

    ghost Value = { List ℕ };

    ghost view = { λ log. drop log.at log.line
        ++ lines_text log.seconds (events log.generator.state log.lines_to_come) };

    ghost invariant = { λ log. (log.at ≤ length log.line)
        × (log.seconds + 9 * log.lines_to_come ≤ 9 * MAX_COUNT) };
}

impl GeneratedLog {
    /// The log with this seed and number of lines, from its start.
    pub fn new(seed: u32, count: u32) -> GeneratedLog
        requires seed { seed ≤ MAX_SEED }
        requires count { count ≤ MAX_COUNT }
        ensures { result ≡ log_text seed count }
    {
        GeneratedLog {
            line: Line::new(),
            at: 0,
            generator: Generator { state: seed },
            seconds: 0,
            lines_to_come: count,
        }
    }
}

impl Source for GeneratedLog {
    ghost left = { λ log. Some log };

    ghost faults = { λ _. 0 };

    /// Copies as many bytes of the current line as fit. Generates the next line once this one is
    /// used up.
    fn read(&mut self, buffer: &mut [u8]) -> Result<usize, Fault>
        requires room { 0 < length buffer.now }

        ensures within { IfOk result (λ n. n ≤ length buffer.old) }
        ensures given { IfOk result (λ n. IsNextOf (take n buffer.new) (Some self.old)) }
        ensures rest { IfOk result (λ n. Some self.new ≡ left_after n (Some self.old)) }
        ensures end { result ≡ Ok 0 → IsAtEnd (Some self.old) }
        ensures err { OnErr result (Some self.new ≡ Some self.old) }
        ensures causes { Counted (IsErr result) 0 0 }

        ensures fails { IsOk result }
        ensures behind { IfOk result (λ n. drop n buffer.new ≡ drop n buffer.old) }
    {
        if self.at == self.line.len() && self.lines_to_come > 0 {
            self.seconds += self.generator.draw() % 10;
            let digit = (self.generator.draw() % 4) as u8;
            self.line.write(self.seconds, digit);
            self.at = 0;
            self.lines_to_come -= 1;
        }
        let left = &self.line.as_slice()[self.at..];
        let count = buffer.len().min(left.len());
        buffer[..count].copy_from_slice(&left[..count]);
        self.at += count;
        Ok(count)
    }
}
