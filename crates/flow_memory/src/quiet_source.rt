ghost use Rattle.std.specs.Prelude.{◌≡◌, ◌≤◌, ◌<◌, Some, Ok, length, take, drop, IsOk, IfOk, OnErr};
ghost use Rattle.std.specs.Prelude.{IsErr};
ghost use Rattle.flow_edges.specs.Faults.{Counted};
ghost use Rattle.flow_edges.specs.Flow.{left_after, IsNextOf, IsAtEnd};

use flow_edges::Source;
use flow_values::{Fault, Items};
use std::marker::Model;

/// A `Source` over bytes in memory that never fails. Its value in contracts is the bytes left.
#[derive(Drop)]
pub struct QuietSource {
    bytes: Items<u8>,
    at: usize,
    piece: usize,
}

impl Model for QuietSource {
    ghost use Rattle.std.specs.Prelude.{ℕ, List, ◌≤◌, length, drop};

    ghost Value = { List ℕ };

    ghost view = { λ source. drop source.at source.bytes };

    ghost invariant = { λ source. (source.at ≤ length source.bytes) × (1 ≤ source.piece) };
}

impl QuietSource {
    /// A source of these bytes. A read returns at most `piece` of them.
    pub fn new(bytes: Items<u8>, piece: usize) -> QuietSource
        requires { 1 ≤ piece }
        ensures { result ≡ bytes }
    {
        QuietSource {
            bytes,
            at: 0,
            piece,
        }
    }
}

impl Source for QuietSource {
    ghost left = { λ source. Some source };

    ghost faults = { λ _. 0 };

    fn read(&mut self, buffer: &mut [u8]) -> Result<usize, Fault>
        requires room { 0 < length buffer.now }

        ensures within { IfOk result (λ n. n ≤ length buffer.old) }
        ensures given { IfOk result (λ n. IsNextOf (take n buffer.new) (Some self.old)) }
        ensures rest { IfOk result (λ n. Some self.new ≡ left_after n (Some self.old)) }
        ensures end { result ≡ Ok 0 → IsAtEnd (Some self.old) }
        ensures err { OnErr result (Some self.new ≡ Some self.old) }
        ensures causes { Counted (IsErr result) 0 0 }

        ensures fails { IsOk result }
        ensures behind { IfOk result (λ n. drop n buffer.new ≡ drop n buffer.old) }
    {
        let left = &self.bytes.as_slice()[self.at..];
        let count = self.piece.min(buffer.len().min(left.len()));
        buffer[..count].copy_from_slice(&left[..count]);
        self.at += count;
        Ok(count)
    }
}
