ghost use Rattle.std.specs.Prelude.{◌≡◌, ◌≤◌, ◌<◌, ◌↔◌, Ok, Some, true, length, take, drop, min};
ghost use Rattle.std.specs.Prelude.{IsErr, IfOk, IfSome, OnErr};
ghost use Rattle.flow_edges.specs.Faults.{counted, Counted};
ghost use Rattle.flow_edges.specs.Flow.{left_after, IsNextOf, IsAtEnd};
ghost use Rattle.flow_memory.specs.Streams.{is_failing};

use flow_edges::{Source, counted_fault};
use flow_values::{Fault, Items};
use std::marker::Model;

/// A source over bytes in memory, read in pieces, with chosen failures.
#[derive(Drop)]
pub struct MemorySource {
    bytes: Items<u8>,
    at: usize,
    /// Where the last read began; at the start before any.
    began: usize,
    piece: usize,
    failing: Items<u64>,
    calls: u64,
    faults: u64,
}

impl Model for MemorySource {
    ghost use Rattle.std.specs.Prelude.{◌≤◌, length, drop};
    ghost use Rattle.flow_memory.specs.Streams.{SourceState};

    ghost Value = { SourceState };

    ghost view = { λ source. record {
      left = drop source.at source.bytes;
      began = drop source.began source.bytes;
      piece = source.piece;
      failing = source.failing;
      calls = source.calls;
      faults = source.faults;
    } };

    ghost invariant = { λ source. (source.at ≤ length source.bytes)
        × (source.began ≤ length source.bytes) × (1 ≤ source.piece) };
}

impl MemorySource {
    /// A source of these bytes. A read returns at most `piece` of them. The calls numbered in
    /// `failing`, from 1, fail.
    pub fn new(bytes: Items<u8>, piece: usize, failing: Items<u64>) -> MemorySource
        requires { 1 ≤ piece }
        ensures { result ≡ record {
          left = bytes;
          began = bytes;
          piece = piece;
          failing = failing;
          calls = 0;
          faults = 0;
        } }
    {
        MemorySource {
            bytes,
            at: 0,
            began: 0,
            piece,
            failing,
            calls: 0,
            faults: 0,
        }
    }

    /// The bytes left to read.
    pub fn left(&self) -> &[u8]
        ensures { result.now ≡ self.now.left }
    {
        &self.bytes.as_slice()[self.at..]
    }
}

impl Source for MemorySource {
    ghost left = { λ source. Some source.left };

    ghost began = { λ source. Some source.began };

    ghost faults = { λ source. source.faults };

    fn read(&mut self, buffer: &mut [u8]) -> Result<usize, Fault>
        requires room { 0 < length buffer.now }

        ensures within { IfOk result (λ n. n ≤ length buffer.old) }
        ensures given { IfOk result (λ n. IsNextOf (take n buffer.new) (Some self.old.left)) }
        ensures rest { IfOk result (λ n. Some self.new.left ≡ left_after n (Some self.old.left)) }
        ensures end { result ≡ Ok 0 → IsAtEnd (Some self.old.left) }
        ensures err { OnErr result (Some self.new.left ≡ Some self.old.left) }
        ensures began { IfSome (Some self.new.began) (λ bytes. Some self.old.left ≡ Some bytes) }
        ensures causes { Counted (IsErr result) self.old.faults self.new.faults }

        // Exact, so that a test can predict each call.
        ensures fails { IsErr result ↔ (is_failing self.old.failing self.old.calls ≡ true) }
        ensures count { IfOk result
            (λ n. n ≡ min self.old.piece (min (length buffer.old) (length self.old.left))) }
        ensures calls { self.new.calls ≡ counted self.old.calls }
        ensures counted { OnErr result (self.new.faults ≡ counted self.old.faults) }
        ensures behind { IfOk result (λ n. drop n buffer.new ≡ drop n buffer.old) }
        ensures unchanged { OnErr result (buffer.new ≡ buffer.old) }
        ensures stays { (self.new.piece ≡ self.old.piece) × (self.new.failing ≡ self.old.failing) }
    {
        self.began = self.at;
        self.calls = self.calls.saturating_add(1);
        if self.failing.as_slice().contains(&self.calls) {
            return Err(counted_fault(&mut self.faults));
        }
        let left = &self.bytes.as_slice()[self.at..];
        let count = self.piece.min(buffer.len().min(left.len()));
        buffer[..count].copy_from_slice(&left[..count]);
        self.at += count;
        Ok(count)
    }
}
