ghost use Rattle.std.specs.Prelude.{◌≡◌, ◌≤◌, ◌<◌, ◌-◌, ◌↔◌, [], Some, true, length, take, min};
ghost use Rattle.std.specs.Prelude.{IsErr, IfOk, OnErr, ◌||◌, nat_le};
ghost use Rattle.flow_edges.specs.Faults.{counted, Counted};
ghost use Rattle.flow_edges.specs.Flow.{written_with};
ghost use Rattle.flow_memory.specs.Streams.{is_failing};

use flow_edges::{Sink, counted_fault};
use flow_values::{Fault, Items, NoMemory};
use std::alloc::Global;
use std::marker::Model;

/// A sink of fixed capacity in memory, with chosen failures.
#[derive(Drop)]
pub struct MemorySink {
    bytes: Vec<u8>,
    room: usize,
    failing: Items<u64>,
    calls: u64,
    faults: u64,
}

impl Model for MemorySink {
    ghost use Rattle.std.specs.Prelude.{◌≤◌, vec_len, vec_capacity};
    ghost use Rattle.flow_memory.specs.Streams.{SinkState};

    ghost Value = { SinkState };

    ghost view = { λ sink. record {
      written = sink.bytes.items;
      room = sink.room;
      failing = sink.failing;
      calls = sink.calls;
      faults = sink.faults;
    } };

    ghost invariant = { λ sink. (vec_len sink.bytes ≤ sink.room)
        × (sink.room ≤ vec_capacity sink.bytes) };
}

impl MemorySink {
    /// A sink with capacity for `room` bytes, allocated at once. The calls numbered in `failing`,
    /// from 1, fail.
    pub fn new(alloc: Global, room: usize, failing: Items<u64>) -> Result<MemorySink, NoMemory>
        ensures { IfOk result (λ sink. sink
            ≡ record { written = []; room = room; failing = failing; calls = 0; faults = 0 }) }
    {
        let bytes = Vec::with_capacity(alloc, room)?;
        Ok(MemorySink {
            bytes,
            room,
            failing,
            calls: 0,
            faults: 0,
        })
    }

    /// The bytes written so far.
    pub fn bytes(&self) -> &[u8]
        ensures { result.now ≡ self.now.written }
    {
        self.bytes.as_slice()
    }
}

impl Sink for MemorySink {
    ghost written = { λ sink. Some sink.written };

    ghost faults = { λ sink. sink.faults };

    fn write(&mut self, piece: &[u8]) -> Result<usize, Fault>
        ensures within { IfOk result (λ n. n ≤ length piece.now) }
        ensures written { IfOk result
            (λ n. Some self.new.written ≡ written_with (take n piece.now) (Some self.old.written)) }
        ensures some { IfOk result (λ n. 0 < length piece.now → 0 < n) }
        ensures err { OnErr result (Some self.new.written ≡ Some self.old.written) }
        ensures causes { Counted (IsErr result) self.old.faults self.new.faults }

        ensures fails { IsErr result
            ↔ (is_failing self.old.failing self.old.calls || nat_le self.old.room
            (length self.old.written) ≡ true) }
        ensures count { IfOk result
            (λ n. n ≡ min (length piece.now) (self.old.room - length self.old.written)) }
        ensures calls { self.new.calls ≡ counted self.old.calls }
        ensures counted { OnErr result (self.new.faults ≡ counted self.old.faults) }
        ensures stays { (self.new.room ≡ self.old.room) × (self.new.failing ≡ self.old.failing) }
    {
        self.calls = self.calls.saturating_add(1);
        if self.failing.as_slice().contains(&self.calls) {
            return Err(counted_fault(&mut self.faults));
        }
        let room = self.room - self.bytes.len();
        if room == 0 {
            return Err(counted_fault(&mut self.faults));
        }
        let count = piece.len().min(room);
        self.bytes.extend_from_slice(&piece[..count]).unwrap();
        Ok(count)
    }
}
