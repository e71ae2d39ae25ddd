ghost use Rattle.std.specs.Prelude.{◌≡◌, ◌≤◌, ◌<◌, ◌-◌, ◌↔◌, [], Ok, Some, refl, true, length};
ghost use Rattle.std.specs.Prelude.{take, drop, min, IsErr, IfOk, IfSome, OnErr, ◌||◌, nat_le};
ghost use Rattle.flow_edges.specs.Faults.{counted, Counted};
ghost use Rattle.flow_edges.specs.Flow.{left_after, IsNextOf, IsAtEnd, written_with};
ghost use Rattle.flow_memory.specs.Streams.{is_failing};

use crate::{MemorySink, MemorySource};
use flow_edges::{Sink, Source};
use flow_links::Link;
use flow_values::{Fault, Items, NoMemory};
use std::alloc::Global;
use std::marker::Model;

/// A connection in memory: a `MemorySource` and a `MemorySink`.
#[derive(Drop)]
pub struct MemoryLink {
    source: MemorySource,
    sink: MemorySink,
}

impl Model for MemoryLink {
    ghost use Rattle.flow_memory.specs.Links.{LinkState};

    ghost Value = { LinkState };

    ghost view = { λ link. record { source = link.source; sink = link.sink } };
}

impl MemoryLink {
    /// A link whose peer sends these bytes, at most `piece` of them in a read, and receives at most
    /// `room` bytes. The reads and writes numbered in the two lists, from 1, fail.
    pub fn new(
        alloc: Global,
        bytes: Items<u8>,
        piece: usize,
        failing_reads: Items<u64>,
        room: usize,
        failing_writes: Items<u64>,
    ) -> Result<MemoryLink, NoMemory>
        requires { 1 ≤ piece }
        ensures { IfOk result (λ link. link ≡ record {
          source = record {
            left = bytes;
            began = bytes;
            piece = piece;
            failing = failing_reads;
            calls = 0;
            faults = 0;
          };
          sink = record {
            written = [];
            room = room;
            failing = failing_writes;
            calls = 0;
            faults = 0;
          };
        }) }
    {
        Ok(MemoryLink {
            source: MemorySource::new(bytes, piece, failing_reads),
            sink: MemorySink::new(alloc, room, failing_writes)?,
        })
    }

    /// The bytes written so far.
    pub fn bytes(&self) -> &[u8]
        ensures { result.now ≡ self.now.sink.written }
    {
        self.sink.bytes()
    }
}

impl Source for MemoryLink {
    ghost left = { λ link. Some link.source.left };

    ghost began = { λ link. Some link.source.began };

    ghost faults = { λ link. link.source.faults };

    ghost other = { λ link. record {
      written = Some link.sink.written;
      faults = link.sink.faults;
    } };

    fn read(&mut self, buffer: &mut [u8]) -> Result<usize, Fault>
        requires room { 0 < length buffer.now }

        ensures within { IfOk result (λ n. n ≤ length buffer.old) }
        ensures given { IfOk result
            (λ n. IsNextOf (take n buffer.new) (Some self.old.source.left)) }
        ensures rest { IfOk result
            (λ n. Some self.new.source.left ≡ left_after n (Some self.old.source.left)) }
        ensures end { result ≡ Ok 0 → IsAtEnd (Some self.old.source.left) }
        ensures err { OnErr result (Some self.new.source.left ≡ Some self.old.source.left) }
        ensures began { IfSome (Some self.new.source.began) (λ bytes. Some self.old.source.left
            ≡ Some bytes) }
        ensures causes { Counted (IsErr result) self.old.source.faults self.new.source.faults }

        ensures fails { IsErr result
            ↔ (is_failing self.old.source.failing self.old.source.calls ≡ true) }
        ensures count { IfOk result
            (λ n. n ≡ min self.old.source.piece
            (min (length buffer.old) (length self.old.source.left))) }
        ensures calls { self.new.source.calls ≡ counted self.old.source.calls }
        ensures counted { OnErr result (self.new.source.faults ≡ counted self.old.source.faults) }
        ensures behind { IfOk result (λ n. drop n buffer.new ≡ drop n buffer.old) }
        ensures unchanged { OnErr result (buffer.new ≡ buffer.old) }
        ensures stays { (self.new.source.piece ≡ self.old.source.piece)
            × (self.new.source.failing ≡ self.old.source.failing) }
        ensures unwritten { self.new.sink ≡ self.old.sink }
    {
        self.source.read(buffer)
    }
}

impl Sink for MemoryLink {
    ghost written = { λ link. Some link.sink.written };

    ghost faults = { λ link. link.sink.faults };

    ghost other = { λ link. record {
      left = Some link.source.left;
      began = Some link.source.began;
      faults = link.source.faults;
    } };

    fn write(&mut self, piece: &[u8]) -> Result<usize, Fault>
        ensures within { IfOk result (λ n. n ≤ length piece.now) }
        ensures written { IfOk result
            (λ n. Some self.new.sink.written
            ≡ written_with (take n piece.now) (Some self.old.sink.written)) }
        ensures some { IfOk result (λ n. 0 < length piece.now → 0 < n) }
        ensures err { OnErr result (Some self.new.sink.written ≡ Some self.old.sink.written) }
        ensures causes { Counted (IsErr result) self.old.sink.faults self.new.sink.faults }

        ensures fails { IsErr result
            ↔ (is_failing self.old.sink.failing self.old.sink.calls || nat_le self.old.sink.room
            (length self.old.sink.written) ≡ true) }
        ensures count { IfOk result
            (λ n. n ≡ min (length piece.now) (self.old.sink.room - length self.old.sink.written)) }
        ensures calls { self.new.sink.calls ≡ counted self.old.sink.calls }
        ensures counted { OnErr result (self.new.sink.faults ≡ counted self.old.sink.faults) }
        ensures stays { (self.new.sink.room ≡ self.old.sink.room)
            × (self.new.sink.failing ≡ self.old.sink.failing) }
        ensures unread { self.new.source ≡ self.old.source }
    {
        self.sink.write(piece)
    }
}

impl Link for MemoryLink {
    ghost unwritten = { λ _. refl };

    ghost unread = { λ _. refl };
}
