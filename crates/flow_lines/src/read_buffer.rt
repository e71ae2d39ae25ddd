//! A read buffer that `memchr` searches for line feeds. A read needs a `ReadPermit`, which only an
//! empty buffer gives out, so the type system rules out an unneeded read.

ghost use Rattle.std.specs.Prelude.{◌≡◌, ℕ, ◌≤◌, ◌++◌, [], Ok, Some, length, IfOk, IfSome, OnOk};
ghost use Rattle.std.specs.Prelude.{OnErr, MatchOption, IsErr};
ghost use Rattle.flow_edges.specs.declared.source.TheConstants.{MAX_READ};
ghost use Rattle.flow_edges.specs.Faults.{Counted};
ghost use Rattle.flow_edges.specs.Flow.{IsAtEnd};
ghost use Rattle.flow_lines.specs.inner.Reading.{Fills, TakesToLineFeed, TakesAll};

use flow_edges::{MAX_READ, Source};
use flow_values::{Fault, NoMemory};
use memchr::memchr;
use std::alloc::Global;
use std::marker::Model;

/// Permission for one read: a proof that the buffer has no complete line. Only draining the buffer
/// creates one, and each read consumes one, so no read happens too early.
#[derive(Drop)]
pub struct ReadPermit {
    _private: (),
}

/// The buffer of the last read: the bytes in it that aren't used yet.
#[derive(Drop)]
pub struct ReadBuffer {
    bytes: Vec<u8>,
    from: usize,
    to: usize,
}

impl Model for ReadBuffer {
    ghost use Rattle.flow_edges.specs.declared.source.TheConstants.{MAX_READ};
    ghost use Rattle.std.specs.Prelude.{◌≡◌, ℕ, List, take, drop, length, ◌-◌, ◌≤◌};

    ghost Value = { List ℕ };

    ghost view = { λ read_buffer.
        take (read_buffer.to - read_buffer.from) (drop read_buffer.from read_buffer.bytes.items) };

    ghost invariant = { λ read_buffer. (read_buffer.from ≤ read_buffer.to)
        × (read_buffer.to ≤ length read_buffer.bytes.items)
        × (length read_buffer.bytes.items ≡ MAX_READ) };
}

impl ReadBuffer {
    /// An empty buffer with capacity for one read.
    pub fn new(alloc: Global) -> Result<ReadBuffer, NoMemory>
        ensures { IfOk result (λ read_buffer. read_buffer ≡ []) }
    {
        let bytes = vec![in alloc; 0u8; MAX_READ]?;
        Ok(ReadBuffer {
            bytes,
            from: 0,
            to: 0,
        })
    }

    /// Refills the buffer with one read, and returns the number of bytes.
    pub fn fill<S: Source>(&mut self, _permit: ReadPermit, source: &mut S) -> Result<usize, Fault>
        ensures filled { IfOk result
            (λ n. Fills n self.new (S.left source.old) (S.left source.new)) }
        ensures end { result ≡ Ok 0 → IsAtEnd (S.left source.old) }
        ensures empty { OnErr result (self.new ≡ []) }
        ensures err { OnErr result (S.left source.new ≡ S.left source.old) }
        ensures began { IfSome (S.began source.new) (λ bytes. S.left source.old ≡ Some bytes) }
        ensures room { length self.new ≤ MAX_READ }
        ensures causes { Counted (IsErr result) (S.faults source.old) (S.faults source.new) }
    {
        self.from = 0;
        self.to = 0;
        let count = source.read(&mut self.bytes)?;
        self.to = count;
        Ok(count)
    }

    /// Moves the bytes before the next line feed to the line, and drops the line feed. With no line
    /// feed, it moves all bytes and returns the permission for a read.
    pub fn take_line(&mut self, line: &mut Vec<u8>) -> Result<Option<ReadPermit>, NoMemory>
        ensures taken { IfOk result (λ permit. MatchOption permit
            (TakesToLineFeed self.old self.new line.old.items line.new.items)
            (λ _. TakesAll self.old self.new line.old.items line.new.items)) }
        ensures err { OnErr result ((self.new ≡ self.old) × (line.new.items ≡ line.old.items)) }
        ensures room { length self.new ≤ MAX_READ }
    {
        let rest = &self.bytes[self.from..self.to];
        match memchr(b'\n', rest) {
            Some(at) => {
                line.extend_from_slice(&rest[..at])?;
                self.from += at + 1;
                Ok(None)
            }
            None => {
                line.extend_from_slice(rest)?;
                self.from = self.to;
                Ok(Some(ReadPermit { _private: () }))
            }
        }
    }

    /// Moves all bytes to the end of `bytes`, and returns the permission for a read.
    pub fn take_all(&mut self, bytes: &mut Vec<u8>) -> Result<ReadPermit, NoMemory>
        ensures ok { OnOk result ((self.new ≡ [])
            × (bytes.new.items ≡ bytes.old.items ++ self.old)) }
    {
        bytes.extend_from_slice(&self.bytes[self.from..self.to])?;
        self.from = self.to;
        Ok(ReadPermit { _private: () })
    }
}
