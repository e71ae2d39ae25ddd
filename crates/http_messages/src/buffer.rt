//! A byte queue over one vector: bytes are appended at the end and consumed from the front.
//! Consumed bytes are removed only when they make up half of the vector, so each byte is moved at
//! most once (amortized O(1) per byte).

ghost use Rattle.std.specs.Prelude.{◌≡◌, ◌≤◌, [], ◌++◌, length, drop, slice_range, IfOk, OnOk};
ghost use Rattle.std.specs.Prelude.{OnErr};

use flow_values::NoMemory;
use std::alloc::Global;
use std::marker::Model;
use std::mem;

/// A byte queue. Its model is the list of bytes that are not consumed yet.
#[derive(Drop)]
pub(crate) struct Buffer {
    bytes: Vec<u8>,
    /// The number of consumed bytes at the front that are still in `bytes`.
    taken: usize,
}

impl Model for Buffer {
    ghost use Rattle.std.specs.Prelude.{ℕ, ◌≤◌, List, length, drop};

    ghost Value = { List ℕ };

    ghost view = { λ buffer. drop buffer.taken buffer.bytes.items };

    ghost invariant = { λ buffer. buffer.taken ≤ length buffer.bytes.items };
}

impl Buffer {
    /// The empty buffer. Allocates nothing.
    pub(crate) fn new(alloc: Global) -> Buffer
        ensures { result ≡ [] }
    {
        Buffer {
            bytes: Vec::new(alloc),
            taken: 0,
        }
    }

    /// The bytes, borrowed.
    pub(crate) fn as_slice(&self) -> &[u8]
        ensures { result.now ≡ self.now }
    {
        &self.bytes[self.taken..]
    }

    /// Appends bytes. When out of memory, the buffer is unchanged.
    pub(crate) fn push(&mut self, chunk: &[u8]) -> Result<(), NoMemory>
        ensures ok { OnOk result (self.new ≡ self.old ++ chunk.now) }
        ensures err { OnErr result (self.new ≡ self.old) }
    {
        self.clear_taken();
        self.bytes.extend_from_slice(chunk)?;
        Ok(())
    }

    /// Consumes the bytes before `end`, and returns those from `start` on. If they are the last
    /// bytes, the vector itself is handed over; otherwise they are copied. If `start` equals `end`,
    /// the buffer keeps its capacity. When out of memory, the buffer is unchanged.
    pub(crate) fn take(
        &mut self,
        alloc: Global,
        start: usize,
        end: usize,
    ) -> Result<Buffer, NoMemory>
        requires order { start ≤ end }
        requires within { end ≤ length self.old }
        ensures given { IfOk result (λ given. given ≡ slice_range self.old start end) }
        ensures rest { OnOk result (self.new ≡ drop end self.old) }
        ensures err { OnErr result (self.new ≡ self.old) }
    {
        if start == end {
            self.advance(end);
            return Ok(Buffer::new(alloc));
        }
        if end == self.as_slice().len() {
            return Ok(self.take_all(alloc, start));
        }
        let copy = Buffer::copied(alloc, &self.as_slice()[start..end])?;
        self.advance(end);
        Ok(copy)
    }

    /// Consumes all bytes, and returns those from `start` on in the same vector.
    fn take_all(&mut self, alloc: Global, start: usize) -> Buffer
        requires { start ≤ length self.old }
        ensures given { result ≡ drop start self.old }
        ensures rest { self.new ≡ [] }
    {
        let mut all = mem::replace(self, Buffer::new(alloc));
        all.advance(start);
        all
    }

    /// A buffer with a copy of the bytes.
    fn copied(alloc: Global, bytes: &[u8]) -> Result<Buffer, NoMemory>
        ensures { IfOk result (λ copy. copy ≡ bytes.now) }
    {
        let bytes = Vec::from_slice(alloc, bytes)?;
        Ok(Buffer { bytes, taken: 0 })
    }

    /// Consumes `count` bytes from the front.
    fn advance(&mut self, count: usize)
        requires { count ≤ length self.old }
        ensures { self.new ≡ drop count self.old }
    {
        self.taken += count;
    }

    /// Moves the remaining bytes to the front of the vector if at least half of it is consumed.
    fn clear_taken(&mut self)
        ensures { self.new ≡ self.old }
    {
        let left = self.bytes.len() - self.taken;
        if self.taken >= left {
            self.bytes.copy_within(self.taken.., 0);
            self.bytes.truncate(left);
            self.taken = 0;
        }
    }
}
