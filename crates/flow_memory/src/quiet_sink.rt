ghost use Rattle.std.specs.Prelude.{None};

use flow_edges::Sink;
use flow_values::Fault;

/// A sink that discards all bytes, like `std::io::sink`.
#[derive(Drop)]
pub struct QuietSink {
    _private: (),
}

impl QuietSink {
    /// A sink that discards all bytes.
    pub fn new() -> QuietSink {
        QuietSink { _private: () }
    }
}

impl Sink for QuietSink {
    ghost written = { λ _. None };

    ghost faults = { λ _. 0 };

    fn write(&mut self, piece: &[u8]) -> Result<usize, Fault> {
        Ok(piece.len())
    }
}
