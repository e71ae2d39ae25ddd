ghost use Rattle.std.specs.Prelude.{◌≡◌};
ghost use Rattle.flow_edges.specs.Flow.{SinkSide, SourceSide};

use flow_edges::{Sink, Source};

/// A connection to a peer. Reads and writes have the contracts of `Source` and `Sink`, and each
/// side counts its own faults.
pub trait Link: Source + Sink {
    /// What a read leaves unchanged: the bytes written.
    ghost unwritten: { (link : Self)
        → Self.Source.other link
        ≡ record { written = Self.written link; faults = Self.Sink.faults link } };

    /// What a write leaves unchanged: the bytes left to read.
    ghost unread: { (link : Self)
        → Self.Sink.other link ≡ record {
          left = Self.left link;
          began = Self.began link;
          faults = Self.Source.faults link;
        } };
}
