//! Adapters from `std::io::Read` and `std::io::Write` to `Source` and `Sink`.

mod read_source;
mod uninterrupted;
mod write_sink;

pub use read_source::ReadSource;
pub use uninterrupted::{read_uninterrupted, write_uninterrupted};
pub use write_sink::WriteSink;
