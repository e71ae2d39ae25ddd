//! The I/O boundary for bytes: `Source` is a reader, `Sink` a writer, and `Files` opens files by
//! name. `ReadSource`, `WriteSink` and `SystemFiles` implement them for the operating system.
//!
//! Each trait has ghost members: the bytes left to read, the bytes written, and the number of
//! failed calls. So code over the traits can be proved, and its contract cannot report an I/O error
//! that the object didn't count. What the operating system holds is not observable: those members
//! are `None`, and a `None` promises nothing.
//!
//! ```ignore
//! let mut source = ReadSource::new(stdin);
//! let mut sink = WriteSink::new(stdout);
//! let mut buffer = [0u8; 4096];
//! let count = source.read(&mut buffer)?;
//! write_whole(&mut sink, &buffer[..count])?;
//! ```
#![tactic(auto)]

mod fault;
mod files;
mod pieces;
mod sink;
mod source;
mod system;
mod system_files;

pub use fault::counted_fault;
pub use files::Files;
pub use pieces::write_all_vectored;
pub use sink::{Sink, write_whole};
pub use source::{MAX_READ, Source};
pub use system::{ReadSource, WriteSink, read_uninterrupted, write_uninterrupted};
pub use system_files::SystemFiles;
