//! A keeper in memory, for tests of anything that uses a `taxii_rows::Keeper`: all of its rows are
//! observable to contracts, and chosen calls fail (fault injection).
//!
//! ```text
//! // `failing` holds the numbers of the calls that fail; here it is [2]
//! let mut keeper = MemoryKeeper::new(alloc, rows, watermark, failing);
//! keeper.attach("store")?;               // call 1
//! assert!(keeper.watermark().is_err());  // call 2
//! ```
#![tactic(auto)]

mod calls;
mod held;
mod memory_keeper;

pub use memory_keeper::MemoryKeeper;
