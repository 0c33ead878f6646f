//! Where bytes come from and go to: sources and sinks that count their faults, the loops that read
//! all and write all, sources and sinks in memory, and adapters over readers and writers.
//!
//! Proved: `read_all` gives all bytes up to the end, `read_pieces` hands them on, and `write_all` writes exactly its
//! bytes, each failure with its cause and with what stands after it; sources and sinks in memory do exactly what they are
//! told to; adapters count each failure.
//!
//! ```rust
//! let mut source = ReadAdapter::new(rt.stdin());
//! let text = read_all(rt.alloc(), &mut source, 16_777_216)?;
//! ```
#![tactic(auto)]

mod adapters;
mod errors;
mod loops;
mod memory;
mod moving;
mod never_fail;
mod pieces;
mod streams;

pub use adapters::{ReadAdapter, WriteAdapter};
pub use errors::{ReadError, WriteFault};
pub use loops::{read_all, write_all};
pub use memory::{MemSink, MemSource};
pub use never_fail::{NeverFailSink, NeverFailSource};
pub use pieces::{Pieces, read_pieces};
pub use streams::{Failed, Sink, Source};
