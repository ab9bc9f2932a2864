//! Byte sources and sinks, and streams cut into lines. No chess and no format is known here. For
//! tests there are ends that fail after so many calls (`FuseSource`, `FuseSink`), and one that
//! never ends (`NeverSource`).
#![tactic(auto)]

mod fault;
mod fuse;
mod history;
pub mod laws;
mod lines;
mod sink;
mod source;

pub use fault::{Fault, ReadFault};
pub use fuse::{FuseSink, FuseSource, NeverSource};
pub use history::History;
pub use lines::{LINE_LIMIT, LineTask, take_lines};
pub use sink::{MemSink, NullSink, Sink, ToWrite, put_pieces};
pub use source::{CHUNK_LEN, Failed, FromRead, MemSource, Source};
