//! The PolyGlot book format over any source and sink: tables, keys of setups, codes of moves, and
//! books with what they hold for a setup.
//!
//! ```rust
//! let table = take_table(alloc, &mut table_source, u32::MAX)?;
//! let book = read_book(alloc, &mut source, u32::MAX)?;
//! let moves = probe(alloc, &book, &table, &setup)?;
//! ```
#![tactic(auto)]

mod book;
mod code;
mod key;
pub mod laws;
mod reading;
mod table;

pub use book::{Book, ENTRIES_AT_ONCE, Entry, probe, write_book, write_entries, write_entry};
pub use code::{code_by, code_of, move_of};
pub use key::{key_after, key_next, key_of};
pub use pb_io::{
    Failed, FromRead, FuseSink, FuseSource, LINE_LIMIT, LineTask, MemSink, MemSource, NeverSource,
    ReadFault, Sink, Source, ToWrite, take_lines,
};
pub use reading::{BookError, read_book};
pub use table::{Table, TableError, TableFault, read_table, take_table};
