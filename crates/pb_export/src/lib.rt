//! The opening book of a ledger as EPD lines.
//!
//! ```rust
//! let mut ledger = Ledger::<MapTally>::new(alloc, &table, MAX_CAP)?;
//! ledger.submit(b"g1\t1-0\trnbqkbnr/pppppppp/8/8/8/8/PPPPPPPP/RNBQKBNR w KQkq - 0 1\te2e4")?;
//! let mut sink = MemSink::new(alloc);
//! let lines = export(alloc, &ledger, &mut sink)?;
//! ```
#![tactic(auto)]

mod exporting;
mod indexed_book;
pub mod laws;
mod setups;

pub use exporting::{ExportFault, export};
