//! Points and plies by key and code, added as games arrive, and the weights and entries that are
//! made of them. Keys and codes are numbers here, without a setup or a game.
//!
//! ```rust
//! let mut tally = MapTally::new(alloc);
//! tally.ensure(key, code)?;
//! tally.add(key, code, 2);
//! let rows = tally.rows(alloc)?;
//! ```
#![tactic(auto)]

mod blocks;
mod book;
pub mod laws;
mod list_tally;
mod narrow;
mod narrow_tally;
mod part_tally;
mod row;
mod spread;
mod tally;
mod wide;

pub use book::scale;
pub use list_tally::ListTally;
pub use narrow_tally::NarrowTally;
pub use part_tally::{MapTally, PartTally};
pub use row::Row;
pub use tally::Tally;
