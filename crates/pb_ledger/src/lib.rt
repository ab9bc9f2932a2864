//! Streams of lines over a ledger: `collect` answers submissions, with a journal of new games or
//! without, `replay` reads a journal back, `save` and `load` keep a ledger as a file, and
//! `pick_games` puts the lines of games of a file.
//!
//! ```rust
//! let mut ledger = Ledger::<MapTally>::new(alloc, &table, MAX_CAP)?;
//! let totals = collect(alloc, &mut source, &mut sink, &mut ledger, u32::MAX)?;
//! let book = ledger.make_book(alloc)?;
//! ```
#![tactic(auto)]

mod booking;
mod collecting;
mod journal;
pub mod laws;
mod saving;

pub use booking::save_book;
pub use collecting::{CollectFault, Totals, collect, collect_journaled};
pub use journal::{SEALED, Watcher, pick_games, replay};
pub use pb_accepted::{
    Accepted, Game, Id, Ledger, Line, ListTally, MAX_CAP, MAX_LEAST, MAX_PLIES, MapTally, MoveList,
    Outcome, Plies, Refusal, Reply, Row, Rules, Tally, check_line, scale,
};
pub use pb_export::{ExportFault, export};
pub use saving::{HEADER, LoadError, load, save};
