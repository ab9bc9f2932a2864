//! The ledger: games by id, each counted once however often it comes, and their book.
//!
//! ```rust
//! let mut ledger = Ledger::<MapTally>::new(alloc, &table, MAX_CAP)?;
//! let line = b"g1\t1-0\t4k3/8/8/8/8/8/4P3/4K3 w - - 0 1\te2e4 e8e7";
//! let reply = Reply::new(line, ledger.submit(line));
//! let book = ledger.make_book(alloc)?;
//! ```
#![tactic(auto)]

pub mod laws;
mod ledger;
mod ply_points;
mod recorder;
mod reply;
mod rules;

pub use ledger::{Accepted, Ledger, MAX_CAP};
pub use pb_games::{Game, Id, Line, MAX_PLIES, MoveList, Outcome, Plies, Refusal, check_line};
pub use pb_points::{ListTally, MapTally, Row, Tally, scale};
pub use reply::Reply;
pub use rules::{MAX_LEAST, Rules};
