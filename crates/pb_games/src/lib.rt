//! Games as they are submitted, one line each: an id, a result, the record that the game starts
//! from, and its moves.
//!
//! ```rust
//! let line = check_line(b"g1\t1-0\t4k3/8/8/8/8/8/4P3/4K3 w - - 0 1\te2e4 e8e7")?;
//! let first = line.moves().next();
//! ```
#![tactic(auto)]

mod fields;
mod game;
mod id;
mod judge;
pub mod laws;
mod line;
mod refusal;
mod visitor;

pub use fields::{LineFields, cut_line};
pub use game::{Game, MoveList, Outcome, repeats};
pub use id::Id;
pub use judge::{MAX_PLIES, check_line, judge_fields};
pub use line::{Line, Plies};
pub use refusal::Refusal;
pub use visitor::{MoveVisitor, NoVisitor};
