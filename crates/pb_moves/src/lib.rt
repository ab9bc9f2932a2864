//! The moves of chess: attacks and check, which moves are legal, and the setup and the record after
//! them.
//!
//! ```rust
//! let moves = legal_moves(alloc, &fen.setup())?;
//! let next = advance(&fen, read_move(b"e2e4")?);
//! ```
#![tactic(auto)]

mod attack;
mod board;
mod cases;
mod castling;
mod check;
mod effect;
pub mod laws;
mod legal;
mod listing;
mod moves;
mod playing;
mod state_after;
mod target_tables;

pub use check::{attacked, in_check, playable};
pub use effect::{Effect, effect_of, is_legal, legal_effect};
pub use listing::legal_moves;
pub use moves::{Move, MoveText, promotion_of, read_move, read_plain};
pub use playing::{advance, play, try_play};
pub use state_after::touches_home;
