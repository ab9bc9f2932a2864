//! Chess positions: squares, pieces, setups, and the FEN records that spell them (PGN Standard
//! 16.1). Castling squares are here; the rules of moving are in `pb_moves`.
//!
//! ```rust
//! let fen = read_fen(b"4k3/8/8/8/8/8/4P3/4K3 w - - 0 1")?;
//! let side = fen.setup().turn();
//! ```
#![tactic(auto)]

mod bitboards;
mod castling;
mod fen;
mod fields;
pub mod laws;
mod piece;
mod read;
mod refusal;
mod setup;
mod setup_rules;
mod square;
mod text;
mod write;

pub use castling::{Castling, CastlingSquares};
pub use fen::{Fen, FenBytes};
pub use fields::{cut_once, without_return};
pub use piece::{Colour, Kind, Piece};
pub use read::{read_fen, read_setup};
pub use refusal::{FenError, SetupError};
pub use setup::{MovedPiece, Rights, Setup};
pub use square::Square;
pub use text::Text;
pub use write::{write_fen, write_setup};
