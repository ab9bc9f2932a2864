//! Why a line is refused.

use pb_board::FenError;
use thiserror::Error;

/// Tells why a submission is refused, in the order in which the causes are looked for. The first
/// nine look at the line alone.
#[derive(Clone, Copy, Debug, PartialEq, Eq, Hash, Error)]
pub enum Refusal {
    /// The line has more than 8,192 bytes, a final CR counted.
    #[error("more than 8192 bytes")]
    Long,
    /// Cutting at every TAB doesn't give four fields.
    #[error("not exactly three tabs")]
    Shape,
    /// The first field isn't 1 to 64 bytes of 33 to 126.
    #[error("the id isn't 1 to 64 printable bytes without spaces")]
    Id,
    /// The second field isn't `1-0`, `0-1` or `1/2-1/2`.
    #[error("the result isn't 1-0, 0-1 or 1/2-1/2")]
    Result,
    /// The third field isn't a FEN record (PGN Standard 1994, section 16.1).
    #[error("the start isn't a FEN record: {0}")]
    Fen(FenError),
    /// The side that isn't to move at the start is in check.
    #[error("the side that isn't to move at the start is in check")]
    Start,
    /// The first token of the fourth field, counted from 1, that spells no move.
    #[error("word {0} of the moves spells no move")]
    Spelling(u32),
    /// There are more than 1,024 moves.
    #[error("more than 1024 moves")]
    Plies,
    /// The first move, counted from 1, that isn't legal where it is played.
    #[error("move {0} isn't legal")]
    Illegal(u32),
    /// The id is held by another game, which has this number.
    #[error("the id is held by game {0}")]
    Conflict(u32),
    /// The id is new, and as many games are held as may be.
    #[error("no more games are taken")]
    Full,
    /// The line submits a new legal game, and no memory is left for it.
    #[error("no memory is left")]
    Memory,
}
