//! Moves, by pb_board and pb_moves: the legal moves of a position, and the record after one of
//! them.

ghost use Rattle.std.specs.Prelude.{◌≡◌, ◌≢◌, ◌⊎◌, ◌↔◌, Contains, IfOk, MatchOption};
ghost use Rattle.pb_moves.specs.Clocks.{record_after};
ghost use Rattle.pb_moves.specs.Legal.{Legal};
ghost use Rattle.pb_moves.specs.Moved.{Moved, IsMove};
ghost use Rattle.pb_moves.specs.Spelling.{spelling};

use pb_board::Fen;
use pb_moves::{Move, advance, legal_moves, read_move};
use std::alloc::{AllocError, Global};

/// The moves that may be played: a move is among them exactly if it is legal.
pub fn choices(alloc: Global, fen: &Fen) -> Result<Vec<Move>, AllocError>
    ensures { IfOk result (λ moves. (m : Moved) → Contains moves.items m ↔ Legal fen.now.setup m) }
{
    legal_moves(alloc, &fen.setup())
}

/// The record after the move that the text spells. None exactly where it spells no move, or one
/// that isn't legal.
pub fn after(fen: &Fen, text: &[u8]) -> Option<Fen>
    ensures { MatchOption result
        (((m : Moved) → IsMove m → text.now ≢ spelling m)
        ⊎ ((m : Moved) × (text.now ≡ spelling m) × ¬ Legal fen.now.setup m))
        (λ next. (m : Moved) × (text.now ≡ spelling m) × Legal fen.now.setup m
        × (next ≡ record_after fen.now m)) }
{
    advance(fen, read_move(text)?)
}
