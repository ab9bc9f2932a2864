//! The rules that every setup meets.

ghost use Rattle.std.specs.Prelude.{◌≡◌, ◌<◌, ◌↔◌, ℕ, IsTrue, Some, length};
ghost use Rattle.pb_board.specs.declared.piece.Colour.{Colour};
ghost use Rattle.pb_board.specs.Board.{Board, rank};
ghost use Rattle.pb_board.specs.Bitboards.{bitboards_of};
ghost use Rattle.pb_board.specs.Position.{EnPassantHolds, HasNoEdgePawn, IsOnlyKing};
ghost use Rattle.pb_board.specs.Position.{OnEnPassantRank};

use crate::bitboards::{self, Bitboards};
use crate::piece::{Colour, Kind, Piece};
use crate::square::Square;

pub(crate) fn has_one_king(bitboards: &Bitboards, colour: Colour) -> bool
    ensures { (b : Board) → bitboards.now ≡ bitboards_of b
        → (IsTrue result ↔ ((king : ℕ) × IsOnlyKing b colour king)) }
{
    let kind = Kind::King;
    let kings = bitboards::by_piece(bitboards, Piece { colour, kind });
    kings == 1 << (kings.trailing_zeros() % 64)
}

#[inline(always)]
pub(crate) fn only_king(bitboards: &Bitboards, colour: Colour) -> Square
    ensures { (b : Board) (king : ℕ) → bitboards.now ≡ bitboards_of b → IsOnlyKing b colour king
        → result ≡ king }
{
    let kind = Kind::King;
    let kings = bitboards::by_piece(bitboards, Piece { colour, kind });
    // A bitboard that isn't 0 has less than 64 zeros, so the remainder changes nothing, and spares
    // a test.
    Square::from_index((kings.trailing_zeros() % 64) as u8).unwrap()
}

const EDGE_RANKS: u64 = 0xFF00_0000_0000_00FF;

pub(crate) fn has_no_edge_pawn(bitboards: &Bitboards) -> bool
    ensures { (b : Board) → length b ≡ 64 → bitboards.now ≡ bitboards_of b
        → (IsTrue result ↔ HasNoEdgePawn b) }
{
    bitboards::by_kind(bitboards, Kind::Pawn) & EDGE_RANKS == 0
}

pub(crate) fn en_passant_rank(turn: Colour) -> u8
    ensures is { (q : ℕ) → (rank q ≡ result) ↔ OnEnPassantRank turn q }
    ensures on_board { result < 8 }
{
    match turn {
        Colour::White => 5,
        Colour::Black => 2,
    }
}

pub(crate) fn is_en_passant_square(
    board: &[Option<Piece>; 64],
    turn: Colour,
    square: Square,
) -> bool
    requires { OnEnPassantRank turn square }
    ensures { IsTrue result ↔ EnPassantHolds board.now turn (Some square) }
{
    let square = square.index() as usize;
    let double_stepped = match turn {
        Colour::White => square - 8,
        Colour::Black => square + 8,
    };
    let pawn = Piece {
        colour: turn.opponent(),
        kind: Kind::Pawn,
    };
    board[square].is_none() && board[double_stepped] == Some(pawn)
}
