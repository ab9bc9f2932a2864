//! The castling rights and the en passant square after a move.

ghost use Rattle.std.specs.Prelude.{◌≡◌, IsTrue};
ghost use Rattle.pb_board.specs.declared.setup.Rights.{Rights};
ghost use Rattle.pb_moves.specs.Successor.{en_passant_after as en_passant_by, touches};
ghost use Rattle.pb_moves.specs.Successor.{rights_after as rights_by};

use crate::board::{has, square_at};
use crate::moves::Move;
use pb_board::{Kind, Piece, Rights, Square};

/// The squares on which the kings and rooks begin that may castle.
const HOMES: u64 = 0x9100_0000_0000_0091;

#[inline(always)]
fn touches(m: Move, king: u8, rook: u8) -> bool
    ensures { result ≡ touches m king rook }
{
    let (from, to) = (m.from().index(), m.to().index());
    from == king || to == king || from == rook || to == rook
}

/// Few moves need it, so it isn't inlined.
#[inline(never)]
fn rights_left(rights: Rights, m: Move) -> Rights
    ensures { result ≡ rights_by rights m }
{
    Rights {
        white_short: rights.white_short && !touches(m, 4, 7),
        white_long: rights.white_long && !touches(m, 4, 0),
        black_short: rights.black_short && !touches(m, 60, 63),
        black_long: rights.black_long && !touches(m, 60, 56),
    }
}

/// Tells whether the move leaves or reaches a square on which a king or a rook begins that may
/// castle. The others change no rights.
#[inline(always)]
pub fn touches_home(m: Move) -> bool
    ensures { ¬ IsTrue result → (r : Rights) → rights_by r m ≡ r }
{
    // Most moves touch none of these squares, so one branch is made of both tests.
    has(HOMES, m.from()) | has(HOMES, m.to())
}

#[inline(always)]
pub(crate) fn rights_after(rights: Rights, m: Move) -> Rights
    ensures { result ≡ rights_by rights m }
{
    if touches_home(m) {
        rights_left(rights, m)
    } else {
        rights
    }
}

#[inline(always)]
pub(crate) fn en_passant_after(m: Move, piece: Piece) -> Option<Square>
    ensures { result ≡ en_passant_by m piece }
{
    let (from, to) = (m.from(), m.to());
    let is_double = (piece.kind == Kind::Pawn) & (from.rank().abs_diff(to.rank()) == 2);
    is_double.then_some(square_at((from.index() + to.index()) / 2))
}
