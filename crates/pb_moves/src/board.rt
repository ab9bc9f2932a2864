//! What stands on the squares of a setup.

ghost use Rattle.std.specs.Prelude.{◌≡◌, ◌<◌, ◌⊎◌, ◌↔◌, IsTrue};
ghost use Rattle.pb_board.specs.Board.{Holds, IsEmpty};
ghost use Rattle.pb_board.specs.Position.{IsSetup};
ghost use Rattle.pb_moves.specs.Attackers.{In};
ghost use Rattle.pb_moves.specs.Candidate.{AreOwn};
ghost use Rattle.pb_moves.specs.Legal.{IsCapturable};

use pb_board::{Kind, Piece, Setup, Square};

#[inline(always)]
pub(crate) fn has(set: u64, square: Square) -> bool
    ensures inside { IsTrue result ↔ In set square }
    ensures on_board { square < 64 }
{
    set >> square.index() & 1 == 1
}

#[inline(always)]
pub(crate) fn square_at(index: u8) -> Square
    requires { index < 64 }
    ensures { result ≡ index }
{
    Square::from_index(index).unwrap()
}

#[inline(always)]
pub(crate) fn own_squares(setup: &Setup) -> u64
    ensures own { AreOwn result setup.now }
    ensures rules { IsSetup setup.now }
{
    setup.by_colour(setup.turn())
}

/// Which of the two is the case can't be foretold, so one test tells both.
#[inline(always)]
pub(crate) fn is_target(setup: &Setup, square: Square) -> bool
    ensures value { IsTrue result ↔ (IsEmpty setup.now.board square
        ⊎ IsCapturable setup.now square) }
    ensures rules { IsSetup setup.now }
{
    let side = setup.turn();
    let colour = side.opponent();
    let kind = Kind::King;
    let king = setup.by_piece(Piece { colour, kind });
    !has(setup.by_colour(side) | king, square)
}

#[inline(always)]
pub(crate) fn is_empty(setup: &Setup, square: Square) -> bool
    ensures value { IsTrue result ↔ IsEmpty setup.now.board square }
    ensures rules { IsSetup setup.now }
{
    !has(setup.occupied(), square)
}

#[inline(always)]
pub(crate) fn holds(setup: &Setup, square: Square, piece: Piece) -> bool
    ensures { IsTrue result ↔ Holds setup.now.board square piece }
{
    has(setup.by_piece(piece), square)
}
