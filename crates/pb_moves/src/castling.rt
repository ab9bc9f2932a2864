//! Castling.

ghost use Rattle.std.specs.Prelude.{◌≡◌, ◌↔◌, IsTrue};
ghost use Rattle.pb_board.specs.declared.piece.Kind.TheVariants.{King};
ghost use Rattle.pb_board.specs.Piece.{opponent};
ghost use Rattle.pb_board.specs.Castling.{castling_row};
ghost use Rattle.pb_board.specs.Position.{IsSetup};
ghost use Rattle.pb_moves.specs.Attacks.{Clear, IsAttacked};
ghost use Rattle.pb_moves.specs.Legal.{Castles, PseudoLegal};
ghost use Rattle.pb_moves.specs.Moved.{Moved};
ghost use Rattle.pb_moves.specs.Candidate.{IsOwn};
ghost use Rattle.pb_moves.specs.MovedPieces.{Finds};

use crate::attack::between;
use crate::board::holds;
use crate::check::attacked;
use crate::effect::MovedPieces;
use crate::moves::Move;
use pb_board::{Castling, Kind, MovedPiece, Piece, Setup};

fn way_is_clear(castling: Castling, setup: &Setup) -> bool
    ensures { let row = castling_row castling in
        IsTrue result ↔ Clear setup.now.board row.king_from row.rook_from }
{
    let squares = castling.squares();
    between(squares.king_from, squares.rook_from) & setup.occupied() == 0
}

fn way_is_safe(castling: Castling, setup: &Setup) -> bool
    ensures { let row = castling_row castling in let enemy = opponent row.colour in
        IsTrue result ↔ (¬ IsAttacked setup.now.board enemy row.king_from
        × ¬ IsAttacked setup.now.board enemy row.rook_to) }
{
    let squares = castling.squares();
    let enemy = castling.colour().opponent();
    !attacked(setup, squares.king_from, enemy) && !attacked(setup, squares.rook_to, enemy)
}

/// Whether the setup allows the castling, but for the square that the king reaches.
fn may_castle(castling: Castling, setup: &Setup) -> bool
    ensures rules { IsSetup setup.now }
    ensures allows { let row = castling_row castling in
        (m : Moved) → m.from ≡ row.king_from → m.to ≡ row.king_to
        → (IsTrue result ↔ Castles setup.now m) }
{
    let colour = castling.colour();
    let rook = Piece {
        colour,
        kind: Kind::Rook,
    };
    if setup.turn() != colour || !castling.is_allowed(setup.rights()) {
        return false;
    }
    if !holds(setup, castling.squares().rook_from, rook) {
        return false;
    }
    way_is_clear(castling, setup) && way_is_safe(castling, setup)
}

pub(crate) fn castles(setup: &Setup, m: Move, king: Piece) -> Option<MovedPieces>
    requires own { IsOwn setup.now m.from king }
    requires king { king.kind ≡ King }
    ensures { Finds (PseudoLegal setup.now m × Castles setup.now m) setup.now m result }
{
    let (from, to) = (m.from(), m.to());
    match Castling::of(from, to) {
        Some(castling) if m.promo().is_none() && may_castle(castling, setup) => {
            let squares = castling.squares();
            let rook = Piece {
                colour: castling.colour(),
                kind: Kind::Rook,
            };
            let first = MovedPiece {
                from,
                to,
                piece: king,
            };
            let second = MovedPiece {
                from: squares.rook_from,
                to: squares.rook_to,
                piece: rook,
            };
            Some((first, Some(second)))
        }
        _ => None,
    }
}
