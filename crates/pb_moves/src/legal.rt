//! Legal moves.

ghost use Rattle.std.specs.Prelude.{◌≡◌, ◌↔◌, IsTrue, MatchOption};
ghost use Rattle.pb_board.specs.declared.piece.Kind.TheVariants.{Pawn, King};
ghost use Rattle.pb_board.specs.declared.piece.Piece.{Piece};
ghost use Rattle.pb_board.specs.Piece.{opponent};
ghost use Rattle.pb_board.specs.MovedPiece.{with_pieces_moved};
ghost use Rattle.pb_board.specs.Position.{IsOnlyKing, IsSetup};
ghost use Rattle.pb_moves.specs.Candidate.{GoesInTwo, IsOwn};
ghost use Rattle.pb_moves.specs.Legal.{Legal, PseudoLegal};
ghost use Rattle.pb_moves.specs.MovedPieces.{Finds, Fits, LeadsTo};
ghost use Rattle.pb_moves.specs.Moved.{Moved};
ghost use Rattle.pb_moves.specs.Successor.{after};
ghost use Rattle.pb_moves.specs.Attackers.{IsSight};
ghost use Rattle.pb_moves.specs.Unpinned.{IsUnpinned};

use crate::board::{has, own_squares};
use crate::cases::{en_passant, usual_move};
use crate::castling::castles;
use crate::check::{Sight, is_attacked, sight_of};
use crate::effect::MovedPieces;
use crate::moves::Move;
use pb_board::{Kind, MovedPiece, Piece, Setup, Square};

#[inline(always)]
pub(crate) fn own_piece(setup: &Setup, square: Square) -> Option<Piece>
    ensures rules { IsSetup setup.now }
    ensures found { MatchOption result ((p : Piece) → ¬ IsOwn setup.now square p)
        (IsOwn setup.now square) }
{
    // One test tells that a piece stands there, and whose it is.
    has(own_squares(setup), square).then_some(Piece {
        colour: setup.turn(),
        kind: setup.kind_at(square),
    })
}

/// Few moves need it, so it isn't inlined.
#[inline(never)]
fn unusual_move(setup: &Setup, m: Move, piece: Piece) -> Option<MovedPieces>
    requires own { IsOwn setup.now m.from piece }
    ensures { Finds (PseudoLegal setup.now m × GoesInTwo setup.now m piece.kind) setup.now m result }
{
    match piece.kind {
        Kind::Pawn => en_passant(setup, m, piece),
        Kind::King => castles(setup, m, piece),
        _ => None,
    }
}

#[inline(always)]
pub(crate) fn moved_by(setup: &Setup, m: Move, piece: Piece) -> Option<MovedPieces>
    requires own { IsOwn setup.now m.from piece }
    ensures { Finds (PseudoLegal setup.now m) setup.now m result }
{
    match usual_move(setup, m, piece) {
        Some(moved) => Some(moved),
        None => unusual_move(setup, m, piece),
    }
}

#[inline(always)]
pub(crate) fn king_after(setup: &Setup, m: Move, piece: Piece) -> Square
    requires { IsOwn setup.now m.from piece }
    ensures { PseudoLegal setup.now m
        → IsOnlyKing (after setup.now m).board setup.now.turn result }
{
    let king = setup.king(setup.turn());
    if piece.kind == Kind::King {
        m.to()
    } else {
        king
    }
}

/// Whether the moves that put this piece alone elsewhere need no test of check: its king wouldn't
/// be attacked if it were gone.
#[inline(always)]
pub(crate) fn is_unpinned(setup: &Setup, enemy: Sight, from: Square, piece: Piece) -> bool
    requires own { IsOwn setup.now from piece }
    requires seen { IsSight setup.now.board setup.now.board (opponent setup.now.turn) enemy }
    ensures { IsTrue result → IsUnpinned setup.now from piece }
{
    if piece.kind == Kind::King {
        return false;
    }
    let side = setup.turn();
    !is_attacked(
        setup,
        enemy.without(from),
        setup.king(side),
        side.opponent(),
    )
}

/// What is seen of the enemy after the pieces have gone.
#[inline(always)]
fn sight_after(setup: &Setup, first: MovedPiece, second: Option<MovedPiece>) -> Sight
    requires { (m : Moved) × ((p : Piece) × IsOwn setup.now m.from p)
        × Fits setup.now m first second }
    ensures { IsSight setup.now.board (with_pieces_moved setup.now.board first second)
        (opponent setup.now.turn) result }
{
    let sight = sight_of(setup, setup.turn().opponent());
    let between = sight.after(first.from, first.to);
    match second {
        Some(second) => between.after(second.from, second.to),
        None => between,
    }
}

#[inline(always)]
pub(crate) fn is_safe(setup: &Setup, m: Move, piece: Piece, moved: MovedPieces) -> bool
    requires own { IsOwn setup.now m.from piece }
    requires leads { PseudoLegal setup.now m × LeadsTo setup.now m moved }
    ensures { IsTrue result ↔ Legal setup.now m }
{
    let (first, second) = moved;
    let sight = sight_after(setup, first, second);
    let enemy = setup.turn().opponent();
    !is_attacked(setup, sight, king_after(setup, m, piece), enemy)
}

#[inline(always)]
pub(crate) fn is_legal_for(setup: &Setup, m: Move, piece: Piece, unpinned: bool) -> bool
    requires own { IsOwn setup.now m.from piece }
    requires unpinned { IsTrue unpinned → IsUnpinned setup.now m.from piece }
    ensures { IsTrue result ↔ Legal setup.now m }
{
    match moved_by(setup, m, piece) {
        Some((_, None)) if unpinned => true,
        Some(moved) => is_safe(setup, m, piece, moved),
        None => false,
    }
}
