//! The cases of a move: what each does, where it applies.

ghost use Rattle.std.specs.Prelude.{◌≡◌, MatchOption, unwrap_or};
ghost use Rattle.pb_board.specs.declared.piece.Kind.{Kind};
ghost use Rattle.pb_board.specs.declared.piece.Kind.TheVariants.{Pawn};
ghost use Rattle.pb_moves.specs.Candidate.{GoesAlone, IsOwn, Promotes, TakesEnPassant};
ghost use Rattle.pb_moves.specs.Legal.{PseudoLegal};
ghost use Rattle.pb_moves.specs.MovedPieces.{Finds};

use crate::attack::{pawn_takes, reaches};
use crate::board::{is_target, square_at};
use crate::effect::MovedPieces;
use crate::moves::Move;
use pb_board::{Colour, Kind, MovedPiece, Piece, Setup};

/// The kind on the target square. None where the promotion doesn't fit the rank.
#[inline(always)]
fn becomes(piece: Piece, m: Move) -> Option<Kind>
    ensures { let promotes = Promotes piece.colour m piece.kind in
        MatchOption result (¬ promotes) (λ k. promotes × (k ≡ unwrap_or m.promo piece.kind)) }
{
    let last_rank = match piece.colour {
        Colour::White => 7,
        Colour::Black => 0,
    };
    let promotes = (piece.kind == Kind::Pawn) & (m.to().rank() == last_rank);
    match m.promo() {
        Some(kind) => promotes.then_some(kind),
        None => (!promotes).then_some(piece.kind),
    }
}

/// A move that puts the piece alone elsewhere. Most moves pass both tests, so one branch is made of
/// them.
#[inline(always)]
pub(crate) fn usual_move(setup: &Setup, m: Move, piece: Piece) -> Option<MovedPieces>
    requires own { IsOwn setup.now m.from piece }
    ensures { Finds (PseudoLegal setup.now m × GoesAlone setup.now m piece) setup.now m result }
{
    let (from, to) = (m.from(), m.to());
    let goes = is_target(setup, to) & reaches(piece, setup, from, to);
    if !goes {
        return None;
    }
    let colour = piece.colour;
    let kind = becomes(piece, m)?;
    let piece = Piece { colour, kind };
    Some((MovedPiece { from, to, piece }, None))
}

/// The pawn goes by way of the square of the one that it takes.
pub(crate) fn en_passant(setup: &Setup, m: Move, pawn: Piece) -> Option<MovedPieces>
    requires own { IsOwn setup.now m.from pawn }
    requires pawn { pawn.kind ≡ Pawn }
    ensures { Finds (PseudoLegal setup.now m × TakesEnPassant setup.now m) setup.now m result }
{
    let (from, to) = (m.from(), m.to());
    let square = setup.ep();
    if m.promo().is_some() {
        return None;
    }
    match square {
        Some(ep) if ep.index() == to.index() && pawn_takes(pawn, from, to) => {
            let taken = square_at(8 * from.rank() + to.file());
            let first = MovedPiece {
                from,
                to: taken,
                piece: pawn,
            };
            let second = MovedPiece {
                from: taken,
                to,
                piece: pawn,
            };
            Some((first, Some(second)))
        }
        _ => None,
    }
}
