//! Which squares a piece attacks and reaches, and those on the way.

ghost use Rattle.std.specs.Prelude.{◌≡◌, ◌≢◌, ℕ, ◌<◌, ◌⊎◌, ◌↔◌, IsTrue, if◌then◌else◌};
ghost use Rattle.pb_board.specs.declared.piece.Kind.{Kind};
ghost use Rattle.pb_board.specs.declared.piece.Kind.TheVariants.{Pawn, Bishop, Rook, Queen};
ghost use Rattle.pb_board.specs.Board.{Board};
ghost use Rattle.pb_moves.specs.Attackers.{In};
ghost use Rattle.pb_moves.specs.Attacks.{Attacks, IsBetween, Pattern, files_apart, ranks_apart};
ghost use Rattle.pb_moves.specs.Candidate.{GoesTo, MayReach, MayTarget, target_row};

use crate::board::{has, is_empty};
use crate::target_tables::{BLACK_PAWN, TARGETS};
use pb_board::{Colour, Kind, Piece, Setup, Square};

/// The row of the piece in the table of targets.
#[inline(always)]
fn row(piece: Piece) -> usize
    ensures { result ≡ target_row piece.kind piece.colour }
{
    match piece {
        Piece {
            kind: Kind::Pawn,
            colour: Colour::Black,
        } => BLACK_PAWN,
        _ => piece.kind as usize,
    }
}

/// Where the piece may go from the square on an empty board, and a pawn also by a capture. Which
/// kind it is can't be foretold, so no branch is made of it.
#[inline(always)]
pub(crate) fn targets(piece: Piece, from: Square) -> u64
    ensures squares { (to : ℕ) → to < 64
        → (In result to ↔ MayTarget piece.colour piece.kind from to) }
    ensures on_board { from < 64 }
{
    TARGETS[row(piece)][from.index() as usize]
}

/// The squares that a piece of this kind, of either side, attacks on an empty board.
#[inline(always)]
pub(crate) fn pattern(kind: Kind, from: Square) -> u64
    requires { kind ≢ Pawn }
    ensures squares { (to : ℕ) → to < 64
        → (In result to ↔ Pattern kind (files_apart from to) (ranks_apart from to)) }
    ensures on_board { from < 64 }
{
    let colour = Colour::White;
    targets(Piece { colour, kind }, from)
}

/// The kind whose line may lead from one square to the other: a rook, else a bishop.
#[inline(always)]
fn line_kind(a: Square, b: Square) -> Kind
    ensures { let straight = Pattern Rook (files_apart a b) (ranks_apart a b) in
        ((result ≡ Rook) × straight) ⊎ ((result ≡ Bishop) × ¬ straight) }
{
    if has(pattern(Kind::Rook, a), b) {
        Kind::Rook
    } else {
        Kind::Bishop
    }
}

/// The squares between two, where a piece goes from one to the other. No branch is made of where
/// they stand: no square is on diagonals of both ends of a knight's move.
#[inline(always)]
pub(crate) fn between(a: Square, b: Square) -> u64
    ensures { (k : Kind) → Pattern k (files_apart a b) (ranks_apart a b) → (q : ℕ) → q < 64
        → (In result q ↔ Pattern Queen (files_apart a b) (ranks_apart a b) × IsBetween a q b) }
{
    let kind = line_kind(a, b);
    let up_to_one = (!0u64 << a.index()) ^ (!0u64 << b.index());
    pattern(kind, a) & pattern(kind, b) & up_to_one
}

/// A pawn takes on the diagonals and steps along its file.
#[inline(always)]
fn ways(kind: Kind, from: Square, takes: bool) -> u64
    ensures { (to : ℕ) → to < 64 → (In result to ↔ (kind ≡ Pawn
        → Pattern (if takes then Bishop else Rook) (files_apart from to) (ranks_apart from to))) }
{
    if kind == Kind::Pawn {
        pattern(if takes { Kind::Bishop } else { Kind::Rook }, from)
    } else {
        !0
    }
}

/// Whether the piece goes there: as it attacks, or as a pawn that steps to an empty square. The way
/// is looked at for those that jump too.
#[inline(always)]
pub(crate) fn reaches(piece: Piece, setup: &Setup, from: Square, to: Square) -> bool
    ensures { IsTrue result ↔ GoesTo piece setup.now.board from to }
{
    let takes = !is_empty(setup, to);
    let reached = targets(piece, from) & ways(piece.kind, from, takes);
    has(reached, to) & (between(from, to) & setup.occupied() == 0)
}

#[inline(always)]
pub(crate) fn pawn_takes(pawn: Piece, from: Square, to: Square) -> bool
    requires { pawn.kind ≡ Pawn }
    ensures { (b : Board) → IsTrue result ↔ Attacks pawn.colour pawn.kind b from to }
{
    has(targets(pawn, from) & pattern(Kind::Bishop, from), to)
}

/// The squares to one of which each legal move of the piece goes.
#[inline(always)]
pub(crate) fn candidates(piece: Piece, from: Square) -> u64
    ensures { (to : ℕ) → to < 64 → (In result to ↔ MayReach piece.colour piece.kind from to) }
{
    let squares = targets(piece, from);
    if piece.kind == Kind::King {
        squares | two_aside(from)
    } else {
        squares
    }
}

/// The squares two files aside, to which a king castles.
#[inline(always)]
fn two_aside(from: Square) -> u64
    ensures { (to : ℕ) → to < 64
        → (In result to ↔ ((files_apart from to ≡ 2) × (ranks_apart from to ≡ 0))) }
{
    let index = from.index();
    let rank = 0xffu64 << (index & 56);
    (1u64 << index << 2 | 1u64 << index >> 2) & rank
}
