//! Attackers of a square, by bitboards, and check.

ghost use Rattle.std.specs.Prelude.{◌≡◌, ◌≢◌, ℕ, ◌<◌, ◌↔◌, [], ◌∷◌, Some, None, IsTrue};
ghost use Rattle.pb_board.specs.Board.{Board, Holds};
ghost use Rattle.pb_board.specs.declared.piece.Colour.{Colour};
ghost use Rattle.pb_board.specs.declared.piece.Kind.{Kind};
ghost use Rattle.pb_board.specs.declared.piece.Kind.TheVariants.{Pawn};
ghost use Rattle.pb_board.specs.declared.piece.Piece.{Piece};
ghost use Rattle.pb_board.specs.Piece.{piece_of, opponent};
ghost use Rattle.pb_moves.specs.Successor.{Differs};
ghost use Rattle.pb_moves.specs.Attacks.{IsAttacked, InCheck, IsPlayable};
ghost use Rattle.pb_moves.specs.Attackers.{In, IsSight};
ghost use Rattle.pb_moves.specs.Candidate.{Aims};

use crate::attack::{between, pattern, targets};
use crate::board::square_at;
use pb_board::{Colour, Kind, Piece, Setup, Square};

/// The squares of all pieces and those of the attackers, on a setup's board or after a move of the
/// other side.
#[derive(Clone, Copy)]
pub(crate) struct Sight {
    occupied: u64,
    attackers: u64,
}

#[inline(always)]
pub(crate) fn sight_of(setup: &Setup, by: Colour) -> Sight
    ensures { IsSight setup.now.board setup.now.board by result }
{
    Sight {
        occupied: setup.occupied(),
        attackers: setup.by_colour(by),
    }
}

/// The squares from which a pawn of this colour attacks the square are those to which a pawn of the
/// other colour may go from it on a diagonal.
#[inline(always)]
fn pawns_from(colour: Colour, square: Square) -> u64
    ensures { (a : ℕ) → a < 64 → (In result a ↔ Aims colour Pawn a square) }
{
    let pawn = Piece {
        colour: colour.opponent(),
        kind: Kind::Pawn,
    };
    targets(pawn, square) & pattern(Kind::Bishop, square)
}

/// The squares of the pieces of either side that, were they of this one, would attack the square on
/// an empty board.
#[inline(always)]
fn pieces_from(setup: &Setup, by: Colour, square: Square) -> u64
    ensures { (a : ℕ) → a < 64 → (In result a ↔ ((colour : Colour) × (kind : Kind)
        × Holds setup.now.board a (piece_of colour kind) × Aims by kind a square)) }
{
    let queens = setup.by_kind(Kind::Queen);
    pawns_from(by, square) & setup.by_kind(Kind::Pawn)
        | pattern(Kind::Knight, square) & setup.by_kind(Kind::Knight)
        | pattern(Kind::Bishop, square) & (setup.by_kind(Kind::Bishop) | queens)
        | pattern(Kind::Rook, square) & (setup.by_kind(Kind::Rook) | queens)
        | pattern(Kind::King, square) & setup.by_kind(Kind::King)
}

#[inline(always)]
pub(crate) fn is_attacked(setup: &Setup, sight: Sight, square: Square, by: Colour) -> bool
    ensures { (b : Board) → IsSight setup.now.board b by sight
        → (IsTrue result ↔ IsAttacked b by square) }
{
    let mut rest = pieces_from(setup, by, square) & sight.attackers;
    while rest != 0 {
        let from = rest.trailing_zeros();
        if between(square_at(from as u8), square) & sight.occupied == 0 {
            return true;
        }
        rest &= !(1 << from);
    }
    false
}

impl Sight {
    /// What is seen after a piece of the other side has gone from one square to another.
    #[inline(always)]
    pub(crate) fn after(self, from: Square, to: Square) -> Sight
        requires { ¬ (from ≡ to) }
        ensures { (first old new : Board) (by : Colour) (piece own : Piece)
            → IsSight first old by self
            → Differs old new ((from, None) ∷ (to, Some piece) ∷ []) → piece.colour ≢ by
            → Holds old from own → own.colour ≢ by → IsSight first new by result }
    {
        let left = !(1u64 << from.index());
        let reached = 1u64 << to.index();
        Sight {
            occupied: self.occupied & left | reached,
            attackers: self.attackers & !reached,
        }
    }

    /// What is seen after a piece of the other side has gone from the board.
    #[inline(always)]
    pub(crate) fn without(self, from: Square) -> Sight
        ensures { (first old new : Board) (by : Colour) (own : Piece) → IsSight first old by self
            → Differs old new ((from, None) ∷ [])
            → Holds old from own → own.colour ≢ by → IsSight first new by result }
    {
        Sight {
            occupied: self.occupied & !(1u64 << from.index()),
            ..self
        }
    }
}

/// Tells whether some piece of this side attacks the square, whoever is to move.
pub fn attacked(setup: &Setup, square: Square, by: Colour) -> bool
    ensures { IsTrue result ↔ IsAttacked setup.now.board by square }
{
    is_attacked(setup, sight_of(setup, by), square, by)
}

/// Tells whether this side is in check.
pub fn in_check(setup: &Setup, side: Colour) -> bool
    ensures { IsTrue result ↔ InCheck setup.now.board side }
{
    attacked(setup, setup.king(side), side.opponent())
}

/// Tells whether the side that isn't to move isn't in check, as after each legal move.
pub fn playable(setup: &Setup) -> bool
    ensures { IsTrue result ↔ IsPlayable setup.now }
{
    !in_check(setup, setup.turn().opponent())
}
