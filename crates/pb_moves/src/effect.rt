//! What a move does, looked up once.

ghost use Rattle.std.specs.Prelude.{◌≡◌, ◌↔◌, IsTrue, MatchOption};
ghost use Rattle.pb_moves.specs.Effect.{IsEffect};
ghost use Rattle.pb_moves.specs.Legal.{Legal, PseudoLegal};

use crate::legal::{is_safe, moved_by, own_piece};
use crate::moves::Move;
use crate::state_after::{en_passant_after, rights_after};
use pb_board::{MovedPiece, Piece, Rights, Setup, Square};

/// A piece that a move puts elsewhere, and another one where two go.
pub(crate) type MovedPieces = (MovedPiece, Option<MovedPiece>);

/// What a move does to a setup: the setup after it and the key of that are made of it.
#[derive(Clone, Copy, Debug, PartialEq, Eq)]
pub struct Effect {
    /// The piece that moves, as it was.
    pub piece: Piece,
    /// What arrives, and from where: alone, as what it is after the move.
    pub first: MovedPiece,
    /// What goes after it: the rook that castles, or the pawn that takes another en passant, which
    /// goes by way of that pawn's square.
    pub second: Option<MovedPiece>,
    /// The castling rights afterwards.
    pub rights: Rights,
    /// The en passant square afterwards.
    pub ep: Option<Square>,
}

/// Gives what the move does, or none exactly where it isn't legal, check apart.
#[inline(always)]
pub fn effect_of(setup: &Setup, m: Move) -> Option<Effect>
    ensures { MatchOption result (¬ PseudoLegal setup.now m) (IsEffect setup.now m) }
{
    let piece = own_piece(setup, m.from())?;
    let (first, second) = moved_by(setup, m, piece)?;
    Some(Effect {
        piece,
        first,
        second,
        rights: rights_after(setup.rights(), m),
        ep: en_passant_after(m, piece),
    })
}

/// Gives what the move does, or none exactly where it isn't legal.
#[inline(always)]
pub fn legal_effect(setup: &Setup, m: Move) -> Option<Effect>
    ensures { MatchOption result (¬ Legal setup.now m) (λ e.
        Legal setup.now m × IsEffect setup.now m e) }
{
    let effect = effect_of(setup, m)?;
    if is_safe(setup, m, effect.piece, (effect.first, effect.second)) {
        Some(effect)
    } else {
        None
    }
}

/// Tells whether the move is legal: a piece of the side to move makes it by the rules for its kind,
/// and that side isn't in check afterwards.
pub fn is_legal(setup: &Setup, m: Move) -> bool
    ensures { IsTrue result ↔ Legal setup.now m }
{
    legal_effect(setup, m).is_some()
}

impl Effect {
    ghost use Rattle.pb_moves.specs.Moved.{Moved};
    ghost use Rattle.pb_moves.specs.Successor.{after};

    /// Plays the move that does this, in place.
    #[inline(always)]
    pub fn apply(self, setup: &mut Setup)
        requires { (m : Moved) × IsEffect setup.old m self }
        ensures { (m : Moved) → IsEffect setup.old m self → setup.new ≡ after setup.old m }
    {
        setup.move_pieces(self.first, self.second, self.rights, self.ep);
    }
}
