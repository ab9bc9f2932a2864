//! Playing a move.

ghost use Rattle.std.specs.Prelude.{◌≡◌, ◌↔◌, IsTrue, IfSome};
ghost use Rattle.std.specs.Option.{SomeIff};
ghost use Rattle.pb_board.specs.Position.{IsSetup, IsRecord};
ghost use Rattle.pb_moves.specs.Legal.{Legal};
ghost use Rattle.pb_moves.specs.Successor.{after};
ghost use Rattle.pb_moves.specs.Clocks.{record_after};

use crate::board::{holds, is_empty};
use crate::effect::legal_effect;
use crate::moves::Move;
use pb_board::{Colour, Fen, Kind, Piece, Setup};

/// Plays the move in place, where it is legal, and tells whether it is.
pub fn try_play(setup: &mut Setup, m: Move) -> bool
    ensures legal { IsTrue result ↔ Legal setup.old m }
    ensures played { IsTrue result → (setup.new ≡ after setup.old m) }
    ensures setup { IsTrue result → IsSetup setup.new }
    ensures refused { ¬ IsTrue result → (setup.new ≡ setup.old) }
{
    match legal_effect(setup, m) {
        Some(effect) => {
            effect.apply(setup);
            true
        }
        None => false,
    }
}

/// Gives the setup after the move, or none exactly where the move isn't legal. An en passant square
/// stands after each double step of a pawn, whether or not an enemy pawn can use it (PGN Standard
/// 16.1.3.4).
pub fn play(setup: &Setup, m: Move) -> Option<Setup>
    ensures played { SomeIff result (Legal setup.now m) (after setup.now m) }
    ensures setup { IfSome result IsSetup }
{
    let mut next = *setup;
    if try_play(&mut next, m) {
        Some(next)
    } else {
        None
    }
}

/// Gives the record after the move, or none exactly where the move isn't legal. The clocks go on by
/// PGN Standard 16.1.3.5 and 16.1.3.6; either stays at 65,535 once it is there.
pub fn advance(fen: &Fen, m: Move) -> Option<Fen>
    ensures played { SomeIff result (Legal fen.now.setup m) (record_after fen.now m) }
    ensures record { IfSome result IsRecord }
{
    let setup = fen.setup();
    let next = play(&setup, m)?;
    let pawn = Piece {
        colour: setup.turn(),
        kind: Kind::Pawn,
    };
    let half = if holds(&setup, m.from(), pawn) || !is_empty(&setup, m.to()) {
        0
    } else {
        fen.half().saturating_add(1)
    };
    let full = match setup.turn() {
        Colour::White => fen.full(),
        Colour::Black => fen.full().saturating_add(1),
    };
    Some(Fen::with_clocks(next, half, full))
}
