//! Laws of moves, each proved as the contract of a function that does nothing.

ghost use Rattle.std.specs.Prelude.{◌≡◌, ◌↔◌, List, [], ◌∷◌, codes, map};
ghost use Rattle.pb_board.specs.Equality.{IsEquality, IsEqualityWhere};
ghost use Rattle.pb_board.specs.Initial.{initial};
ghost use Rattle.pb_board.specs.Position.{IsSetup, Position, Record, record_of};
ghost use Rattle.pb_board.specs.Text.{fen_text};
ghost use Rattle.pb_moves.specs.Clocks.{record_after};
ghost use Rattle.pb_moves.specs.Legal.{Legal, PseudoLegal};
ghost use Rattle.pb_moves.specs.Listing.{ListsLegal};
ghost use Rattle.pb_moves.specs.Moved.{Moved, IsMove};
ghost use Rattle.pb_moves.specs.Played.{AreLegal, Plays};
ghost use Rattle.pb_moves.specs.Spelling.{spelling};
ghost use Rattle.pb_moves.specs.Successor.{IsAfter, after};
ghost use Rattle.pb_moves.specs.Worked.{e2e4, fools_mate, pawn_run, two_knights};

use crate::effect::Effect;
use crate::moves::{Move, MoveText};

/// The setup after a legal move of a setup meets the rules for setups.
pub fn after_is_setup()
    ensures { (s : Position) (m : Moved) → IsSetup s → Legal s m → IsSetup (after s m) }
{}

/// A setup is the one after a move exactly where it is so square by square. The move need only be
/// pseudo-legal, as `Legal` asks who is in check after it.
pub fn after_is()
    ensures { (s t : Position) (m : Moved) → IsSetup s → PseudoLegal s m
        → IsAfter s m t ↔ (t ≡ after s m) }
{}

/// A setup has one list of its legal moves.
pub fn one_list()
    ensures { (s : Position) (a b : List Moved) → ListsLegal s a → ListsLegal s b → a ≡ b }
{}

/// Moves are equal (`==`) exactly where they are one value, and their texts where the bytes are.
pub fn equal_moves()
    ensures moves { IsEqualityWhere IsMove ⟦<Move as PartialEq>⟧.eq }
    ensures effects { IsEquality ⟦<Effect as PartialEq>⟧.eq }
    ensures texts { IsEquality ⟦<MoveText as PartialEq>⟧.eq }
{}

/// In the initial array e2e4 and the moves of Fool's mate are legal. A double step, castling,
/// taking en passant and promotion lead to these records.
pub fn worked()
    ensures legal { Legal initial e2e4 }
    ensures text { fen_text (record_after (record_of initial 0 1) e2e4)
        ≡ codes "rnbqkbnr/pppppppp/8/8/4P3/8/PPPP1PPP/RNBQKBNR b KQkq e3 0 1" }
    ensures words { map spelling fools_mate
        ≡ codes "f2f3" ∷ codes "e7e5" ∷ codes "g2g4" ∷ codes "d8h4" ∷ [] }
    ensures mate { AreLegal initial fools_mate }
    ensures castling { (g : Record) × Plays (record_of initial 0 1) two_knights g × (fen_text g
        ≡ codes "r1bqkb1r/pppp1ppp/2n2n2/4p3/2B1P3/5N2/PPPP1PPP/RNBQ1RK1 b kq - 5 4") }
    ensures pawns { (g : Record) × Plays (record_of initial 0 1) pawn_run g × (fen_text g
        ≡ codes "rQbqkbnr/1p2pppp/8/8/p7/8/PPPP1PPP/RNBQKBNR b KQkq - 0 5") }
{}
