//! Laws of FEN records and their texts, and of equality (`==`) and order.

ghost use Rattle.std.specs.Prelude.{◌≡◌, ℕ, ◌↔◌, ◌≤◌, List, codes, length};
ghost use Rattle.pb_board.specs.Equality.{IsEquality, IsEqualityWhere};
ghost use Rattle.std.specs.Ordering.{nat_cmp, ordering_then};
ghost use Rattle.pb_board.specs.Position.{Position, Record, IsSetup, IsRecord, record_of};
ghost use Rattle.pb_board.specs.Board.{Place};
ghost use Rattle.pb_board.specs.Initial.{initial};
ghost use Rattle.pb_board.specs.Fields.{fields, space};
ghost use Rattle.pb_board.specs.Piece.{colour_number, kind_number};
ghost use Rattle.pb_board.specs.Ranks.{RankText};
ghost use Rattle.pb_board.specs.Refusal.{IsDueFen, IsFirstOf, fen_errors};
ghost use Rattle.pb_board.specs.Text.{fen_text, rank_text, setup_fields};
ghost use Rattle.pb_board.specs.declared.piece.Colour.{Colour};
ghost use Rattle.pb_board.specs.declared.piece.Kind.{Kind};
ghost use Rattle.pb_board.specs.declared.piece.Piece.{Piece};
ghost use Rattle.pb_board.specs.declared.refusal.FenError.{FenError};

use crate::castling::{Castling, CastlingSquares};
use crate::fen::{Fen, FenBytes};
use crate::piece::{Colour, Kind, Piece};
use crate::refusal::{FenError, SetupError};
use crate::setup::{MovedPiece, Rights, Setup};
use crate::square::Square;

/// No text has two records.
pub fn one_record()
    ensures { (f g : Record) (t : List ℕ) → IsRecord f → IsRecord g → t ≡ fen_text f
        → t ≡ fen_text g → f ≡ g }
{}

/// No four texts have two setups.
pub fn one_setup()
    ensures { (p q : Position) (four : List (List ℕ)) → IsSetup p → IsSetup q
        → four ≡ setup_fields p → four ≡ setup_fields q → p ≡ q }
{}

/// The text of a rank is the one that relates to its squares, byte by byte.
pub fn rank_text_is()
    ensures { (squares : List Place) (t : List ℕ) → length squares ≤ 8
        → RankText squares t ↔ (t ≡ rank_text 0 squares) }
{}

/// No refusal is due for a text of a record.
pub fn none_due()
    ensures { (f : Record) (t : List ℕ) (e : FenError) → IsRecord f → t ≡ fen_text f
        → ¬ IsFirstOf fen_errors (IsDueFen (fields space t)) e }
{}

/// No text is refused in two ways.
pub fn one_refusal()
    ensures { (texts : List (List ℕ)) (d e : FenError) → IsFirstOf fen_errors (IsDueFen texts) d
        → IsFirstOf fen_errors (IsDueFen texts) e → d ≡ e }
{}

/// Setups are equal (`==`) exactly where they are one position, and castling rights where each flag
/// is the same.
pub fn equal_setups()
    ensures setups { IsEqualityWhere IsSetup ⟦<Setup as PartialEq>⟧.eq }
    ensures rights { IsEquality ⟦<Rights as PartialEq>⟧.eq }
{}

/// Records are equal exactly where setup and clocks are the same, and their texts where the bytes
/// are.
pub fn equal_records()
    ensures records { IsEqualityWhere IsRecord ⟦<Fen as PartialEq>⟧.eq }
    ensures texts { IsEquality ⟦<FenBytes as PartialEq>⟧.eq }
{}

/// Squares, colours, kinds, pieces and moved pieces are equal exactly where they are the same.
pub fn equal_pieces()
    ensures squares { IsEquality ⟦<Square as PartialEq>⟧.eq }
    ensures colours { IsEquality ⟦<Colour as PartialEq>⟧.eq }
    ensures kinds { IsEquality ⟦<Kind as PartialEq>⟧.eq }
    ensures pieces { IsEquality ⟦<Piece as PartialEq>⟧.eq }
    ensures moved { IsEquality ⟦<MovedPiece as PartialEq>⟧.eq }
{}

/// Squares are in the order of their numbers, White is before Black, kinds go from pawn to king as
/// they are declared, and pieces are ordered by colour and then by kind.
pub fn ordered_pieces()
    ensures squares { (a b : ℕ) → ⟦<Square as Ord>⟧.cmp a b ≡ nat_cmp a b }
    ensures colours { (a b : Colour) → ⟦<Colour as Ord>⟧.cmp a b
        ≡ nat_cmp (colour_number a) (colour_number b) }
    ensures kinds { (a b : Kind) → ⟦<Kind as Ord>⟧.cmp a b
        ≡ nat_cmp (kind_number a) (kind_number b) }
    ensures pieces { (a b : Piece) → ⟦<Piece as Ord>⟧.cmp a b
        ≡ ordering_then (⟦<Colour as Ord>⟧.cmp a.colour b.colour)
        (⟦<Kind as Ord>⟧.cmp a.kind b.kind) }
{}

/// Castlings, and the squares between which king and rook go, are equal exactly where they are the
/// same.
pub fn equal_castlings()
    ensures castlings { IsEquality ⟦<Castling as PartialEq>⟧.eq }
    ensures squares { IsEquality ⟦<CastlingSquares as PartialEq>⟧.eq }
{}

/// Refusals of setups, and of records, are equal exactly where the cause is the same.
pub fn equal_errors()
    ensures setups { IsEquality ⟦<SetupError as PartialEq>⟧.eq }
    ensures records { IsEquality ⟦<FenError as PartialEq>⟧.eq }
{}

/// The initial array before the first move is a record, and has the text that players know.
pub fn worked()
    ensures is_record { IsRecord (record_of initial 0 1) }
    ensures text { fen_text (record_of initial 0 1)
        ≡ codes "rnbqkbnr/pppppppp/8/8/8/8/PPPPPPPP/RNBQKBNR w KQkq - 0 1" }
{}
