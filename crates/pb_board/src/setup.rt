//! Setups: what the first four fields of a FEN record say.

ghost use Rattle.std.specs.Prelude.{◌≡◌, ◌↔◌, ℕ, IsTrue, MatchResult};

use crate::bitboards::{self, Bitboards, initial_bitboards};
use crate::piece::{Colour, Kind, Piece};
use crate::refusal::SetupError;
use crate::setup_rules::{
    en_passant_rank, has_no_edge_pawn, has_one_king, is_en_passant_square, only_king,
};
use crate::square::Square;
use std::marker::Model;

/// Holds the castling rights (PGN Standard 16.1.3.3), as they were given, even where the king or
/// the rook isn't at home.
#[derive(Clone, Copy, Debug, PartialEq, Eq, Hash)]
pub struct Rights {
    pub white_short: bool,
    pub white_long: bool,
    pub black_short: bool,
    pub black_long: bool,
}

impl Rights {
    const ALL: Rights = Rights {
        white_short: true,
        white_long: true,
        black_short: true,
        black_long: true,
    };
}

/// Names a piece that goes from one square to another, and takes what stood there.
#[derive(Clone, Copy, Debug, PartialEq, Eq)]
pub struct MovedPiece {
    pub from: Square,
    pub to: Square,
    pub piece: Piece,
}

/// Holds a board, the side to move, the castling rights and the en passant square, which meet the
/// rules of `SetupError`.
#[derive(Clone, Copy, Debug, PartialEq, Eq, Hash)]
pub struct Setup {
    bitboards: Bitboards,
    turn: Colour,
    rights: Rights,
    ep: Option<Square>,
}

impl Model for Setup {
    ghost use Rattle.pb_board.specs.SetupRules.{HasBitboards, bitboards-back};
    ghost use Rattle.pb_board.specs.Bitboards.{bitboards_of, board_of};
    ghost use Rattle.pb_board.specs.Position.{Position, position_of};

    ghost Value = { Position };

    ghost view = { λ s. position_of (board_of s.bitboards) s.turn s.rights s.ep };

    ghost invariant = { λ s. HasBitboards (position_of (board_of s.bitboards) s.turn s.rights
        s.ep) s.bitboards };

    ghost inverse = { λ p. record {
      bitboards = bitboards_of p.board;
      turn = p.turn;
      rights = p.rights;
      ep = p.ep;
    } };

    ghost inverse_ok = { λ s h. bitboards-back
        (λ m. record { bitboards = m; turn = s.turn; rights = s.rights; ep = s.ep })
        (position_of (board_of s.bitboards) s.turn s.rights s.ep) s.bitboards h };
}

impl Setup {
    ghost use Rattle.pb_board.specs.Board.{at, Holds, IsEmpty};
    ghost use Rattle.std.specs.Int.{bit_at};
    ghost use Rattle.pb_board.specs.Initial.{initial};
    ghost use Rattle.pb_board.specs.Piece.{opponent, piece_of};
    ghost use Rattle.pb_board.specs.declared.piece.Colour.{Colour};
    ghost use Rattle.pb_board.specs.declared.piece.Kind.{Kind};
    ghost use Rattle.pb_board.specs.declared.piece.Piece.{Piece};
    ghost use Rattle.pb_board.specs.Position.{IsSetup, IsOnlyKing, position_of};
    ghost use Rattle.pb_board.specs.MovedPiece.{with_pieces_moved};
    ghost use Rattle.pb_board.specs.Refusal.{IsFirstFault};

    /// Makes a setup, of a board by square index.
    ///
    /// # Errors
    ///
    /// The first of `Kings`, `Pawns` and `EnPassant` whose rule is broken.
    pub fn build(
        board: [Option<Piece>; 64],
        turn: Colour,
        rights: Rights,
        ep: Option<Square>,
    ) -> Result<Setup, SetupError>
        ensures { let p = position_of board turn rights ep in
            MatchResult result (λ s. (s ≡ p) × IsSetup p) (λ e. IsFirstFault e p) }
    {
        let bitboards = bitboards::bitboards_of(&board);
        if !has_one_king(&bitboards, Colour::White) || !has_one_king(&bitboards, Colour::Black) {
            return Err(SetupError::Kings);
        }
        if !has_no_edge_pawn(&bitboards) {
            return Err(SetupError::Pawns);
        }
        if let Some(square) = ep
            && !(square.rank() == en_passant_rank(turn)
                && is_en_passant_square(&board, turn, square))
        {
            return Err(SetupError::EnPassant);
        }
        Ok(Setup {
            bitboards,
            turn,
            rights,
            ep,
        })
    }

    /// Moves a piece in place, and then another one where two go: the other side is then to move,
    /// with these rights and this en passant square.
    #[inline(always)]
    pub fn move_pieces(
        &mut self,
        first: MovedPiece,
        second: Option<MovedPiece>,
        rights: Rights,
        ep: Option<Square>,
    )
        requires rules { IsSetup (position_of (with_pieces_moved self.old.board first second)
            (opponent self.old.turn) rights ep) }
        ensures { self.new ≡ position_of (with_pieces_moved self.old.board first second)
            (opponent self.old.turn) rights ep }
    {
        let next = self;
        bitboards::move_pieces(&mut next.bitboards, first, second);
        next.turn = next.turn.opponent();
        next.rights = rights;
        next.ep = ep;
    }

    /// Gives the initial array, with White to move and every castling open.
    pub fn start() -> Setup
        ensures { result ≡ initial }
    {
        Setup {
            bitboards: initial_bitboards(),
            turn: Colour::White,
            rights: Rights::ALL,
            ep: None,
        }
    }

    /// Tells whether it is `Setup::start()`.
    pub fn is_start(&self) -> bool
        ensures { IsTrue result ↔ (self.now ≡ initial) }
    {
        self.turn == Colour::White && *self == Setup::start()
    }

    /// Gives what stands on each square, by square index.
    pub fn board(&self) -> [Option<Piece>; 64]
        ensures { result ≡ self.now.board }
    {
        bitboards::board_of(&self.bitboards)
    }

    /// Gives what stands on the square.
    #[inline(always)]
    pub fn at(&self, square: Square) -> Option<Piece>
        ensures value { result ≡ at self.now.board square }
        ensures rules { IsSetup self.now }
    {
        bitboards::piece_at(&self.bitboards, square.index())
    }

    /// Gives the kind of what stands on the square, where something does.
    #[inline(always)]
    pub fn kind_at(&self, square: Square) -> Kind
        ensures { (piece : Piece) → Holds self.now.board square piece → result ≡ piece.kind }
    {
        bitboards::kind_at(&self.bitboards, square.index())
    }

    /// Gives the side to move.
    pub fn turn(&self) -> Colour
        ensures value { result ≡ self.now.turn }
        ensures rules { IsSetup self.now }
    {
        self.turn
    }

    /// Gives the castling rights.
    pub fn rights(&self) -> Rights
        ensures { result ≡ self.now.rights }
    {
        self.rights
    }

    /// Gives the en passant square, where there is one.
    pub fn ep(&self) -> Option<Square>
        ensures value { result ≡ self.now.ep }
        ensures rules { IsSetup self.now }
    {
        self.ep
    }

    /// Gives the squares on which something stands: bit `i` stands for the square of index `i`.
    #[inline(always)]
    pub fn occupied(&self) -> u64
        ensures squares { (q : ℕ) → (bit_at result q ≡ 1) ↔ ¬ IsEmpty self.now.board q }
        ensures rules { IsSetup self.now }
    {
        bitboards::occupied(&self.bitboards)
    }

    /// Gives the squares of this side's pieces, as `occupied` does.
    #[inline(always)]
    pub fn by_colour(&self, colour: Colour) -> u64
        ensures squares { (q : ℕ) → (bit_at result q ≡ 1)
            ↔ ((kind : Kind) × Holds self.now.board q (piece_of colour kind)) }
        ensures rules { IsSetup self.now }
    {
        bitboards::by_colour(&self.bitboards, colour)
    }

    /// Gives the squares of the pieces of this kind, as `occupied` does.
    #[inline(always)]
    pub fn by_kind(&self, kind: Kind) -> u64
        ensures { (q : ℕ) → (bit_at result q ≡ 1)
            ↔ ((colour : Colour) × Holds self.now.board q (piece_of colour kind)) }
    {
        bitboards::by_kind(&self.bitboards, kind)
    }

    /// Gives the squares of this piece, as `occupied` does.
    #[inline(always)]
    pub fn by_piece(&self, piece: Piece) -> u64
        ensures { (q : ℕ) → (bit_at result q ≡ 1) ↔ Holds self.now.board q piece }
    {
        bitboards::by_piece(&self.bitboards, piece)
    }

    /// Gives the square of this colour's king.
    pub fn king(&self, colour: Colour) -> Square
        ensures { IsOnlyKing self.now.board colour result }
    {
        only_king(&self.bitboards, colour)
    }
}
