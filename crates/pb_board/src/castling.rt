//! The four castlings.

ghost use Rattle.std.specs.Prelude.{◌≡◌, ◌<◌};
ghost use Rattle.pb_board.specs.Castling.{castling_from_home, castling_of, castling_row};

use crate::piece::Colour;
use crate::setup::Rights;
use crate::square::Square;

/// Tells whose a castling is, and to which side of the board the king goes.
#[derive(Clone, Copy, Debug, PartialEq, Eq)]
pub enum Castling {
    /// White's on the king's side, e1g1.
    WhiteShort,
    /// White's on the queen's side, e1c1.
    WhiteLong,
    /// Black's on the king's side, e8g8.
    BlackShort,
    /// Black's on the queen's side, e8c8.
    BlackLong,
}

/// Holds the squares between which king and rook go.
#[derive(Clone, Copy, Debug, PartialEq, Eq)]
pub struct CastlingSquares {
    pub king_from: Square,
    pub king_to: Square,
    pub rook_from: Square,
    /// Where the rook arrives: the square that the king crosses.
    pub rook_to: Square,
}

impl Castling {
    /// Finds the castling whose king goes between these squares.
    #[inline(always)]
    pub fn of(from: Square, to: Square) -> Option<Castling>
        ensures { result ≡ castling_of from to }
    {
        match (from, to) {
            (Square::E1, Square::G1) => Some(Castling::WhiteShort),
            (Square::E1, Square::C1) => Some(Castling::WhiteLong),
            (Square::E8, Square::G8) => Some(Castling::BlackShort),
            (Square::E8, Square::C8) => Some(Castling::BlackLong),
            _ => None,
        }
    }

    /// Finds the castling whose king and rook begin on these squares.
    #[inline(always)]
    pub fn from_home(king: Square, rook: Square) -> Option<Castling>
        ensures { result ≡ castling_from_home king rook }
    {
        match (king, rook) {
            (Square::E1, Square::H1) => Some(Castling::WhiteShort),
            (Square::E1, Square::A1) => Some(Castling::WhiteLong),
            (Square::E8, Square::H8) => Some(Castling::BlackShort),
            (Square::E8, Square::A8) => Some(Castling::BlackLong),
            _ => None,
        }
    }

    /// Gives the side that castles so.
    #[inline(always)]
    pub fn colour(self) -> Colour
        ensures { result ≡ (castling_row self).colour }
    {
        match self {
            Castling::WhiteShort | Castling::WhiteLong => Colour::White,
            Castling::BlackShort | Castling::BlackLong => Colour::Black,
        }
    }

    /// Tells whether the rights have this castling.
    #[inline(always)]
    pub fn is_allowed(self, rights: Rights) -> bool
        ensures { result ≡ (castling_row self).right rights }
    {
        match self {
            Castling::WhiteShort => rights.white_short,
            Castling::WhiteLong => rights.white_long,
            Castling::BlackShort => rights.black_short,
            Castling::BlackLong => rights.black_long,
        }
    }

    /// Gives the squares between which king and rook go.
    #[inline(always)]
    pub fn squares(self) -> CastlingSquares
        ensures king_from { result.king_from ≡ (castling_row self).king_from }
        ensures king_to { result.king_to ≡ (castling_row self).king_to }
        ensures rook_from { result.rook_from ≡ (castling_row self).rook_from }
        ensures rook_to { result.rook_to ≡ (castling_row self).rook_to }
    {
        let (king_from, king_to, rook_from, rook_to) = match self {
            Castling::WhiteShort => (Square::E1, Square::G1, Square::H1, Square::F1),
            Castling::WhiteLong => (Square::E1, Square::C1, Square::A1, Square::D1),
            Castling::BlackShort => (Square::E8, Square::G8, Square::H8, Square::F8),
            Castling::BlackLong => (Square::E8, Square::C8, Square::A8, Square::D8),
        };
        CastlingSquares {
            king_from,
            king_to,
            rook_from,
            rook_to,
        }
    }
}
