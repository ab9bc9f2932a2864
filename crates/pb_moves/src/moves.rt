//! Moves: two squares and a promotion, as a value, a number and a text.

ghost use Rattle.std.specs.Prelude.{◌≡◌, ◌≢◌, ℕ, ◌<◌, ◌/◌, ◌%◌, ◌↔◌, IsTrue, MatchOption};
ghost use Rattle.std.specs.Option.{SomeIff, ForSome};
ghost use Rattle.pb_moves.specs.Moved.{promotion_of as promotion_by, Moved, IsMove};
ghost use Rattle.pb_moves.specs.Spelling.{spelling};
ghost use Rattle.pb_board.specs.Text.{square_text};

use pb_board::{Kind, Square, Text};
use std::marker::Model;

/// A move from one square to another, with the piece that a pawn becomes on the last rank.
///
/// Castling is the king's move, as e1g1. The two squares differ, and a promotion is to a knight, a
/// bishop, a rook or a queen. Whether the move is legal depends on the setup.
#[derive(Clone, Copy, Debug, PartialEq, Eq, Hash)]
pub struct Move {
    // Games hold moves by the million.
    bits: u16,
}

impl Model for Move {
    ghost use Rattle.pb_moves.specs.Moved.{Moved};
    ghost use Rattle.pb_moves.specs.Packed.{IsPacked, packed, packed-back, unpacked};

    ghost Value = { Moved };

    ghost view = { λ m. unpacked m.bits };

    ghost inverse = { λ m. record { bits = packed m } };

    ghost inverse_ok = { λ m h. packed-back (λ n. record { bits = n }) m.bits h };

    ghost invariant = { λ m. IsPacked m.bits };
}

impl Move {
    ghost use Rattle.std.specs.Prelude.{◌+◌, ◌*◌};
    ghost use Rattle.pb_moves.specs.Moved.{IsPromotion, IsMove, moved_of, promotion_number};

    /// Makes the move between these squares, or none exactly where they are one square, or `promo`
    /// is a pawn or a king.
    #[inline]
    pub fn new(from: Square, to: Square, promo: Option<Kind>) -> Option<Move>
        ensures on_board { (from < 64) × (to < 64) }
        ensures made { SomeIff result ((from ≢ to) × ForSome promo IsPromotion)
            (moved_of from to promo) }
    {
        if from.index() == to.index() || matches!(promo, Some(Kind::Pawn | Kind::King)) {
            None
        } else {
            let squares = u16::from(to.index()) + 64 * u16::from(from.index());
            let bits = squares + 4096 * promo.map_or(0, |kind| kind as u16);
            Some(Move { bits })
        }
    }

    #[inline(always)]
    pub(crate) fn plain(from: u8, to: u8) -> Option<Move>
        requires leaves { from < 64 }
        requires reaches { to < 64 }
        ensures { SomeIff result (from ≢ to) (moved_of from to None) }
    {
        if from == to {
            None
        } else {
            let bits = u16::from(to) + 64 * u16::from(from);
            Some(Move { bits })
        }
    }

    /// Gives the square that the move leaves.
    #[inline]
    pub fn from(self) -> Square
        ensures value { result ≡ self.from }
        ensures on_board { result < 64 }
        ensures rules { IsMove self }
    {
        Square::from_index((self.bits / 64 % 64) as u8).unwrap()
    }

    /// Gives the square that the move reaches.
    #[inline]
    pub fn to(self) -> Square
        ensures value { result ≡ self.to }
        ensures on_board { result < 64 }
    {
        Square::from_index((self.bits % 64) as u8).unwrap()
    }

    /// Gives the move as a number below 2^15: the square that it reaches, 64 times the square that
    /// it leaves, and 4,096 times the promotion (none, knight, bishop, rook, queen from 0).
    #[inline]
    pub fn bits(self) -> u16
        ensures { result ≡ self.to + 64 * self.from + 4096 * promotion_number self.promo }
    {
        self.bits
    }

    /// Gives what the pawn becomes, where the move promotes.
    #[inline]
    pub fn promo(self) -> Option<Kind>
        ensures { result ≡ self.promo }
    {
        promotion_of(self.bits / 4096)
    }
}

/// Gives the promotion of this number, or none where it is 0 or above 4.
#[inline]
pub fn promotion_of(number: u16) -> Option<Kind>
    ensures { result ≡ promotion_by number }
{
    match number {
        1 => Some(Kind::Knight),
        2 => Some(Kind::Bishop),
        3 => Some(Kind::Rook),
        4 => Some(Kind::Queen),
        _ => None,
    }
}

/// The text of a move, four or five bytes of ASCII.
pub type MoveText = Text<5>;

impl Move {
    /// Spells the move: its two squares and the small letter of a promotion, as e2e4, e1g1 or
    /// e7e8q.
    pub fn text(self) -> MoveText
        ensures { result ≡ spelling self }
    {
        let (from, to) = (self.from(), self.to());
        let mut text = Text::new();
        text.push(b'a' + from.file());
        text.push(b'1' + from.rank());
        text.push(b'a' + to.file());
        text.push(b'1' + to.rank());
        if let Some(kind) = self.promo() {
            text.push(kind.letter());
        }
        text
    }
}

/// The bytes `a1a1`, little-endian.
const A1_A1: u32 = 0x3161_3161;

#[inline(always)]
fn are_below_8(bytes: u32) -> bool
    ensures { IsTrue result ↔ (bytes % 256 < 8) × (bytes / 256 % 256 < 8)
        × (bytes / 65536 % 256 < 8) × (bytes / 16777216 < 8) }
{
    // All bits of each byte but its three lowest.
    bytes & 0xF8F8_F8F8 == 0
}

/// Reads four bytes as a move without a promotion. Gives none exactly where they spell no move.
#[inline(always)]
pub fn read_plain(bytes: [u8; 4]) -> Option<Move>
    ensures { MatchOption result
        ((m : Moved) → IsMove m → bytes ≢ spelling m)
        (λ m. IsMove m × (bytes ≡ spelling m)) }
{
    // File and rank left, file and rank reached, in a byte each. A letter or digit that names none
    // leaves a byte of 8 or more.
    let coordinates = u32::from_le_bytes(bytes).wrapping_sub(A1_A1);
    if !are_below_8(coordinates) {
        return None;
    }
    // A rank stands in the byte after its file's: this adds eight times the rank to the file.
    let squares = coordinates + coordinates / 32;
    Move::plain((squares % 64) as u8, (squares / 65536 % 64) as u8)
}

/// Reads a move in UCI notation: two squares and, for a promotion, a small n, b, r or q. Gives none
/// exactly where the bytes spell no move.
pub fn read_move(text: &[u8]) -> Option<Move>
    ensures { MatchOption result
        ((m : Moved) → IsMove m → text.now ≢ spelling m)
        (λ m. IsMove m × (text.now ≡ spelling m)) }
{
    match text {
        [a, b, c, d] => read_plain([*a, *b, *c, *d]),
        [a, b, c, d, e] => {
            let plain = read_plain([*a, *b, *c, *d])?;
            let promotion = Kind::of_letter(*e)?;
            Move::new(plain.from(), plain.to(), Some(promotion))
        }
        _ => None,
    }
}
