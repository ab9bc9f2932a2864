//! Bitboards: what stands on the squares of a board, as sets of squares.

ghost use Rattle.std.specs.Prelude.{◌≡◌, ◌<◌, ◌↔◌, ℕ, IsTrue, None, length, slice_set};
ghost use Rattle.std.specs.Int.{bit_at};
ghost use Rattle.pb_board.specs.Board.{Board, IsEmpty, Holds, at};
ghost use Rattle.pb_board.specs.Initial.{initial_board};
ghost use Rattle.pb_board.specs.MovedPiece.{with_moved, with_pieces_moved};
ghost use Rattle.pb_board.specs.Piece.{colour_number, kind_number, piece_of};
ghost use Rattle.pb_board.specs.Bitboards.{bitboards_of};
ghost use Rattle.pb_board.specs.declared.piece.Colour.{Colour};
ghost use Rattle.pb_board.specs.declared.piece.Kind.{Kind};
ghost use Rattle.pb_board.specs.declared.piece.Piece.{Piece};

use crate::piece::{Colour, Kind, Piece};
use crate::setup::MovedPiece;
use crate::square::Square;

/// Has kings for the numbers up to 7 that no kind has.
static KINDS: [Kind; 8] = [
    Kind::Pawn,
    Kind::Knight,
    Kind::Bishop,
    Kind::Rook,
    Kind::Queen,
    Kind::King,
    Kind::King,
    Kind::King,
];

/// Bit `i` stands for the square of index `i`.
#[derive(Clone, Copy, Debug, PartialEq, Eq, Hash)]
pub(crate) struct Bitboards {
    pub(crate) sides: [u64; 2],
    pub(crate) kinds: [u64; 6],
}

#[inline(always)]
fn set_down(bitboards: &mut Bitboards, index: u8, place: Option<Piece>)
    requires { index < 64 }
    ensures { (b : Board) → length b ≡ 64 → bitboards.old ≡ bitboards_of b → IsEmpty b index
        → bitboards.new ≡ bitboards_of (slice_set b index place) }
{
    if let Some(piece) = place {
        let bit = 1u64 << index;
        bitboards.sides[piece.colour as usize] |= bit;
        bitboards.kinds[piece.kind as usize] |= bit;
    }
}

#[inline(always)]
fn clear(bitboards: &mut Bitboards, index: u8)
    requires { index < 64 }
    ensures { (b : Board) → length b ≡ 64 → bitboards.old ≡ bitboards_of b
        → bitboards.new ≡ bitboards_of (slice_set b index None) }
{
    let others = !(1u64 << index);
    bitboards.sides[0] &= others;
    bitboards.sides[1] &= others;
    bitboards.kinds[0] &= others;
    bitboards.kinds[1] &= others;
    bitboards.kinds[2] &= others;
    bitboards.kinds[3] &= others;
    bitboards.kinds[4] &= others;
    bitboards.kinds[5] &= others;
}

#[inline(always)]
fn move_piece(bitboards: &mut Bitboards, moved: MovedPiece)
    ensures { (b : Board) → length b ≡ 64 → bitboards.old ≡ bitboards_of b
        → bitboards.new ≡ bitboards_of (with_moved b moved) }
{
    clear(bitboards, moved.from.index());
    clear(bitboards, moved.to.index());
    set_down(bitboards, moved.to.index(), Some(moved.piece));
}

#[inline(always)]
pub(crate) fn move_pieces(bitboards: &mut Bitboards, first: MovedPiece, second: Option<MovedPiece>)
    ensures { (b : Board) → length b ≡ 64 → bitboards.old ≡ bitboards_of b
        → bitboards.new ≡ bitboards_of (with_pieces_moved b first second) }
{
    move_piece(bitboards, first);
    if let Some(second) = second {
        move_piece(bitboards, second);
    }
}

pub(crate) fn bitboards_of(board: &[Option<Piece>; 64]) -> Bitboards
    ensures { result ≡ bitboards_of board.now }
{
    let mut bitboards = Bitboards {
        sides: [0; 2],
        kinds: [0; 6],
    };
    for index in 0..64u8 {
        set_down(&mut bitboards, index, board[index as usize]);
    }
    bitboards
}

#[inline(always)]
pub(crate) fn occupied(bitboards: &Bitboards) -> u64
    ensures { (b : Board) (q : ℕ) → bitboards.now ≡ bitboards_of b
        → ((bit_at result q ≡ 1) ↔ ¬ IsEmpty b q) }
{
    bitboards.sides[0] | bitboards.sides[1]
}

#[inline(always)]
pub(crate) fn by_colour(bitboards: &Bitboards, colour: Colour) -> u64
    ensures { (b : Board) (q : ℕ) → bitboards.now ≡ bitboards_of b
        → ((bit_at result q ≡ 1) ↔ ((k : Kind) × Holds b q (piece_of colour k))) }
{
    bitboards.sides[colour as usize]
}

#[inline(always)]
pub(crate) fn by_piece(bitboards: &Bitboards, piece: Piece) -> u64
    ensures { (b : Board) (q : ℕ) → bitboards.now ≡ bitboards_of b
        → ((bit_at result q ≡ 1) ↔ Holds b q piece) }
{
    bitboards.sides[piece.colour as usize] & bitboards.kinds[piece.kind as usize]
}

#[inline(always)]
pub(crate) fn by_kind(bitboards: &Bitboards, kind: Kind) -> u64
    ensures { (b : Board) (q : ℕ) → bitboards.now ≡ bitboards_of b
        → ((bit_at result q ≡ 1) ↔ ((c : Colour) × Holds b q (piece_of c kind))) }
{
    bitboards.kinds[kind as usize]
}

// A number, of which no branch is made.
#[inline(always)]
fn bit(squares: u64, index: u8) -> u64
    requires { index < 64 }
    ensures value { result ≡ bit_at squares index }
    ensures few { result < 2 }
{
    squares >> index & 1
}

#[inline(always)]
fn has(squares: u64, index: u8) -> bool
    requires { index < 64 }
    ensures { IsTrue result ↔ (bit_at squares index ≡ 1) }
{
    bit(squares, index) == 1
}

#[inline(always)]
fn colour_at(bitboards: &Bitboards, index: u8) -> Colour
    requires { index < 64 }
    ensures { (b : Board) (p : Piece) → bitboards.now ≡ bitboards_of b → Holds b index p
        → result ≡ p.colour }
{
    if has(bitboards.sides[1], index) {
        Colour::Black
    } else {
        Colour::White
    }
}

// Looked up, so no branch is made of it.
#[inline(always)]
fn kind_of(number: u64) -> Kind
    requires { number < 8 }
    ensures { (k : Kind) → number ≡ kind_number k → result ≡ k }
{
    KINDS[number as usize]
}

// Which kind it is can't be foretold, so it is made of the bits without a branch.
#[inline(always)]
pub(crate) fn kind_at(bitboards: &Bitboards, index: u8) -> Kind
    requires { index < 64 }
    ensures { (b : Board) (p : Piece) → bitboards.now ≡ bitboards_of b → Holds b index p
        → result ≡ p.kind }
{
    let [_, knights, bishops, rooks, queens, kings] = bitboards.kinds;
    let low = bit(knights | rooks | kings, index);
    let middle = bit(bishops | rooks, index);
    let high = bit(queens | kings, index);
    kind_of(low + 2 * middle + 4 * high)
}

#[inline(always)]
pub(crate) fn piece_at(bitboards: &Bitboards, index: u8) -> Option<Piece>
    requires { index < 64 }
    ensures { (b : Board) → bitboards.now ≡ bitboards_of b → result ≡ at b index }
{
    has(occupied(bitboards), index).then_some(Piece {
        colour: colour_at(bitboards, index),
        kind: kind_at(bitboards, index),
    })
}

pub(crate) fn board_of(bitboards: &Bitboards) -> [Option<Piece>; 64]
    ensures { (b : Board) → length b ≡ 64 → bitboards.now ≡ bitboards_of b → result ≡ b }
{
    let mut board = [None; 64];
    for index in 0..64u8 {
        board[index as usize] = piece_at(bitboards, index);
    }
    board
}

// Written down, since nearly all games start there.
pub(crate) fn initial_bitboards() -> Bitboards
    ensures { result ≡ bitboards_of initial_board }
{
    Bitboards {
        sides: [0x0000_0000_0000_FFFF, 0xFFFF_0000_0000_0000],
        kinds: [
            0x00FF_0000_0000_FF00,
            0x4200_0000_0000_0042,
            0x2400_0000_0000_0024,
            0x8100_0000_0000_0081,
            0x0800_0000_0000_0008,
            0x1000_0000_0000_0010,
        ],
    }
}
