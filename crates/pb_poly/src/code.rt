//! Move codes of PolyGlot books.

ghost use Rattle.std.specs.Prelude.{◌≡◌, MatchOption, Some, if◌then◌else◌};
ghost use Rattle.pb_board.specs.Piece.{king_of};
ghost use Rattle.pb_board.specs.Board.{at, is_piece};
ghost use Rattle.pb_board.specs.Position.{Position};
ghost use Rattle.pb_moves.specs.Effect.{IsEffect};
ghost use Rattle.pb_moves.specs.Moved.{Moved};
ghost use Rattle.pb_moves.specs.Successor.{is_castling, rook_home};
ghost use Rattle.pb_poly.specs.Decoding.{reached as reached_by};
ghost use Rattle.pb_poly.specs.Code.{HasCode, encode_move, encoded_to};

use pb_board::{Castling, Colour, Kind, Setup, Square};
use pb_moves::{Effect, Move, is_legal, promotion_of};

#[inline(always)]
fn has_own_king(setup: &Setup, square: Square) -> bool
    ensures { result ≡ is_piece (king_of setup.now.turn) (at setup.now.board square) }
{
    match setup.at(square) {
        Some(piece) => piece.kind == Kind::King && piece.colour == setup.turn(),
        None => false,
    }
}

/// The square that the code of a king's move names: of castling, its rook's home.
#[inline(always)]
fn coded_king_to(side: Colour, m: Move) -> Square
    ensures { result ≡ if is_castling side m then rook_home m else m.to }
{
    match Castling::of(m.from(), m.to()) {
        Some(castling) if castling.colour() == side => castling.squares().rook_from,
        _ => m.to(),
    }
}

#[inline(always)]
fn coded_to(setup: &Setup, m: Move) -> Square
    ensures { result ≡ encoded_to setup.now m }
{
    if has_own_king(setup, m.from()) {
        coded_king_to(setup.turn(), m)
    } else {
        m.to()
    }
}

#[inline(always)]
fn code_to(m: Move, to: Square) -> u16
    ensures { (s : Position) → to ≡ encoded_to s m → result ≡ encode_move s m }
{
    m.bits() - u16::from(m.to().index()) + u16::from(to.index())
}

/// Gives the code of a legal move in a PolyGlot book, below 2^15: `to + 64 * from + 4096 *
/// promotion`, where none, knight, bishop, rook and queen are 0 to 4. Castling is the king's move
/// to its rook, as e1h1.
#[inline(always)]
pub fn code_of(setup: &Setup, m: Move) -> u16
    ensures { result ≡ encode_move setup.now m }
{
    code_to(m, coded_to(setup, m))
}

/// Gives the code, as `code_of` does, of a move of which it is known what it does.
#[inline(always)]
pub fn code_by(m: Move, effect: &Effect) -> u16
    ensures { (s : Position) → IsEffect s m effect.now → result ≡ encode_move s m }
{
    if effect.piece.kind == Kind::King {
        code_to(m, coded_king_to(effect.piece.colour, m))
    } else {
        m.bits()
    }
}

fn reached(setup: &Setup, from: Square, to: Square) -> Square
    ensures { result ≡ reached_by setup.now from to }
{
    match Castling::from_home(from, to) {
        Some(castling) if castling.colour() == setup.turn() && has_own_king(setup, from) => {
            castling.squares().king_to
        }
        _ => to,
    }
}

/// The only move that the code may mean.
fn decoded(setup: &Setup, code: u16) -> Option<Move>
    ensures { (m : Moved) → HasCode setup.now m code → result ≡ Some m }
{
    let from = Square::from_index((code / 64 % 64) as u8)?;
    let to = Square::from_index((code % 64) as u8)?;
    Move::new(from, reached(setup, from, to), promotion_of(code / 4096))
}

/// Gives the one legal move with this code. None exactly where no legal move has it.
pub fn move_of(setup: &Setup, code: u16) -> Option<Move>
    ensures { MatchOption result
        ((m : Moved) → ¬ HasCode setup.now m code)
        (λ m. HasCode setup.now m code × ((n : Moved) → HasCode setup.now n code → n ≡ m)) }
{
    let m = decoded(setup, code)?;
    if code_of(setup, m) == code && is_legal(setup, m) {
        Some(m)
    } else {
        None
    }
}
