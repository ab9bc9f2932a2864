//! Keys of setups, and keys by what a move changes.

ghost use Rattle.std.specs.Prelude.{◌≡◌, ℕ, ◌<◌, ◌+◌, ◌==◌, ◌↔◌, slice_index};
ghost use Rattle.std.specs.Int.{bit_at};
ghost use Rattle.pb_board.specs.Piece.{colour_number};
ghost use Rattle.pb_board.specs.Board.{file, rank, at};
ghost use Rattle.pb_moves.specs.Attacks.{files_apart};
ghost use Rattle.pb_board.specs.Position.{IsSetup, OnEnPassantRank};
ghost use Rattle.pb_board.specs.Position.{double_stepped as double_stepped_by};
ghost use Rattle.pb_board.specs.Rights.{of_rights, only_if};
ghost use Rattle.pb_poly.specs.Key.{IsKey, en_passant_offsets, has_capturer as has_capturer_by};
ghost use Rattle.pb_poly.specs.Key.{key as key_by, piece_offset as piece_offset_by, piece_offsets};
ghost use Rattle.pb_poly.specs.KeyChange.{toggled, changed_offsets, going_offsets, moved_offsets};
ghost use Rattle.pb_poly.specs.KeyChange.{square_offsets, stepped_offsets};
ghost use Rattle.pb_poly.specs.Table.{IsTable};
ghost use Rattle.pb_moves.specs.Effect.{IsEffect};
ghost use Rattle.pb_moves.specs.Legal.{PseudoLegal};
ghost use Rattle.pb_moves.specs.Successor.{after as setup_after, rights_after};

use crate::table::Table;
use pb_board::{Colour, Kind, MovedPiece, Piece, Rights, Setup, Square};
use pb_moves::{Effect, Move, effect_of, touches_home};

/// The first offset of castling rights, which are in the order `KQkq`.
const CASTLING_START: usize = 768;

/// The first offset of en passant files.
const EN_PASSANT_START: usize = 772;

const FILE_A: u64 = 0x0101_0101_0101_0101;

const FILE_H: u64 = 0x8080_8080_8080_8080;

pub(crate) const WHITE_TO_MOVE: usize = 780;

#[inline(always)]
pub(crate) fn piece_offset(piece: Piece, square: usize) -> usize
    requires { square < 64 }
    ensures value { result ≡ piece_offset_by piece square }
    ensures few { result < 768 }
{
    // Of each kind the black pieces come first.
    let number = 2 * piece.kind as usize + 1 - piece.colour as usize;
    64 * number + square
}

fn pieces_key(table: &Table, board: &[Option<Piece>; 64]) -> u64
    ensures value { result ≡ toggled table.now 0 (piece_offsets board.now 0) }
    ensures rules { IsTable table.now }
{
    let randoms = table.randoms();
    let mut key = 0;
    for (square, content) in board.iter().enumerate() {
        if let Some(piece) = content {
            key ^= randoms[piece_offset(*piece, square)];
        }
    }
    key
}

/// Gives the random number at the offset where the flag is set, and 0 elsewhere.
#[inline(always)]
pub(crate) fn random_if(table: &Table, flag: bool, offset: usize) -> u64
    requires { offset < 781 }
    ensures { result ≡ toggled table.now 0 (only_if flag offset) }
{
    if flag { table.word(offset) } else { 0 }
}

pub(crate) fn rights_key(table: &Table, rights: Rights) -> u64
    ensures { result ≡ toggled table.now 0 (of_rights rights 768 769 770 771) }
{
    random_if(table, rights.white_short, CASTLING_START)
        ^ random_if(table, rights.white_long, CASTLING_START + 1)
        ^ random_if(table, rights.black_short, CASTLING_START + 2)
        ^ random_if(table, rights.black_long, CASTLING_START + 3)
}

fn double_stepped(turn: Colour, square: Square) -> u8
    requires { OnEnPassantRank turn square }
    ensures value { result ≡ double_stepped_by turn square }
    ensures on_board { result < 64 }
{
    match turn {
        Colour::White => square.index() - 8,
        Colour::Black => square.index() + 8,
    }
}

/// The squares beside this one, on the files next to its own.
#[inline(always)]
fn beside(square: u8) -> u64
    requires { square < 64 }
    ensures { (q : ℕ) → q < 64
        → ((bit_at result q ≡ 1) ↔ ((rank q ≡ rank square) × (files_apart q square ≡ 1))) }
{
    let bit = 1u64 << square;
    (bit & !FILE_H) << 1 | (bit & !FILE_A) >> 1
}

/// Which squares have a pawn can't be foretold, so one test is made of both.
#[inline(always)]
pub(crate) fn has_capturer(setup: &Setup, side: Colour, pawn: u8) -> bool
    requires { pawn < 64 }
    ensures { result ≡ has_capturer_by setup.now.board side pawn }
{
    let kind = Kind::Pawn;
    beside(pawn) & setup.by_piece(Piece { colour: side, kind }) != 0
}

#[inline(always)]
pub(crate) fn en_passant_offset(square: Square) -> usize
    ensures value { result ≡ 772 + file square }
    ensures few { result < 780 }
{
    EN_PASSANT_START + square.file() as usize
}

#[inline(always)]
pub(crate) fn en_passant_key(table: &Table, setup: &Setup) -> u64
    ensures value { result ≡ toggled table.now 0 (en_passant_offsets setup.now) }
    ensures rules { IsSetup setup.now }
{
    let turn = setup.turn();
    match setup.ep() {
        Some(square) => {
            let flag = has_capturer(setup, turn, double_stepped(turn, square));
            random_if(table, flag, en_passant_offset(square))
        }
        None => 0,
    }
}

fn turn_key(table: &Table, turn: Colour) -> u64
    ensures { result ≡ toggled table.now 0 (only_if (colour_number turn == 0) 780) }
{
    random_if(table, turn == Colour::White, WHITE_TO_MOVE)
}

/// Gives the key of a setup in PolyGlot books (its Zobrist hash): the exclusive or of the table's
/// randoms for its pieces, castling rights, en passant file and White to move. That of the file
/// counts where a pawn of the side to move stands beside the pawn that made the double step,
/// whether or not it may take it.
pub fn key_of(table: &Table, setup: &Setup) -> u64
    ensures parity { IsKey table.now setup.now result }
    ensures value { result ≡ key_by table.now setup.now }
{
    let pieces = pieces_key(table, &setup.board());
    let rights = rights_key(table, setup.rights());
    let en_passant = en_passant_key(table, setup);
    let turn = turn_key(table, setup.turn());
    pieces ^ rights ^ en_passant ^ turn
}

#[inline(always)]
fn piece_key(table: &Table, piece: Piece, square: Square) -> u64
    ensures { result ≡ slice_index table.now (piece_offset_by piece square) }
{
    table.word(piece_offset(piece, square.index() as usize))
}

/// A piece leaves a square, and what it then is arrives on another.
#[inline(always)]
fn going_key(table: &Table, leaving: Piece, moved: &MovedPiece) -> u64
    ensures { result ≡ toggled table.now 0 (going_offsets leaving moved.now) }
{
    piece_key(table, leaving, moved.from) ^ piece_key(table, moved.piece, moved.to)
}

#[inline(always)]
fn taken_key(table: &Table, before: &Setup, square: Square) -> u64
    ensures { result ≡ toggled table.now 0 (square_offsets (at before.now.board square) square) }
{
    match before.at(square) {
        Some(piece) => piece_key(table, piece, square),
        None => 0,
    }
}

#[inline(always)]
fn moved_key(table: &Table, before: &Setup, effect: &Effect) -> u64
    ensures { result ≡ toggled table.now 0 (moved_offsets before.now.board effect.now) }
{
    let first = going_key(table, effect.piece, &effect.first);
    let taken = taken_key(table, before, effect.first.to);
    let second = match effect.second {
        Some(second) => going_key(table, second.piece, &second),
        None => 0,
    };
    first ^ taken ^ second
}

#[inline(always)]
fn changed_key(table: &Table, m: Move, old: Rights, new: Rights) -> u64
    requires { new ≡ rights_after old m }
    ensures { result ≡ toggled table.now 0 (changed_offsets old new) }
{
    if !touches_home(m) {
        return 0;
    }
    let changed = Rights {
        white_short: old.white_short != new.white_short,
        white_long: old.white_long != new.white_long,
        black_short: old.black_short != new.black_short,
        black_long: old.black_long != new.black_long,
    };
    rights_key(table, changed)
}

#[inline(always)]
fn stepped_key(table: &Table, before: &Setup, to: Square, ep: Option<Square>) -> u64
    ensures { result ≡ toggled table.now 0 (stepped_offsets before.now to ep) }
{
    let Some(square) = ep else {
        return 0;
    };
    // The move leaves the squares beside this one as they were.
    let flag = has_capturer(before, before.turn().opponent(), to.index());
    random_if(table, flag, en_passant_offset(square))
}

/// Gives the key of the setup after a move, of the one before it, its key, and what the move does.
#[inline(always)]
pub fn key_next(table: &Table, key: u64, before: &Setup, m: Move, effect: &Effect) -> u64
    requires key { key ≡ key_by table.now before.now }
    requires effect { IsEffect before.now m effect.now }
    ensures parity { IsKey table.now (setup_after before.now m) result }
    ensures value { result ≡ key_by table.now (setup_after before.now m) }
{
    let moved = moved_key(table, before, effect);
    let changed = changed_key(table, m, before.rights(), effect.rights);
    let cleared = en_passant_key(table, before);
    let stepped = stepped_key(table, before, m.to(), effect.ep);
    key ^ moved ^ changed ^ cleared ^ stepped ^ table.word(WHITE_TO_MOVE)
}

/// Gives the key of the setup after a move, of the key of the setup before it.
pub fn key_after(table: &Table, key: u64, before: &Setup, m: Move, after: &Setup) -> u64
    requires key { key ≡ key_by table.now before.now }
    requires moves { PseudoLegal before.now m }
    requires after { after.now ≡ setup_after before.now m }
    ensures parity { IsKey table.now after.now result }
    ensures value { result ≡ key_by table.now after.now }
{
    match effect_of(before, m) {
        Some(effect) => key_next(table, key, before, m, &effect),
        None => key,
    }
}
