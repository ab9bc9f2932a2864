//! Writes FEN records.

ghost use Rattle.std.specs.Prelude.{◌≡◌, ◌≤◌, ◌<◌, ◌+◌, ◌*◌, ◌++◌, IfOk, decimal, drop, length};
ghost use Rattle.std.specs.Prelude.{take};
ghost use Rattle.pb_board.specs.Text.{piece_letter, empty_squares, rank_text, placement_text};
ghost use Rattle.pb_board.specs.Text.{turn_text, castling_text};
ghost use Rattle.pb_board.specs.Text.{en_passant_text, setup_text, fen_text};

use crate::fen::{Fen, FenBytes};
use crate::piece::{Colour, Piece};
use crate::setup::{Rights, Setup};
use crate::square::Square;
use crate::text::Text;
use std::alloc::{AllocError, Global};

fn letter_of(piece: Piece) -> u8
    ensures { result ≡ piece_letter piece }
{
    let small = piece.kind.letter();
    match piece.colour {
        Colour::White => small - 32,
        Colour::Black => small,
    }
}

/// Writes a rank of the setup's board. It is read off the bitboards, since listing the squares first
/// takes longer.
fn put_rank(out: &mut FenBytes, setup: &Setup, rank: u8)
    requires room { length out.old + 8 ≤ 93 }
    requires on_board { rank < 8 }
    ensures { out.new ≡ out.old ++ rank_text 0 (take 8 (drop (8 * rank) setup.now.board)) }
{
    let mut run = 0;
    for file in 0..8 {
        match setup.at(Square::new(file, rank).unwrap()) {
            Some(piece) => {
                put_run(out, run);
                run = 0;
                out.push(letter_of(piece));
            }
            None => run += 1,
        }
    }
    put_run(out, run);
}

fn put_run(out: &mut FenBytes, run: u8)
    requires room { length out.old + run ≤ 93 }
    requires small { run ≤ 8 }
    ensures { out.new ≡ out.old ++ empty_squares run }
{
    if run > 0 {
        out.push(b'0' + run);
    }
}

pub(crate) fn put_number(out: &mut FenBytes, number: u16)
    requires { length out.old + 5 ≤ 93 }
    ensures short { length (decimal number) ≤ 5 }
    ensures text { out.new ≡ out.old ++ decimal number }
{
    if number >= 10 {
        put_number(out, number / 10);
    }
    out.push(b'0' + (number % 10) as u8);
}

fn put_placement(out: &mut FenBytes, setup: &Setup)
    requires { length out.old ≡ 0 }
    ensures short { length (placement_text setup.now.board) ≤ 71 }
    ensures text { out.new ≡ out.old ++ placement_text setup.now.board }
{
    put_rank(out, setup, 7);
    for rank in (0..7).rev() {
        out.push(b'/');
        put_rank(out, setup, rank);
    }
}

fn put_rights(out: &mut FenBytes, rights: Rights)
    requires { length out.old + 4 ≤ 93 }
    ensures short { length (castling_text rights) ≤ 4 }
    ensures text { out.new ≡ out.old ++ castling_text rights }
{
    if !(rights.white_short || rights.white_long || rights.black_short || rights.black_long) {
        out.push(b'-');
        return;
    }
    if rights.white_short {
        out.push(b'K');
    }
    if rights.white_long {
        out.push(b'Q');
    }
    if rights.black_short {
        out.push(b'k');
    }
    if rights.black_long {
        out.push(b'q');
    }
}

fn put_en_passant(out: &mut FenBytes, ep: Option<Square>)
    requires { length out.old + 2 ≤ 93 }
    ensures short { length (en_passant_text ep) ≤ 2 }
    ensures text { out.new ≡ out.old ++ en_passant_text ep }
{
    match ep {
        Some(square) => {
            out.push(b'a' + square.file());
            out.push(b'1' + square.rank());
        }
        None => out.push(b'-'),
    }
}

fn put_turn(out: &mut FenBytes, turn: Colour)
    requires { length out.old < 93 }
    ensures { out.new ≡ out.old ++ turn_text turn }
{
    out.push(match turn {
        Colour::White => b'w',
        Colour::Black => b'b',
    });
}

pub(crate) fn put_setup(out: &mut FenBytes, setup: &Setup)
    requires { length out.old ≡ 0 }
    ensures short { length (setup_text setup.now) ≤ 81 }
    ensures text { out.new ≡ out.old ++ setup_text setup.now }
{
    put_placement(out, setup);
    out.push(b' ');
    put_turn(out, setup.turn());
    out.push(b' ');
    put_rights(out, setup.rights());
    out.push(b' ');
    put_en_passant(out, setup.ep());
}

/// Gives the text of a record; `Fen::text` gives it without taking memory.
///
/// # Errors
///
/// There was no memory for the text.
pub fn write_fen(alloc: Global, fen: &Fen) -> Result<Vec<u8>, AllocError>
    ensures { IfOk result (λ v. v.items ≡ fen_text fen.now) }
{
    fen.text().as_bytes().to_vec(alloc)
}

/// Gives the first four fields of a record's text, with single spaces between.
///
/// # Errors
///
/// There was no memory for the text.
pub fn write_setup(alloc: Global, setup: &Setup) -> Result<Vec<u8>, AllocError>
    ensures { IfOk result (λ v. v.items ≡ setup_text setup.now) }
{
    let mut out = Text::new();
    put_setup(&mut out, setup);
    out.as_bytes().to_vec(alloc)
}
