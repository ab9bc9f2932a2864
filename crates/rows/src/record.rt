//! Squares, setups and FEN records.

use crate::moves::spelled;
use crate::page::{Done, NO_ROW, Page, Trouble};
use crate::text::number_of;
use pb_board::{
    Colour, Fen, FenError, Piece, Setup, Square, read_fen, read_setup, write_fen, write_setup,
};
use pb_moves::{Move, attacked, in_check, playable};
use std::fmt::Write;

/// Answers a call.
pub fn answer(page: &mut Page, call: &[&str]) -> Done {
    match call {
        ["read", text] => return read(page, text),
        ["fields", a, b, c, d] => {
            return read_fields(
                page,
                [a.as_bytes(), b.as_bytes(), c.as_bytes(), d.as_bytes()],
            );
        }
        ["look", record, squares @ ..] => return look(page, &setup_of(record)?, squares),
        ["build", en_passant, record, moves @ ..] => {
            return build(page, named(en_passant).ok(), &setup_of(record)?, moves);
        }
        ["square", index] => tell_square(page, Square::from_index(byte_of(index))),
        ["square", file, rank] => tell_square(page, Square::new(byte_of(file), byte_of(rank))),
        ["clocks", half, full] => {
            match Fen::new(Setup::start(), clock_of(half), clock_of(full)) {
                Some(fen) => return tell(page, &fen),
                None => page.put("none"),
            }
        }
        _ => return NO_ROW,
    }
    Ok(())
}

/// Reads the record of a text: `start` is the initial array as the library makes it.
pub fn record_of(record: &str) -> Result<Fen, Trouble> {
    if record == "start" {
        return Fen::new(Setup::start(), 0, 1).ok_or(Trouble::Row);
    }
    read_fen(record.as_bytes()).ok().ok_or(Trouble::Row)
}

/// Reads the setup of the record of a text.
pub fn setup_of(record: &str) -> Result<Setup, Trouble> {
    Ok(record_of(record)?.setup())
}

/// Why a record is refused, and the word for it.
fn tell_refusal(page: &mut Page, refusal: FenError) {
    page.put_refusal(&refusal);
    page.put_count(" ", &refusal.word());
}

/// The text that the record tells, as it is written, and its clocks.
fn tell(page: &mut Page, fen: &Fen) -> Done {
    page.put_bytes(fen.text().as_bytes());
    page.put("\n");
    page.put_bytes(write_fen(page.alloc, fen)?.as_slice());
    let _ = write!(page, "\nclocks {} {}", fen.half(), fen.full());
    Ok(())
}

fn read(page: &mut Page, text: &str) -> Done {
    match read_fen(text.as_bytes()) {
        Ok(fen) => return tell(page, &fen),
        Err(refusal) => tell_refusal(page, refusal),
    }
    Ok(())
}

/// Four fields read as a setup and written again, and whether it is the initial array.
fn read_fields(page: &mut Page, fields: [&[u8]; 4]) -> Done {
    match read_setup(fields) {
        Ok(setup) => {
            page.put_bytes(write_setup(page.alloc, &setup)?.as_slice());
            page.put_count("\nstart ", &(setup == Setup::start()));
        }
        Err(refusal) => tell_refusal(page, refusal),
    }
    Ok(())
}

/// The square of a name, as `e4`.
fn named(name: &str) -> Result<Square, Trouble> {
    let [file, rank] = name.as_bytes() else {
        return Err(Trouble::Row);
    };
    Square::new(file.wrapping_sub(b'a'), rank.wrapping_sub(b'1')).ok_or(Trouble::Row)
}

fn byte_of(word: &str) -> u8 {
    number_of(word).min(255) as u8
}

fn clock_of(word: &str) -> u16 {
    number_of(word).min(65_535) as u16
}

fn tell_square(page: &mut Page, square: Option<Square>) {
    let Some(square) = square else {
        page.put("none");
        return;
    };
    let (index, file, rank) = (square.index(), square.file(), square.rank());
    let _ = write!(page, "index {index} file {file} rank {rank}");
}

/// What a setup tells of itself, who is in check, and what stands on these squares and attacks
/// them.
fn look(page: &mut Page, setup: &Setup, squares: &[&str]) -> Done {
    tell_setup(page, setup);
    for name in squares {
        let square = named(name)?;
        let white = attacked(setup, square, Colour::White);
        let black = attacked(setup, square, Colour::Black);
        let piece = setup.at(square);
        let _ = write!(
            page,
            "{name} {piece:?}, attacked by White {white}, by Black {black}\n"
        );
    }
    Ok(())
}

fn tell_setup(page: &mut Page, setup: &Setup) {
    page.put_debug(&setup.turn());
    page.put(" to move, en passant ");
    page.put_debug(&setup.ep().map(|square| square.index()));
    page.put_count("\nkings ", &setup.king(Colour::White).index());
    page.put_count(" ", &setup.king(Colour::Black).index());
    page.put("\n");
    page.put_debug(&setup.rights());
    page.put_count("\nin check: White ", &in_check(setup, Colour::White));
    page.put_count(", Black ", &in_check(setup, Colour::Black));
    page.put_count("; playable ", &playable(setup));
    page.put("\n");
}

/// The setup of this one's fields, but for the en passant square and for what these moves, legal or
/// not, carry elsewhere.
fn build(page: &mut Page, ep: Option<Square>, setup: &Setup, moves: &[&str]) -> Done {
    let mut board = setup.board();
    for word in moves {
        carry(&mut board, spelled(word)?);
    }
    match Setup::build(board, setup.turn(), setup.rights(), ep) {
        Ok(setup) => page.put_bytes(write_setup(page.alloc, &setup)?.as_slice()),
        Err(refusal) => page.put_refusal(&refusal),
    }
    Ok(())
}

/// Carries what stands on the square that a move leaves to the one that it reaches.
fn carry(board: &mut [Option<Piece>; 64], m: Move) {
    board[m.to().index() as usize] = board[m.from().index() as usize].take();
}
