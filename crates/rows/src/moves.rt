//! Moves: their texts, which are legal, and what they lead to.

use crate::page::{Done, NO_ROW, Page, Trouble};
use crate::record::{record_of, setup_of};
use crate::text::small_of;
use pb_board::{Fen, Setup};
use pb_moves::{Move, advance, is_legal, legal_moves, play, read_move, try_play};
use std::alloc::{AllocError, Global};
use std::fmt::Write;

/// Answers a call.
pub fn answer(page: &mut Page, call: &[&str]) -> Done {
    match call {
        ["read", text] => tell_move(page, read_move(text.as_bytes())),
        ["list", record] => return list(page, &setup_of(record)?),
        ["count", depth, record] => return count(page, small_of(depth), &setup_of(record)?),
        ["legal", record, text] => legal(page, setup_of(record)?, spelled(text)?),
        ["play", record, moves @ ..] => return play_all(page, record_of(record)?, moves),
        _ => return NO_ROW,
    }
    Ok(())
}

/// Reads the move that a text spells.
pub fn spelled(text: &str) -> Result<Move, Trouble> {
    read_move(text.as_bytes()).ok_or(Trouble::Row)
}

/// Tells the text of a move, if there is one.
pub fn tell_move(page: &mut Page, m: Option<Move>) {
    match m {
        Some(m) => page.put_bytes(m.text().as_bytes()),
        None => page.put("none"),
    }
}

/// Tells the texts of moves, with a space between each two.
pub fn tell_moves(page: &mut Page, moves: &[Move]) {
    for (number, m) in moves.iter().enumerate() {
        if number > 0 {
            page.put(" ");
        }
        page.put_bytes(m.text().as_bytes());
    }
}

/// The legal moves in their order, each of which is legal by itself.
fn list(page: &mut Page, setup: &Setup) -> Done {
    let moves = legal_moves(page.alloc, setup)?;
    if !moves.iter().all(|m| is_legal(setup, *m)) {
        return NO_ROW;
    }
    tell_moves(page, moves.as_slice());
    Ok(())
}

/// Counts the sequences of so many legal moves, one at least.
pub fn perft(alloc: Global, setup: &Setup, depth: u32) -> Result<u64, AllocError> {
    let moves = legal_moves(alloc, setup)?;
    if depth <= 1 {
        return Ok(moves.len() as u64);
    }
    let mut count: u64 = 0;
    for m in &moves {
        if let Some(next) = play(setup, *m) {
            count = count.wrapping_add(perft(alloc, &next, depth - 1)?);
        }
    }
    Ok(count)
}

fn count(page: &mut Page, most: u32, setup: &Setup) -> Done {
    page.put_display(&perft(page.alloc, setup, 1)?);
    for depth in 2..=most {
        page.put_count(" ", &perft(page.alloc, setup, depth)?);
    }
    Ok(())
}

/// Whether a move is legal, and whether it is played, on a setup of its own and in place.
fn legal(page: &mut Page, setup: Setup, m: Move) {
    let after = play(&setup, m);
    let mut board = setup;
    let in_place = try_play(&mut board, m);
    let same = board == after.unwrap_or(setup);
    let (legal, played) = (is_legal(&setup, m), after.is_some());
    let _ = write!(
        page,
        "legal {legal}, played {played}, in place {in_place}, the same {same}"
    );
}

/// The record after these moves.
fn play_all(page: &mut Page, start: Fen, moves: &[&str]) -> Done {
    let mut fen = start;
    for text in moves {
        let Some(next) = advance(&fen, spelled(text)?) else {
            let _ = write!(page, "{text} isn't legal");
            return Ok(());
        };
        fen = next;
    }
    page.put_bytes(fen.text().as_bytes());
    Ok(())
}
