//! Sequences of legal moves that are counted and games that are played, so that a clock around the
//! program tells how fast that is.

use pb_board::Setup;
use pb_moves::{Move, legal_effect, legal_moves, play, try_play};
use pb_poly::{Table, key_next, key_of};
use rows::moves::{perft, tell_moves};
use rows::page::{Done, NO_ROW, Page, Trouble};
use rows::record::setup_of;
use rows::table::table_of;
use rows::text::{START, number_of, small_of, text_of};
use std::alloc::{AllocError, Global};
use std::fs::File;
use std::io::{self, BufWriter, Write};

/// How many plies a game has at most, and one that is submitted.
const PLIES: u32 = 200;

const SUBMITTED_PLIES: u32 = 80;

const RESULTS: [&str; 3] = ["1-0", "1/2-1/2", "0-1"];

pub(crate) fn answer(rt: &HostRuntime, page: &mut Page, call: &[&str]) -> Done {
    match call {
        ["perft", depth, record] => {
            let count = perft(page.alloc, &setup_of(record)?, small_of(depth))?;
            page.put_display(&count);
            Ok(())
        }
        ["games", count, times] => rounds(page, None, number_of(count), number_of(times)),
        ["keys", count, times] => {
            let table = table_of(page.alloc, text_of(page.alloc, "{powers}")?.as_str())?;
            rounds(page, Some(&table), number_of(count), number_of(times))
        }
        ["lines", count, path] => {
            write_lines(rt, number_of(count), path).map_err(|_fault| Trouble::Row)
        }
        _ => NO_ROW,
    }
}

/// The next number of a fixed sequence (a linear congruential generator of Knuth's).
fn next_number(seed: u64) -> u64 {
    seed.wrapping_mul(6_364_136_223_846_793_005)
        .wrapping_add(1_442_695_040_888_963_407)
}

/// A game of at most so many plies from the start position, each move chosen among the legal ones
/// by the next number.
fn choose_game(alloc: Global, seed: u64, plies: u32) -> Result<Vec<Move>, AllocError> {
    let mut game = Vec::new(alloc);
    let mut setup = Setup::start();
    let mut number = seed;
    for _ in 0..plies {
        let moves = legal_moves(alloc, &setup)?;
        number = next_number(number);
        if moves.is_empty() {
            return Ok(game);
        }
        let m = moves[(number >> 33) as usize % moves.len()];
        let Some(next) = play(&setup, m) else {
            return Ok(game);
        };
        game.push(m)?;
        setup = next;
    }
    Ok(game)
}

fn choose_games(alloc: Global, count: u64) -> Result<Vec<Vec<Move>>, AllocError> {
    let mut games = Vec::new(alloc);
    for seed in 0..count {
        games.push(choose_game(alloc, seed, PLIES)?)?;
    }
    Ok(games)
}

/// Plays the moves one after the other, and tells how many were legal.
fn play_game(game: &[Move]) -> u64 {
    let mut setup = Setup::start();
    let mut count: u64 = 0;
    for m in game {
        if !try_play(&mut setup, *m) {
            return count;
        }
        count = count.wrapping_add(1);
    }
    count
}

/// Plays the moves one after the other with their keys, and gives the key of the last setup.
fn key_of_game(table: &Table, game: &[Move]) -> u64 {
    let mut setup = Setup::start();
    let mut key = key_of(table, &setup);
    for m in game {
        match legal_effect(&setup, *m) {
            Some(effect) => {
                key = key_next(table, key, &setup, *m, &effect);
                effect.apply(&mut setup);
            }
            None => return key,
        }
    }
    key
}

/// Plays the games once, and adds up their plies, or the keys of their last setups where there is a
/// table.
fn play_games(table: Option<&Table>, games: &[Vec<Move>]) -> u64 {
    let mut sum: u64 = 0;
    for game in games {
        sum = sum.wrapping_add(match table {
            Some(table) => key_of_game(table, game.as_slice()),
            None => play_game(game.as_slice()),
        });
    }
    sum
}

/// Plays so many games so many times, and adds up the same.
fn rounds(page: &mut Page, table: Option<&Table>, count: u64, rounds: u64) -> Done {
    let games = choose_games(page.alloc, count)?;
    let mut sum: u64 = 0;
    for _ in 0..rounds {
        sum = sum.wrapping_add(play_games(table, games.as_slice()));
    }
    page.put_display(&sum);
    Ok(())
}

/// Writes so many games into a file, as submissions.
fn write_lines(rt: &HostRuntime, count: u64, path: &str) -> io::Result<()> {
    let mut out = BufWriter::new(rt.alloc(), File::create(rt, path)?)?;
    for seed in 0..count {
        let game = choose_game(rt.alloc(), seed, SUBMITTED_PLIES)?;
        let mut moves = Page::new(rt.alloc());
        tell_moves(&mut moves, game.as_slice());
        let (result, moves) = (RESULTS[(seed % 3) as usize], moves.as_str());
        let line = format!(in rt.alloc(); "g{seed}\t{result}\t{START}\t{moves}\n")?;
        out.write_all(line.as_str().as_bytes())?;
    }
    out.flush()
}
