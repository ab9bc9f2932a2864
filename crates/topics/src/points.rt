//! The points and plies that a ledger keeps, beside those counted again from its games, and
//! weights.

use crate::ledger::ledger_with;
use pb_board::Colour;
use pb_ledger::{Game, Ledger, ListTally, MapTally, Outcome, Row, Tally, scale};
use pb_moves::play;
use pb_poly::{Table, code_of, key_of};
use rows::page::{Done, NO_ROW, Page, Trouble};
use rows::text::{number_of, small_of};
use std::alloc::Global;
use std::fmt::Write;

const KEY: u64 = 5;

/// The answer to a call: whether the points and plies over each tally are those counted again; the
/// weight of so many points beside the most that a move of its key has; or rows made anew.
pub(crate) fn answer(page: &mut Page, call: &[&str]) -> Done {
    match call {
        ["recount", ends, lines @ ..] => {
            page.put_count("by map ", &recount::<MapTally>(page.alloc, ends, lines)?);
            let by_list = recount::<ListTally>(page.alloc, ends, lines)?;
            page.put_count(", by list ", &by_list);
            Ok(())
        }
        ["scale", count, greatest] => {
            let count = number_of(count);
            page.put_display(&scale(count, number_of(greatest).max(count)));
            Ok(())
        }
        ["ensure", "map", codes @ ..] => ensure_all::<MapTally>(page, codes),
        ["ensure", _, codes @ ..] => ensure_all::<ListTally>(page, codes),
        _ => NO_ROW,
    }
}

/// Makes rows of these codes in a new tally: the answer to each, the points and the plies that its
/// row has then, and the codes of all rows.
fn ensure_all<T: Tally>(page: &mut Page, codes: &[&str]) -> Done {
    let mut tally = T::new(page.alloc);
    for word in codes {
        let code = small_of(word).min(0xffff) as u16;
        let answer = tally.ensure(KEY, code);
        let (points, plies) = (tally.points(KEY, code), tally.times(KEY, code));
        let _ = write!(page, "{code} {answer:?}, points {points}, plies {plies}\n");
    }
    page.put("rows");
    for row in &tally.rows(page.alloc)? {
        page.put_count(" ", &row.code);
    }
    Ok(())
}

/// Adds what each ply of a game gives.
fn add_game(rows: &mut Vec<Row>, table: &Table, game: &Game) -> Done {
    let mut setup = game.start.setup();
    for m in game.moves.as_slice() {
        let points = match (game.outcome, setup.turn()) {
            (Outcome::Draw, _) => 1,
            (Outcome::White, Colour::White) | (Outcome::Black, Colour::Black) => 2,
            _ => 0,
        };
        rows.push(Row {
            key: key_of(table, &setup),
            code: code_of(&setup, *m),
            points,
            times: 1,
        })?;
        setup = play(&setup, *m).ok_or(Trouble::Row)?;
    }
    Ok(())
}

fn rows_of<T: Tally>(alloc: Global, ledger: &Ledger<T>) -> Result<Vec<Row>, Trouble> {
    let mut rows = Vec::new(alloc);
    for number in 1..=ledger.len() {
        let (_, game) = ledger.get(number).ok_or(Trouble::Row)?;
        add_game(&mut rows, ledger.table(), game)?;
    }
    Ok(rows)
}

/// The points and the plies of all rows of a key and a code.
fn total_of(rows: &[Row], key: u64, code: u16) -> (u64, u64) {
    let (mut points, mut plies) = (0_u64, 0_u64);
    for row in rows {
        if row.key == key && row.code == code {
            points = points.wrapping_add(row.points);
            plies = plies.wrapping_add(row.times);
        }
    }
    (points, plies)
}

/// Whether the ledger tells the points and the occurrences of the games that are held after these
/// lines.
fn recount<T: Tally>(alloc: Global, ends: &str, lines: &[&str]) -> Result<bool, Trouble> {
    let ledger = ledger_with::<T>(alloc, ends, lines)?;
    let rows = rows_of(alloc, &ledger)?;
    for row in &rows {
        let (points, plies) = total_of(rows.as_slice(), row.key, row.code);
        if ledger.points(row.key, row.code) != points || ledger.times(row.key, row.code) != plies {
            return Ok(false);
        }
    }
    Ok(true)
}
