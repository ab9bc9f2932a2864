//! Submissions. Rows write a line with `|` for each TAB, a field `S` for the record of the start
//! position, and `#` for the number where `128*` in front of the line stands for so many lines, or
//! `%` for three ranks of pawns and knights that spell that number.

use pb_ledger::{Id, Line, MoveList, check_line};
use rows::moves::tell_moves;
use rows::page::{Done, NO_ROW, Page};
use rows::text::{START, times_of};
use std::alloc::{AllocError, Global};
use std::fmt::Write;

pub(crate) fn answer(page: &mut Page, call: &[&str]) -> Done {
    match call {
        [name @ ("check" | "parts"), text] => {
            match check_line(lines_of(page.alloc, text, 1)?.as_bytes()) {
                Ok(line) if *name == "parts" => return tell_line(page, &line),
                Ok(line) => page.put_count("moves: ", &line.plies()),
                Err(refusal) => page.put_refusal(&refusal),
            }
        }
        ["id", text] => match Id::new(text.as_bytes()) {
            Some(id) => page.put_bytes(id.as_bytes()),
            None => page.put("none"),
        },
        _ => return NO_ROW,
    }
    Ok(())
}

/// The lines that a text writes, with this number.
pub(crate) fn lines_of(alloc: Global, text: &str, number: u64) -> Result<String, AllocError> {
    let start = format!(in alloc; "\t{START}\t")?;
    let lines = text.replace(alloc, "|", "\t")?;
    let lines = lines.as_str().replace(alloc, "\tS\t", start.as_str())?;
    if !lines.as_str().contains('%') && !lines.as_str().contains('#') {
        return Ok(lines);
    }
    let digits = format!(in alloc; "{number}")?;
    let ranks = ranks_of(alloc, number)?;
    let lines = lines.as_str().replace(alloc, "%", ranks.as_str())?;
    lines.as_str().replace(alloc, "#", digits.as_str())
}

/// Three ranks of a record that spell a number in binary, from the lowest digit: a knight for each
/// 1 and a pawn for each 0.
fn ranks_of(alloc: Global, number: u64) -> Result<String, AllocError> {
    let mut ranks = String::new(alloc);
    let mut rest = number;
    for digit in 0..24_u32 {
        if digit % 8 == 0 && digit > 0 {
            ranks.push_str("/")?;
        }
        ranks.push_str(if rest % 2 == 1 { "N" } else { "P" })?;
        rest /= 2;
    }
    Ok(ranks)
}

/// The lines that arguments write, each with an LF but one that ends in `{end}`.
pub(crate) fn stream_of(alloc: Global, texts: &[&str]) -> Result<String, AllocError> {
    let mut stream = String::new(alloc);
    for text in texts {
        let (times, text) = times_of(text);
        for number in 1..=times {
            stream.push_str(lines_of(alloc, text, number)?.as_str())?;
            stream.push_str("\n")?;
        }
    }
    stream.as_str().replace(alloc, "{end}\n", "")
}

fn tell_line(page: &mut Page, line: &Line) -> Done {
    page.put_bytes(line.id().as_bytes());
    page.put(" ");
    page.put_bytes(line.id_bytes());
    let _ = write!(page, " {:?}\n", line.outcome());
    page.put_bytes(line.start().text().as_bytes());
    let _ = write!(page, "\nmoves: {} ", line.plies());
    let moves = MoveList::of(line.moves().collect(page.alloc)?);
    tell_moves(page, moves.as_slice());
    Ok(())
}
