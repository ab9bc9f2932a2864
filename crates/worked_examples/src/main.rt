//! Worked examples over all crates, as data. Each line of the file `rows.txt` in the folder of the
//! run is a row: its name, a topic, a call and the call's arguments, with a TAB between each two.
//! Each line of its answer is printed after the row's name. The answers that are due stand in the
//! file `stdout` beside this crate's sources: they come from the standards, from worked tables and
//! from other programs, never from a run. Empty lines and lines that begin with `#` are skipped.
//! Where memory is wanting for a row, or the row names no call, `failed` and why comes after the
//! lines of its answer that had ended.
//!
//! `each` and two numbers in front of the topic stand for a row for each number from the first to
//! the last, which goes into the places of `{n}`. So does `fuses` for 0, 1, 2, .. up to the first
//! number with which no write fails. `digest` stands for the row after it, of whose long answer the
//! number of lines, a checksum, the first line and the last are told.
//!
//! The topic `run` runs the program `pbook` over the words that follow. What it prints comes after
//! the row's name in a line of its own. Standard input has its submissions, and the folder of the
//! run what it reads. The topic `words` has command lines, and compares the program's help with the
//! completions and the manual page, which lie there in `installed`. The topic `surface` tells whether
//! the calls that another program is promised answer as they should. `topics` answers all others.
//! `make bench` has rows of its own for `bench`.
#![tactic(auto)]

mod words;

use library_uses::surface::surface;
use pb_program::run;
use rows::page::{Done, NO_ROW, Page};
use rows::runs::{each, fuses, tell_digest};
use rows::text::text_of;
use std::fs::File;
use std::io::{self, BufRead, BufReader};

fn answer(rt: &HostRuntime, page: &mut Page, topic: &str, call: &[&str]) -> Done {
    match topic {
        "words" => words::answer(rt, page, call),
        "surface" => {
            page.put(if surface(page.alloc)? {
                "true"
            } else {
                "false"
            });
            Ok(())
        }
        "run" => {
            page.put_count("status ", &run(rt, call));
            Ok(())
        }
        _ => topics::answer(rt, page, topic, call),
    }
}

fn print_row(rt: &HostRuntime, row: &str) -> io::Result<()> {
    let (name, call) = row.split_once('\t').unwrap_or((row, ""));
    if call.starts_with("run\t") {
        println!(rt; "{name}: run")?;
    }
    let mut page = Page::new(rt.alloc());
    match answer_row(rt, &mut page, call).and_then(|()| page.done()) {
        Ok(()) if page.as_str().is_empty() => println!(rt; "{name}: nothing"),
        Ok(()) => print_lines(rt, name, page.as_str()),
        Err(trouble) => {
            print_lines(rt, name, page.ended_lines())?;
            println!(rt; "{name}: failed {trouble:?}")
        }
    }
}

/// The answer to a row without its name, for each number where it says so.
fn answer_row(rt: &HostRuntime, page: &mut Page, row: &str) -> Done {
    match row.split_once('\t') {
        Some(("each", written)) => each(page, written, |page, row| answer_words(rt, page, row)),
        Some(("fuses", written)) => fuses(page, written, |page, row| answer_words(rt, page, row)),
        Some(("digest", written)) => {
            let mut answer = Page::new(page.alloc);
            answer_words(rt, &mut answer, written)?;
            answer.done()?;
            tell_digest(page, answer.as_str());
            Ok(())
        }
        _ => answer_words(rt, page, row),
    }
}

fn answer_words(rt: &HostRuntime, page: &mut Page, row: &str) -> Done {
    let mut texts = Vec::new(page.alloc);
    for word in row.split('\t') {
        texts.push(text_of(page.alloc, word)?)?;
    }
    let words: Vec<&str> = texts.iter().map(|text| text.as_str()).collect(page.alloc)?;
    let [topic, call @ ..] = words.as_slice() else {
        return NO_ROW
    };
    answer(rt, page, topic, call)
}

fn print_lines(rt: &HostRuntime, name: &str, text: &str) -> io::Result<()> {
    for line in text.lines() {
        if !line.is_empty() {
            println!(rt; "{name}: {line}")?;
        }
    }
    Ok(())
}

fn main(rt: HostRuntime) -> io::Result<()> {
    let rows = BufReader::new(rt.alloc(), File::open(&rt, "rows.txt")?)?;
    for row in rows.lines(rt.alloc()) {
        let row = row?;
        if !row.is_empty() && !row.as_str().starts_with('#') {
            print_row(&rt, row.as_str())?;
        }
    }
    Ok(())
}
