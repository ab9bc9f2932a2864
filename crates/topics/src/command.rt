//! Each command over the ends that a word of the row names, such as `input=reader:5 output=room:9`.
//! With `put=hidden` what was put isn't told, and with `next=told` the next three bytes of the
//! input are. Options are words of it too, as `plies=2 weight=3` of `tree`.

use crate::collecting::{self, Passed};
use crate::ends::{Output, fills_in, is_told, rules_in};
use crate::game::stream_of;
use pb_commands::{
    Fault, Stopped, answer_lookup, answer_tree, pick_games, run_check, run_epd, run_export,
    run_fen, run_probe, run_show, status,
};
use pb_poly::{FromRead, Source, ToWrite};
use rows::book::file_of;
use rows::ends::{NamedSource, end_of, source_in};
use rows::page::{Done, NO_ROW, Page};
use rows::text::{count_of, small_of};
use std::fmt::Write;
use std::io::Cursor;

const ROOM: usize = 128;

const FAULTS: [Fault; 4] = [Fault::Read, Fault::Write, Fault::Endless, Fault::Memory];

pub(crate) fn answer(page: &mut Page, call: &[&str]) -> Done {
    match call {
        ["status"] => statuses(page),
        ["faults"] => faults(page),
        ["epd-streams", text] => epd_streams(page, text),
        ["games", ends, lines @ ..] => return games(page, ends, lines),
        ["lookup", ends, table, count, rest @ ..] => {
            let (entries, lines) = rest.split_at(count_of(count).min(rest.len()));
            return read_all(page, ends, table, Some(entries), lines);
        }
        ["export", ends, table, lines @ ..] => return read_all(page, ends, table, None, lines),
        _ => return run(page, call),
    }
    Ok(())
}

/// The answer of a command with its status, and what was put.
fn tell(page: &mut Page, ends: &str, answer: Result<bool, Fault>, output: &Output) {
    tell_status(page, answer);
    if end_of(ends, "put", "told") == "told" {
        output.tell(page);
    }
}

fn tell_status(page: &mut Page, answer: Result<bool, Fault>) {
    let status = status(answer);
    let _ = write!(page, "{answer:?} status {status}\n");
}

/// The next three bytes of a source, where the word asks for them.
pub(crate) fn tell_next(page: &mut Page, ends: &str, source: &mut NamedSource<'_>) {
    if is_told(ends, "next") {
        let mut next = [0; 3];
        let filled = source.fill(&mut next);
        let _ = write!(page, "\n{filled:?} ");
        page.put_bytes(next.as_slice());
    }
}

fn statuses(page: &mut Page) {
    tell_status(page, Ok(true));
    tell_status(page, Ok(false));
    for fault in &FAULTS {
        tell_status(page, Err(*fault));
    }
}

fn faults(page: &mut Page) {
    for fault in &FAULTS {
        let word = fault.word();
        let _ = write!(page, "{fault:?}: {word}\n");
    }
}

/// A command over one input, or over a table and a book.
fn run(page: &mut Page, call: &[&str]) -> Done {
    let [name, ends, words @ ..] = call else {
        return NO_ROW
    };
    let alloc = page.alloc;
    let fills = fills_in(ends);
    let mut output = Output::of(alloc, ends, "output");
    let mut sink = ToWrite::new(&mut output);
    let answer = match (*name, words) {
        ("fen", [fen, moves @ ..]) => run_fen(alloc, fen.as_bytes(), moves, &mut sink),
        ("epd", [text]) => {
            let mut source = source_in(ends, "input", "reader:16", text.as_bytes());
            run_epd(alloc, &mut source, &mut sink, fills)
        }
        ("check", lines) => {
            let stream = stream_of(alloc, lines)?;
            let mut source = source_in(ends, "input", "reader:7", stream.as_bytes());
            run_check(alloc, &mut source, &mut sink, &mut (), fills)
        }
        ("show", entries) => {
            let file = file_of(alloc, entries)?;
            let mut source = source_in(ends, "input", "reader:1", file.as_bytes());
            run_show(alloc, &mut source, &mut sink, fills)
        }
        ("probe", [table, fen, entries @ ..]) => {
            let file = file_of(alloc, entries)?;
            let fen = fen.as_bytes();
            let mut table = source_in(ends, "table", "reader:1000", table.as_bytes());
            let mut book = source_in(ends, "input", "reader:3", file.as_bytes());
            run_probe(alloc, &mut table, &mut book, fen, &mut sink, fills)
        }
        ("tree", [table, fen, entries @ ..]) => {
            let file = file_of(alloc, entries)?;
            let fen = fen.as_bytes();
            let plies = small_of(end_of(ends, "plies", "4"));
            let least = small_of(end_of(ends, "weight", "0"));
            let mut table = source_in(ends, "table", "reader:1000", table.as_bytes());
            let mut book = source_in(ends, "input", "reader:3", file.as_bytes());
            unless_stopped(answer_tree(
                alloc, &mut table, &mut book, fen, plies, least, &mut sink, fills,
            ))
        }
        _ => return collecting::answer(page, call),
    };
    tell(page, ends, answer, &output);
    Ok(())
}

/// Whether the input was taken.
fn unless_stopped(answer: Result<bool, Stopped>) -> Result<bool, Fault> {
    match answer {
        Ok(all_taken) => Ok(all_taken),
        Err(Stopped::Refused(_)) => Ok(false),
        Err(Stopped::Fault(fault)) => Err(fault),
    }
}

/// The command `lookup` over a table, a book of these entries and lines, or `export` where there is
/// no book.
fn read_all(
    page: &mut Page,
    ends: &str,
    table: &str,
    book: Option<&[&str]>,
    lines: &[&str],
) -> Done {
    let alloc = page.alloc;
    let (rules, fills) = (rules_in(ends)?, fills_in(ends));
    let stream = stream_of(alloc, lines)?;
    let mut table = source_in(ends, "table", "reader:1000", table.as_bytes());
    let mut source = source_in(ends, "input", "reader:7", stream.as_bytes());
    let mut output = Output::of(alloc, ends, "output");
    let mut sink = ToWrite::new(&mut output);
    let answer = match book {
        Some(entries) => {
            let file = file_of(alloc, entries)?;
            let mut book = source_in(ends, "book", "reader:3", file.as_bytes());
            unless_stopped(answer_lookup(
                alloc,
                &mut table,
                &mut book,
                &mut source,
                &mut sink,
                fills,
            ))
        }
        None => run_export(alloc, rules, &mut table, &mut source, &mut sink, fills),
    };
    tell(page, ends, answer, &output);
    tell_next(page, ends, &mut source);
    Ok(())
}

/// The command `epd` over a reader and a writer of std.
fn epd_streams(page: &mut Page, text: &str) {
    let mut room = [0; ROOM];
    let answer = {
        let mut source = FromRead::new(text.as_bytes());
        let mut sink = ToWrite::new(Cursor::new(room.as_mut_slice()));
        run_epd(page.alloc, &mut source, &mut sink, u32::MAX)
    };
    tell_status(page, answer);
    page.put_bytes(room.as_slice());
}

/// The answer of `pick_games` over these lines, what it put, and which lines it skipped.
fn games(page: &mut Page, ends: &str, lines: &[&str]) -> Done {
    let stream = stream_of(page.alloc, lines)?;
    let mut source = source_in(ends, "input", "memory:64", stream.as_bytes());
    let mut output = Output::of(page.alloc, ends, "output");
    let mut passed = Passed::new(page.alloc);
    let mut sink = ToWrite::new(&mut output);
    let fills = fills_in(ends);
    let answer = pick_games(page.alloc, &mut source, &mut sink, &mut passed, fills);
    page.put_debug(&answer);
    output.tell_all(page);
    passed.tell_all(page, ends);
    Ok(())
}
