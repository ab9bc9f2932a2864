//! Books of entries.

use crate::ends::{front_of, named_source};
use crate::moves::tell_move;
use crate::page::{Done, NO_ROW, Page, Trouble};
use crate::record::setup_of;
use crate::table::table_of;
use crate::text::{fills_of, hexadecimal, times_of};
use pb_poly::{Book, Entry, MemSink, Sink, probe, read_book, write_book, write_entry};
use std::alloc::{AllocError, Global};
use std::fmt::Write;

/// Answers a call.
pub fn answer(page: &mut Page, call: &[&str]) -> Done {
    match call {
        ["read", source, fills, entries @ ..] => read(page, source, fills_of(fills), entries),
        ["of", entries @ ..] => of(page, entries),
        ["probe", table, record, entries @ ..] => tell_found(page, table, record, entries),
        _ => NO_ROW,
    }
}

/// The entry of a key, a code, a weight and a learn value in hexadecimal, each the greatest where
/// it is greater.
fn entry_of(text: &str) -> Entry {
    let mut words = text.split(' ');
    let mut next = || hexadecimal(words.next().unwrap_or(""));
    Entry {
        key: next(),
        code: next().min(0xffff) as u16,
        weight: next().min(0xffff) as u16,
        learn: next().min(0xffff_ffff) as u32,
    }
}

fn entries_of(alloc: Global, texts: &[&str]) -> Result<Vec<Entry>, AllocError> {
    texts.iter().map(|text| entry_of(text)).collect(alloc)
}

/// Makes the file of these entries, of which `128*# 1 1 0` writes 128, with keys whose hexadecimal
/// digits are those of the decimal numbers from 1. An argument without a space stands for bytes.
pub fn file_of(alloc: Global, entries: &[&str]) -> Result<MemSink, Trouble> {
    let mut file = MemSink::new(alloc);
    for text in entries {
        if text.contains(' ') {
            put_entries(alloc, &mut file, text)?;
        } else {
            file.put(text.as_bytes())?;
        }
    }
    Ok(file)
}

fn put_entries(alloc: Global, file: &mut MemSink, text: &str) -> Done {
    let (times, text) = times_of(text);
    for number in 1..=times {
        let digits = format!(in alloc; "{number}")?;
        let entry = text.replace(alloc, "#", digits.as_str())?;
        write_entry(file, &entry_of(entry.as_str()))?;
    }
    Ok(())
}

/// Tells the entries, a line each.
pub fn tell(page: &mut Page, book: &Book) {
    for entry in book.entries() {
        let Entry {
            key,
            code,
            weight,
            learn,
        } = *entry;
        let _ = write!(page, "{key:016x} {code:04x} {weight:04x} {learn:08x}\n");
    }
}

/// The entries that the source which a word names gives in so many fills over a file, and whether
/// they are written as that file.
fn read(page: &mut Page, source: &str, fills: u32, entries: &[&str]) -> Done {
    let file = file_of(page.alloc, entries)?;
    let bytes = front_of(source, file.as_bytes());
    let book = match read_book(page.alloc, &mut named_source(source, bytes), fills) {
        Ok(book) => book,
        Err(refusal) => {
            page.put_refusal(&refusal);
            return Ok(());
        }
    };
    tell(page, &book);
    let mut again = MemSink::new(page.alloc);
    match write_book(&mut again, &book) {
        Ok(()) => page.put_count("written the same ", &(again.as_bytes() == bytes)),
        Err(_failed) => {
            page.put_count(
                "not written, a front ",
                &bytes.starts_with(again.as_bytes()),
            );
        }
    }
    Ok(())
}

/// The book of these entries, or the number of the first whose key falls.
fn of(page: &mut Page, entries: &[&str]) -> Done {
    match Book::of(entries_of(page.alloc, entries)?) {
        Ok(book) => {
            page.put("a book\n");
            tell(page, &book);
        }
        Err((number, back)) => {
            let count = back.len();
            let _ = write!(page, "refused entry {number}, {count} handed back");
        }
    }
    Ok(())
}

/// The moves that the book of these entries has for a record, with their weights, a line each.
fn tell_found(page: &mut Page, table: &str, record: &str, entries: &[&str]) -> Done {
    let setup = setup_of(record)?;
    let table = table_of(page.alloc, table)?;
    let Ok(book) = Book::of(entries_of(page.alloc, entries)?) else {
        return NO_ROW;
    };
    for (m, weight) in &probe(page.alloc, &book, &table, &setup)? {
        tell_move(page, Some(*m));
        page.put_count(" ", weight);
        page.put("\n");
    }
    Ok(())
}
