//! Tables of words, and the keys and codes that are made with them.

use crate::ends::named_source;
use crate::moves::{spelled, tell_move};
use crate::page::{Done, NO_ROW, Page, Trouble};
use crate::record::setup_of;
use crate::text::hexadecimal;
use pb_board::Setup;
use pb_moves::{Move, legal_effect, legal_moves, play};
use pb_poly::{
    Table, TableError, code_of, key_after, key_next, key_of, move_of, read_table, take_table,
};
use std::alloc::{AllocError, Global};
use std::fmt::Write;

/// An odd number whose multiples look random.
const ODD: u64 = 0x9e37_79b9_7f4a_7c15;

/// How many lines a table's file has.
const LINES: u64 = 781;

/// The word of an index in a table that anyone can make: in `powers` it is 2^(index mod 64), in
/// `places` the index, in `ones` 1, and in `products` the low 64 bits of (index + 1) * `ODD`.
fn word_at(table: &str, index: u64) -> Option<u64> {
    match table {
        "powers" => Some(1 << (index % 64)),
        "places" => Some(index),
        "ones" => Some(1),
        "products" => Some(index.wrapping_add(1).wrapping_mul(ODD)),
        _ => None,
    }
}

/// Adds the file of the table of a name in small digits, with this after each line. Where there is
/// none, it adds nothing.
pub fn push_file(text: &mut String, table: &str, ending: &str) -> Result<(), AllocError> {
    for index in 0..LINES {
        if let Some(word) = word_at(table, index) {
            write!(text, "{word:016x}{ending}").map_err(|_| AllocError)?;
        }
    }
    Ok(())
}

fn is_named(table: &Table, name: &str) -> bool {
    (0..LINES).all(|index| word_at(name, index) == Some(table.word(index as usize)))
}

/// Answers a call.
pub fn answer(page: &mut Page, call: &[&str]) -> Done {
    match call {
        ["read", text] => match read_table(page.alloc, text.as_bytes()) {
            Ok(_table) => page.put("a table"),
            Err(refusal) => page.put_refusal(&refusal),
        },
        ["words", name, digits, ending] => return read_words(page, name, digits, ending),
        ["take", source, name] => return take(page, source, name),
        ["cut", text] => cut(page, text.as_bytes()),
        ["key", table, record] => {
            let setup = setup_of(record)?;
            tell_key(page, "", key_of(&table_of(page.alloc, table)?, &setup));
        }
        ["keys", table, record, moves @ ..] => {
            let setup = setup_of(record)?;
            return tell_keys(page, &table_of(page.alloc, table)?, setup, moves);
        }
        ["codes", record] => return codes(page, &setup_of(record)?),
        ["code", record, text] => {
            let setup = setup_of(record)?;
            let code = code_of(&setup, spelled(text)?);
            let _ = write!(page, "{code:04x} ");
            tell_move(page, move_of(&setup, code));
        }
        ["move", record, code] => {
            let code = hexadecimal(code).min(0xffff) as u16;
            tell_move(page, move_of(&setup_of(record)?, code));
        }
        _ => return NO_ROW,
    }
    Ok(())
}

/// Reads the table that a text writes.
pub fn table_of(alloc: Global, text: &str) -> Result<Table, Trouble> {
    match read_table(alloc, text.as_bytes()) {
        Ok(table) => Ok(table),
        Err(TableError::Memory) => Err(Trouble::Memory),
        Err(_refusal) => Err(Trouble::Row),
    }
}

/// Whether the file of a table, with such digits and ends of lines, is read as its words, whole and
/// without its last byte.
fn read_words(page: &mut Page, name: &str, digits: &str, ending: &str) -> Done {
    let mut file = String::new(page.alloc);
    push_file(&mut file, name, ending)?;
    if digits == "capital" {
        file.make_ascii_uppercase();
    }
    let whole = table_of(page.alloc, file.as_str())?;
    page.put_count("whole ", &is_named(&whole, name));
    let _last = file.pop();
    let cut = table_of(page.alloc, file.as_str())?;
    page.put_count(", without its last byte ", &is_named(&cut, name));
    Ok(())
}

/// Whether the file of a table is taken as its words from the source that a word names, or why it
/// is refused.
fn take(page: &mut Page, source: &str, name: &str) -> Done {
    let mut file = String::new(page.alloc);
    push_file(&mut file, name, "\n")?;
    let mut source = named_source(source, file.as_bytes());
    match take_table(page.alloc, &mut source, u32::MAX) {
        Ok(table) => page.put_count("whole ", &is_named(&table, name)),
        Err(refusal) => page.put_refusal(&refusal),
    }
    Ok(())
}

/// Why the first so many bytes of a table's file, of which each line has 17, are no table.
fn due_after(count: usize) -> Option<TableError> {
    let lines = count / 17;
    match count % 17 {
        _ if count == 13_276 => None,
        0 => Some(TableError::Count(lines)),
        16 => Some(TableError::Count(lines.wrapping_add(1))),
        _ => Some(TableError::Line(lines.wrapping_add(1))),
    }
}

/// Each shorter front of a table's file, read: how many are refused as they have to be, or the
/// first that isn't.
fn cut(page: &mut Page, bytes: &[u8]) {
    for count in 0..bytes.len() {
        let answer = read_table(page.alloc, &bytes[..count]).err();
        if answer != due_after(count) {
            page.put_debug(&answer);
            page.put_count(" for ", &count);
            return;
        }
    }
    page.put_display(&bytes.len());
    page.put(" fronts judged");
}

fn tell_key(page: &mut Page, name: &str, key: u64) {
    let _ = write!(page, "{name}{key:016x}");
}

/// The key after each of these moves, made anew, by what changed, and of the setup before the move
/// alone.
fn tell_keys(page: &mut Page, table: &Table, start: Setup, moves: &[&str]) -> Done {
    let mut setup = start;
    for text in moves {
        page.put(text);
        setup = tell_next(page, table, &setup, spelled(text)?)?;
    }
    Ok(())
}

/// The key after a move, made in three ways, and the setup after it.
fn tell_next(page: &mut Page, table: &Table, setup: &Setup, m: Move) -> Result<Setup, Trouble> {
    let after = play(setup, m).ok_or(Trouble::Row)?;
    let key = key_of(table, setup);
    let Some(effect) = legal_effect(setup, m) else {
        return Err(Trouble::Row);
    };
    tell_key(page, " anew ", key_of(table, &after));
    tell_key(
        page,
        ", by change ",
        key_after(table, key, setup, m, &after),
    );
    tell_key(
        page,
        ", of the setup before ",
        key_next(table, key, setup, m, &effect),
    );
    page.put("\n");
    Ok(after)
}

/// The codes of the legal moves in order, each the code of this move alone.
fn codes(page: &mut Page, setup: &Setup) -> Done {
    page.put("codes:");
    for m in &legal_moves(page.alloc, setup)? {
        let code = code_of(setup, *m);
        if move_of(setup, code) != Some(*m) {
            return NO_ROW;
        }
        let _ = write!(page, " {code:04x}");
    }
    Ok(())
}
