//! How rows write bytes and numbers. Printable bytes stand for themselves, and a word in braces for
//! others: `{cr}`, `{lf}`, `{tab}`, `{space}`, `{nul}`; `{8192*a}` for that many `a`; `{start}` for
//! the record of the start position, and `{most}` for one with 218 legal moves; `{powers}`,
//! `{places}`, `{ones}` and `{products}` for the files of tables; and `{powers:13260}` for the
//! first so many bytes of such a text. Any other word in braces stays as it is. Answers are written
//! in the same way.

use crate::table::push_file;
use std::alloc::{AllocError, Global};

/// The record of the start position.
pub const START: &str = "rnbqkbnr/pppppppp/8/8/8/8/PPPPPPPP/RNBQKBNR w KQkq - 0 1";

/// A record with more legal moves than any other that is known.
const MOST: &str = "R6R/3Q4/1Q4Q1/4Q3/2Q4Q/Q4Q2/pp1Q4/kBNN1KB1 w - - 0 1";

/// Makes the text that a row writes.
pub fn text_of(alloc: Global, written: &str) -> Result<String, AllocError> {
    let mut text = String::new(alloc);
    for piece in written.split('{') {
        match piece.split_once('}') {
            Some((word, rest)) => {
                push_word(alloc, &mut text, word)?;
                text.push_str(rest)?;
            }
            None => text.push_str(piece)?,
        }
    }
    Ok(text)
}

/// Adds what a word in braces stands for.
fn push_word(alloc: Global, text: &mut String, word: &str) -> Result<(), AllocError> {
    if let Some((count, repeated)) = word.split_once('*') {
        for _ in 0..number_of(count) {
            text.push_str(repeated)?;
        }
        return Ok(());
    }
    let Some((name, count)) = word.split_once(':') else {
        return push_named(text, word);
    };
    let mut whole = String::new(alloc);
    push_named(&mut whole, name)?;
    text.push_str(whole.as_str().get(..count_of(count)).unwrap_or(""))
}

fn push_named(text: &mut String, name: &str) -> Result<(), AllocError> {
    match name {
        "cr" => text.push_str("\r"),
        "lf" => text.push_str("\n"),
        "tab" => text.push_str("\t"),
        "space" => text.push_str(" "),
        "nul" => text.push_str("\0"),
        "start" => text.push_str(START),
        "most" => text.push_str(MOST),
        "powers" | "places" | "ones" | "products" => push_file(text, name, "\n"),
        _ => {
            text.push_str("{")?;
            text.push_str(name)?;
            text.push_str("}")
        }
    }
}

/// Reads a number, 0 where the word is none.
pub fn number_of(word: &str) -> u64 {
    word.parse::<u64>().unwrap_or(0)
}

/// Reads the number of things, 0 where the word is none.
pub fn count_of(word: &str) -> usize {
    number_of(word) as usize
}

/// Reads a number of 32 bits, the greatest where the word's is greater.
pub fn small_of(word: &str) -> u32 {
    number_of(word).min(4_294_967_295) as u32
}

/// Reads a number of fills, where `all` stands for as many as there may be.
pub fn fills_of(word: &str) -> u32 {
    match word {
        "all" => u32::MAX,
        _ => small_of(word),
    }
}

/// Takes apart how many an argument stands for, and how each is written: `128*#` stands for 128,
/// each with its number in the place of `#`.
pub fn times_of(text: &str) -> (u64, &str) {
    match text.split_once('*') {
        Some((count, rest)) if number_of(count) > 0 => (number_of(count), rest),
        _ => (1, text),
    }
}

/// Reads a number in hexadecimal, 0 where the word is none.
pub fn hexadecimal(word: &str) -> u64 {
    u64::from_str_radix(word, 16).unwrap_or(0)
}
