//! Books from sources.

ghost use Rattle.std.specs.Prelude.{◌-◌, ◌≡◌, ◌≤◌, ℕ, List, ◌++◌, All, IfOk, IfErr, MatchResult};
ghost use Rattle.std.specs.Prelude.{drop, length};
ghost use Rattle.pb_io.specs.Source.{chunk_len};
ghost use Rattle.pb_poly.specs.Book.{BookBytes, NeverFall, book_bytes};
ghost use Rattle.pb_poly.specs.Entry.{IsEntry};
ghost use Rattle.pb_poly.specs.Reading.{FailsWithin, ReadsBook, Splits, Tells};
ghost use Rattle.pb_poly.specs.declared.reading.BookError.TheVariants.{Memory};
ghost use Rattle.pb_poly.specs.declared.book.Entry.{Entry};

use crate::book::{Book, Entry};
use pb_io::{CHUNK_LEN, Source};
use std::alloc::Global;
use thiserror::Error;

/// Why a stream gave no book.
#[derive(Clone, Copy, Debug, PartialEq, Eq, Error)]
pub enum BookError {
    /// The number of the entry, from 1.
    #[error("entry {0} has a lower key than the one before it")]
    Unsorted(usize),
    /// How many bytes come after the last whole entry, from 1 to 15.
    #[error("its last entry has {0} of 16 bytes")]
    Cut(usize),
    #[error("the input has failed")]
    Read,
    /// The fills were used up before the end.
    #[error("the input has no end")]
    Endless,
    #[error("no memory")]
    Memory,
}

/// Takes the whole entries at the front of the bytes, and answers how many bytes are left.
fn take_entries(entries: &mut Vec<Entry>, bytes: &[u8]) -> Result<usize, BookError>
    requires { NeverFall entries.old.items × All IsEntry entries.old.items }
    ensures ok { IfOk result (λ left. (left ≤ length bytes.now)
        × Splits (book_bytes entries.old.items ++ bytes.now) entries.new.items
        (drop (length bytes.now - left) bytes.now)) }
    ensures err { IfErr result (FailsWithin (book_bytes entries.old.items) bytes.now) }
{
    let mut last_key = match entries.last() {
        Some(last) => last.key,
        None => 0,
    };
    let mut rest = bytes;
    while let Some((front, after)) = rest.split_first_chunk() {
        let entry = Entry::from_bytes(front);
        if entry.key < last_key {
            return Err(BookError::Unsorted(entries.len() + 1));
        }
        if entries.push(entry).is_err() {
            return Err(BookError::Memory);
        }
        last_key = entry.key;
        rest = after;
    }
    Ok(rest.len())
}

/// What is left of a fill, less than an entry, goes to the front of the chunk.
fn drain<S: Source>(
    alloc: Global,
    chunk: &mut [u8],
    source: &mut S,
    fills: u32,
) -> Result<Book, BookError>
    requires { length chunk.old ≡ chunk_len }
    ensures { ReadsBook fills (S.state source.old) (S.state source.new) result }
{
    let mut entries = Vec::new(alloc);
    let mut len = 0;
    for _made in 0..fills {
        let Ok(count) = source.fill(&mut chunk[len..]) else {
            return Err(BookError::Read);
        };
        if count == 0 {
            return if len == 0 {
                Ok(Book { entries })
            } else {
                Err(BookError::Cut(len))
            };
        }
        let end = len + count;
        let left = take_entries(&mut entries, &chunk[..end])?;
        chunk.copy_within(end - left..end, 0);
        len = left;
    }
    Err(BookError::Endless)
}

/// Reads a book to the end of input, in at most so many fills, in whatever pieces it comes.
///
/// # Errors
///
/// What the stream meets first: an entry is judged once its 16 bytes are there, and `Cut` at the
/// end of input. `Memory` may come at any whole entry, and before the first fill.
pub fn read_book<S: Source>(alloc: Global, source: &mut S, fills: u32) -> Result<Book, BookError>
    ensures reads { ReadsBook fills (S.state source.old) (S.state source.new) result }
    ensures only { (entries : List Entry) (bytes : List ℕ)
        → Tells fills (S.state source.old) (S.state source.new) bytes → BookBytes entries bytes
        → NeverFall entries
        → MatchResult result (λ book. book ≡ entries) (λ e. e ≡ Memory) }
{
    let Ok(mut chunk) = vec![in alloc; 0; CHUNK_LEN] else {
        return Err(BookError::Memory);
    };
    drain(alloc, chunk.as_mut_slice(), source, fills)
}
