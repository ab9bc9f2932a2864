//! The command `show`: a line for each entry of a book.
ghost use Rattle.std.specs.Prelude.{◌≡◌, ℕ, ◌*◌, length};
ghost use Rattle.std.specs.Int.{bytes_high_first};
ghost use Rattle.pb_poly.specs.Reading.{ReadsBook};
ghost use Rattle.pb_commands.specs.BookShown.{BookShown, entry_line, show_text, hexadecimal};
ghost use Rattle.pb_commands.specs.Judged.{PutsOrEnds, StopsOrEnds, Shows, Put};

use crate::stop::{Refused, Stopped, accept, unless_refused};
use hex::encode_to_slice;
use pb_io::{Failed, Fault, Sink, Source, put_pieces};
use pb_poly::{Entry, read_book};
use std::alloc::Global;

/// Shows a line for each entry of a book that was read whole, with key, code, weight and learn
/// value in hexadecimal digits, or why the book is refused.
pub fn answer_show<S: Source, K: Sink>(
    alloc: Global,
    source: &mut S,
    sink: &mut K,
    fills: u32,
) -> Result<bool, Stopped>
    ensures { StopsOrEnds (BookShown (ReadsBook fills (S.state source.old) (S.state source.new)))
        (K.state sink.old) (K.state sink.new) result }
{
    let book = accept(sink, read_book(alloc, source, fills).map_err(Refused::Book))?;
    show_entries(sink, book.entries())?;
    Ok(true)
}

/// Does what `answer_show` does, and answers whether the book was taken.
pub fn run_show<S: Source, K: Sink>(
    alloc: Global,
    source: &mut S,
    sink: &mut K,
    fills: u32,
) -> Result<bool, Fault>
    ensures { PutsOrEnds (BookShown (ReadsBook fills (S.state source.old) (S.state source.new)))
        (K.state sink.old) (K.state sink.new) result }
{
    Ok(unless_refused(answer_show(alloc, source, sink, fills))?.is_some())
}

fn show_entries<K: Sink>(sink: &mut K, entries: &[Entry]) -> Result<(), Fault>
    ensures { Shows (K.state sink.old) (K.state sink.new) result (show_text entries.now) }
{
    for entry in entries {
        put_entry(sink, entry)?;
    }
    sink.flush()?;
    Ok(())
}

fn put_entry<K: Sink>(sink: &mut K, entry: &Entry) -> Result<(), Failed>
    ensures { Put (K.state sink.old) (K.state sink.new) result (entry_line entry.now) }
{
    let key: [u8; 16] = digits_of(&entry.key.to_be_bytes());
    let code: [u8; 4] = digits_of(&entry.code.to_be_bytes());
    let weight: [u8; 4] = digits_of(&entry.weight.to_be_bytes());
    let learn: [u8; 8] = digits_of(&entry.learn.to_be_bytes());
    put_pieces(
        sink,
        &[&key, b" ", &code, b" ", &weight, b" ", &learn],
        b"\n",
    )
}

/// Writes a number's bytes, the highest first, two digits each.
fn digits_of<const DIGITS: usize>(bytes: &[u8]) -> [u8; DIGITS]
    requires { DIGITS ≡ 2 * length bytes.now }
    ensures { (number : ℕ) → bytes.now ≡ bytes_high_first (length bytes.now) number
        → result ≡ hexadecimal DIGITS number }
{
    let mut digits = [0; DIGITS];
    encode_to_slice(bytes, &mut digits).unwrap();
    digits
}
