//! Books, by pb_poly: the key of a position, and what a book has for it.

ghost use Rattle.std.specs.Prelude.{◌≡◌, List, IfOk};
ghost use Rattle.pb_poly.specs.declared.book.Entry.{Entry};
ghost use Rattle.pb_poly.specs.Book.{BookBytes};
ghost use Rattle.pb_poly.specs.Found.{Found};
ghost use Rattle.pb_poly.specs.Key.{key};

use pb_board::Setup;
use pb_moves::Move;
use pb_poly::{BookError, MemSource, Table, key_of, probe, read_book};
use std::alloc::Global;

/// The setup's key, and the moves that the book of these bytes has for the setup, each with its
/// weight.
pub fn look_up(
    alloc: Global,
    table: &Table,
    bytes: &[u8],
    setup: &Setup,
) -> Result<(u64, Vec<(Move, u16)>), BookError>
    ensures key { IfOk result (λ r. r.0 ≡ key table.now setup.now) }
    // The bytes are those of some entries, and the moves are what these have for the setup, so each
    // is legal.
    ensures found { IfOk result (λ r. (entries : List Entry) × BookBytes entries bytes.now
        × Found entries table.now setup.now r.1.items) }
{
    let mut source = MemSource::new(bytes, 4096);
    let book = read_book(alloc, &mut source, u32::MAX)?;
    match probe(alloc, &book, table, setup) {
        Ok(found) => Ok((key_of(table, setup), found)),
        Err(_) => Err(BookError::Memory),
    }
}
