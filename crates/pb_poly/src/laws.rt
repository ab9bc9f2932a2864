//! Laws, each the contract of a function that does nothing.

ghost use Rattle.pb_board.specs.Equality.{IsEquality};
ghost use Rattle.std.specs.Prelude.{◌≡◌, ◌<◌, ℕ, List, Result, Some, false, length};
ghost use Rattle.pb_io.specs.Source.{SourceState};
ghost use Rattle.pb_board.specs.Position.{IsSetup, Position};
ghost use Rattle.pb_moves.specs.Moved.{Moved};
ghost use Rattle.pb_poly.specs.Book.{BookBytes};
ghost use Rattle.pb_poly.specs.Code.{HasCode};
ghost use Rattle.pb_poly.specs.Found.{Found};
ghost use Rattle.pb_poly.specs.Key.{IsKey, key};
ghost use Rattle.pb_poly.specs.Table.{IsTable};
ghost use Rattle.pb_poly.specs.TableReading.{AsTable};
ghost use Rattle.pb_poly.specs.Reading.{AsBook, Tells};
ghost use Rattle.pb_poly.specs.declared.book.Entry.{Entry};
ghost use Rattle.pb_poly.specs.declared.book.TheConstants.{ENTRIES_AT_ONCE};
ghost use Rattle.pb_poly.specs.declared.reading.BookError.{BookError};
ghost use Rattle.pb_poly.specs.declared.table.TableFault.{TableFault};

use crate::book::Entry;
use crate::reading::BookError;
use crate::table::{TableError, TableFault};
pub use pb_io::laws::{lines_begin, pieces_join};

/// The limit is the number that `write_entries` asks for.
pub fn limits()
    ensures { ENTRIES_AT_ONCE ≡ 64 }
{}

/// No two legal moves share a code.
pub fn code_is_one()
    ensures { (s : Position) (m n : Moved) (number : ℕ) → IsSetup s → HasCode s m number
        → HasCode s n number → m ≡ n }
{}

/// Bytes are one book, or none for one reason, and so with tables.
pub fn one_reading()
    ensures book { (bytes : List ℕ) (r x : Result (List Entry) BookError) → AsBook bytes r
        → AsBook bytes x → r ≡ x }
    ensures table { (bytes : List ℕ) (r x : Result (List ℕ) TableFault) → AsTable bytes r
        → AsTable bytes x → r ≡ x }
{}

/// The key is the one number that is, bit by bit, the parity of the randoms at a setup's offsets.
pub fn key_is_one()
    ensures is { (randoms : List ℕ) (s : Position) → IsTable randoms → IsSetup s
        → IsKey randoms s (key randoms s) }
    ensures only { (randoms : List ℕ) (s : Position) (k l : ℕ) → IsKey randoms s k
        → IsKey randoms s l → k ≡ l }
{}

/// No two books have the same bytes, and no book has two texts.
pub fn book_is_one()
    ensures entries { (entries others : List Entry) (bytes : List ℕ) → BookBytes entries bytes
        → BookBytes others bytes → entries ≡ others }
    ensures bytes { (entries : List Entry) (bytes others : List ℕ) → BookBytes entries bytes
        → BookBytes entries others → bytes ≡ others }
{}

/// `==` holds exactly where two values are one.
pub fn equal_values()
    ensures entry { IsEquality ⟦<Entry as PartialEq>⟧.eq }
    ensures book { IsEquality ⟦<BookError as PartialEq>⟧.eq }
    ensures table { IsEquality ⟦<TableError as PartialEq>⟧.eq }
    ensures fault { IsEquality ⟦<TableFault as PartialEq>⟧.eq }
{}

/// A book holds one list of moves and weights for a setup.
pub fn found_is_one()
    ensures { (entries : List Entry) (randoms : List ℕ) (s : Position)
        (pairs others : List (Moved × ℕ)) → IsSetup s → Found entries randoms s pairs
        → Found entries randoms s others → pairs ≡ others }
{}

/// There are reads as `Tells` wants them.
pub fn told_texts()
    ensures { (fills : ℕ) (old new : SourceState) (bytes : List ℕ) → old.to_come ≡ Some bytes
        → new.failed ≡ false → length bytes < fills → Tells fills old new bytes }
{}
