//! The book of a ledger as EPD lines.

ghost use Rattle.std.specs.Prelude.{◌≡◌, ◌<◌, ◌^◌, All, IfErr, IfOk, length, ◌∷◌, ◌++◌, OnOk};
ghost use Rattle.std.specs.Prelude.{flat_map};
ghost use Rattle.pb_export.specs.Exporting.{Exports, ExportsUntil, fault_of_export};
ghost use Rattle.pb_export.specs.Setups.{PutsFront, PutsListing, HasMoves, IsListingOfLedger};
ghost use Rattle.pb_export.specs.Setups.{book_line, spaced_move};
ghost use Rattle.pb_export.specs.declared.exporting.ExportFault.TheVariants as fault;

use crate::indexed_book::IndexedBook;
use crate::setups::Listing;
use itoa::Buffer;
use pb_accepted::Ledger;
use pb_io::{Failed, Fault, Sink};
use pb_moves::Move;
use pb_points::Tally;
use std::alloc::{AllocError, Global};
use thiserror::Error;

/// Tells why an export or a book of the games held wasn't written whole.
#[derive(Clone, Copy, Debug, PartialEq, Eq, Error)]
pub enum ExportFault {
    /// The sink has failed.
    #[error("the text can't be written")]
    Write,
    /// No memory for what the text is made of.
    #[error("no memory is left")]
    Memory,
}

impl From<AllocError> for ExportFault {
    ghost from_gives = { λ e x. x ≡ fault.Memory };

    fn from(_: AllocError) -> ExportFault {
        ExportFault::Memory
    }
}

impl From<Failed> for ExportFault {
    ghost from_gives = { λ e x. x ≡ fault.Write };

    fn from(_: Failed) -> ExportFault {
        ExportFault::Write
    }
}

impl From<ExportFault> for Fault {
    ghost from_gives = { λ fault gives. gives ≡ fault_of_export fault };

    fn from(fault: ExportFault) -> Fault {
        match fault {
            ExportFault::Write => Fault::Write,
            ExportFault::Memory => Fault::Memory,
        }
    }
}

/// Writes the opening book of the games held as EPD (PGN Standard 16.2), and answers how many lines
/// it has: one for each setup that stands before a move of a game and that the book has moves for,
/// in byte order of the setup's four fields, with the operation `bkm`, whose operands are the moves
/// in the book's order, each followed by its weight in decimal. Each line ends with an LF.
///
/// # Errors
///
/// The first of the sink's fault and want of memory that is met. A front of the text may have been
/// put then, and isn't flushed.
pub fn export<T: Tally, K: Sink>(
    alloc: Global,
    ledger: &Ledger<T>,
    sink: &mut K,
) -> Result<u32, ExportFault>
    ensures ok { IfOk result (Exports ledger.now (K.state sink.old) (K.state sink.new)) }
    ensures fault { IfErr result (ExportsUntil ledger.now (K.state sink.old) (K.state sink.new)) }
{
    let listing = list_setups(alloc, ledger)?;
    let count = put_lines(alloc, &listing, sink)?;
    sink.flush()?;
    Ok(count)
}

fn list_setups<T: Tally>(alloc: Global, ledger: &Ledger<T>) -> Result<Listing, AllocError>
    ensures { IfOk result (IsListingOfLedger ledger.now) }
{
    let book = IndexedBook::of(alloc, ledger.make_book(alloc)?)?;
    Listing::of(alloc, ledger, &book)
}

fn put_lines<K: Sink>(alloc: Global, listing: &Listing, sink: &mut K) -> Result<u32, ExportFault>
    requires moves { All (HasMoves listing.now.moves.items) listing.now.setups.items }
    requires few { length listing.now.setups.items < 2 ^ 32 }
    ensures ok { IfOk result
        (PutsListing listing.now (K.state sink.old) (K.state sink.new)) }
    ensures fault { IfErr result
        (PutsFront listing.now (K.state sink.old) (K.state sink.new)) }
{
    let mut line = Vec::new(alloc);
    for listed in listing.setups.as_slice() {
        put_line(
            &mut line,
            listed.fields.as_bytes(),
            listing.moves_of(listed),
        )?;
        sink.put(line.as_slice())?;
    }
    Ok(listing.setups.len() as u32)
}

/// Makes the line, with its LF, in the room of another one.
pub(crate) fn put_line(
    line: &mut Vec<u8>,
    fields: &[u8],
    moves: &[(Move, u16)],
) -> Result<(), AllocError>
    ensures { OnOk result (line.new.items ≡ book_line fields.now moves.now) }
{
    line.clear();
    line.extend_from_slice(fields)?;
    line.extend_from_slice(b" bkm")?;
    put_moves(line, moves)?;
    line.extend_from_slice(b";\n")
}

fn put_moves(line: &mut Vec<u8>, moves: &[(Move, u16)]) -> Result<(), AllocError>
    ensures { OnOk result (line.new.items ≡ line.old.items ++ flat_map spaced_move moves.now) }
{
    let mut digits = Buffer::new();
    for (m, weight) in moves {
        put_spaced(line, m.text().as_bytes())?;
        put_spaced(line, digits.format(*weight).as_bytes())?;
    }
    Ok(())
}

fn put_spaced(line: &mut Vec<u8>, text: &[u8]) -> Result<(), AllocError>
    ensures { OnOk result (line.new.items ≡ line.old.items ++ 32 ∷ text.now) }
{
    line.push(b' ')?;
    line.extend_from_slice(text)
}
