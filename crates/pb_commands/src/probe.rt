//! The command `probe`: the moves that a book has for a position, and what finds them.

ghost use Rattle.pb_commands.specs.ProbeShown.{ReadsBoth, ProbesSources, found_text, probe_text};
ghost use Rattle.std.specs.Prelude.{◌++◌};
ghost use Rattle.pb_commands.specs.Judged.{PutsOrEnds, StopsOrEnds, Shows, Put};

use crate::stop::{Refused, Stopped, accept, unless_refused};
use itoa::Buffer;
use pb_board::read_fen;
use pb_io::{Failed, Fault, Sink, Source, put_pieces};
use pb_moves::Move;
use pb_poly::{Book, Table, probe, read_book, take_table};
use std::alloc::Global;

/// A table and a book, by which moves are found.
#[derive(Drop)]
pub(crate) struct Finder {
    pub(crate) alloc: Global,
    pub(crate) table: Table,
    pub(crate) book: Book,
}

impl Finder {
    /// Reads the table and then the book, or shows the line that refuses one of them.
    pub(crate) fn read<TableIn: Source, BookIn: Source, Out: Sink>(
        alloc: Global,
        table: &mut TableIn,
        book: &mut BookIn,
        sink: &mut Out,
        fills: u32,
    ) -> Result<Finder, Stopped>
        ensures { ReadsBoth fills (TableIn.state table.old) (TableIn.state table.new)
            (BookIn.state book.old) (BookIn.state book.new) (Out.state sink.old)
            (Out.state sink.new) result }
    {
        let table = accept(
            sink,
            take_table(alloc, table, fills).map_err(Refused::Table),
        )?;
        let book = accept(sink, read_book(alloc, book, fills).map_err(Refused::Book))?;
        Ok(Finder { alloc, table, book })
    }
}

/// Shows the moves that a book has for a record's setup, each with its weight, in the book's order,
/// or why the first of table, book and record is refused.
pub fn answer_probe<TableIn: Source, BookIn: Source, Out: Sink>(
    alloc: Global,
    table_source: &mut TableIn,
    book_source: &mut BookIn,
    fen: &[u8],
    sink: &mut Out,
    fills: u32,
) -> Result<bool, Stopped>
    ensures { StopsOrEnds (ProbesSources fills (TableIn.state table_source.old)
        (TableIn.state table_source.new)
        (BookIn.state book_source.old) (BookIn.state book_source.new) fen.now)
        (Out.state sink.old) (Out.state sink.new) result }
{
    let finder = Finder::read(alloc, table_source, book_source, sink, fills)?;
    let record = accept(sink, read_fen(fen).map_err(Refused::Fen))?;
    let found = probe(alloc, &finder.book, &finder.table, &record.setup())?;
    show_found(sink, found.as_slice())?;
    Ok(true)
}

/// Does what `answer_probe` does, and answers whether all three were taken.
pub fn run_probe<TableIn: Source, BookIn: Source, Out: Sink>(
    alloc: Global,
    table_source: &mut TableIn,
    book_source: &mut BookIn,
    fen: &[u8],
    sink: &mut Out,
    fills: u32,
) -> Result<bool, Fault>
    ensures { PutsOrEnds (ProbesSources fills (TableIn.state table_source.old)
        (TableIn.state table_source.new)
        (BookIn.state book_source.old) (BookIn.state book_source.new) fen.now)
        (Out.state sink.old) (Out.state sink.new) result }
{
    let answer = answer_probe(alloc, table_source, book_source, fen, sink, fills);
    Ok(unless_refused(answer)?.is_some())
}

fn show_found<K: Sink>(sink: &mut K, found: &[(Move, u16)]) -> Result<(), Fault>
    ensures { Shows (K.state sink.old) (K.state sink.new) result (probe_text found.now) }
{
    for (m, weight) in found {
        put_found(sink, b"", m, *weight, b"\n")?;
    }
    sink.flush()?;
    Ok(())
}

pub(crate) fn put_found<K: Sink>(
    sink: &mut K,
    before: &[u8],
    m: &Move,
    weight: u16,
    end: &[u8],
) -> Result<(), Failed>
    ensures { Put (K.state sink.old) (K.state sink.new) result
        ((before.now ++ found_text (m.now, weight)) ++ end.now) }
{
    let text = m.text();
    let mut buffer = Buffer::new();
    let digits = buffer.format(weight);
    put_pieces(
        sink,
        &[before, text.as_bytes(), b" ", digits.as_bytes()],
        end,
    )
}
