//! The command `lookup`: the moves that a book has for the position of each line.
ghost use Rattle.std.specs.Prelude.{◌≡◌, Err, Ok};
ghost use Rattle.pb_commands.specs.LookupShown.{LineFound, LooksUp, moves_line};
ghost use Rattle.pb_commands.specs.EpdShown.{AsEpd};
ghost use Rattle.pb_commands.specs.Judged.{ByInput, AsRecord, Put};

use crate::epd::{is_blank, put_refusal, refuse_line};
use crate::lines::{LineAnswer, answer_lines};
use crate::probe::{Finder, put_found};
use crate::stop::Stopped;
use pb_board::{Setup, read_fen, without_return};
use pb_epd::{EpdError, read_epd};
use pb_io::{Failed, Fault, Sink, Source};
use pb_moves::Move;
use pb_poly::probe;
use std::alloc::Global;

impl LineAnswer for Finder {
    ghost shows = { λ f. LineFound f.table f.book };

    fn answer<K: Sink>(
        &mut self,
        sink: &mut K,
        number: u64,
        line: Option<&[u8]>,
    ) -> Result<bool, Fault> {
        let Some(line) = line else {
            return refuse_line(sink, number, b"long", b"");
        };
        let text = without_return(line);
        if is_blank(text) {
            return Ok(true);
        }
        match read_setup(self.alloc, text) {
            Ok(setup) => {
                let found = probe(self.alloc, &self.book, &self.table, &setup)?;
                put_moves(sink, found.as_slice())?;
                Ok(true)
            }
            Err(error) => put_refusal(sink, number, error),
        }
    }
}

/// Puts, for each line that is a FEN or an EPD record, the moves that the book has for its setup
/// with their weights, or `-`, and refuses other lines as `run_epd` does. Table and book are read
/// before, in this order, and refused as by `answer_probe`.
pub fn answer_lookup<TableIn: Source, BookIn: Source, In: Source, Out: Sink>(
    alloc: Global,
    table_source: &mut TableIn,
    book_source: &mut BookIn,
    source: &mut In,
    sink: &mut Out,
    fills: u32,
) -> Result<bool, Stopped>
    ensures { LooksUp fills (TableIn.state table_source.old) (TableIn.state table_source.new)
        (BookIn.state book_source.old) (BookIn.state book_source.new) (In.state source.old)
        (In.state source.new) (Out.state sink.old) (Out.state sink.new) result }
{
    let finder = Finder::read(alloc, table_source, book_source, sink, fills)?;
    Ok(answer_lines(alloc, source, sink, finder, fills)?)
}

/// The setup of a FEN record, or else of an EPD record. The error says why there is none of EPD.
fn read_setup(alloc: Global, text: &[u8]) -> Result<Setup, EpdError>
    ensures { ByInput (AsRecord text.now) (λ f. result ≡ Ok f.setup)
        (λ _. ByInput (AsEpd text.now) (λ e. result ≡ Ok e.setup) (λ x. result ≡ Err x)) }
{
    match read_fen(text) {
        Ok(record) => Ok(record.setup()),
        Err(_) => Ok(read_epd(alloc, text)?.setup()),
    }
}

fn put_moves<K: Sink>(sink: &mut K, found: &[(Move, u16)]) -> Result<(), Failed>
    ensures { Put (K.state sink.old) (K.state sink.new) result (moves_line found.now) }
{
    let Some((first, others)) = found.split_first() else {
        return sink.put(b"-\n");
    };
    put_found(sink, b"", &first.0, first.1, b"")?;
    for (m, weight) in others {
        put_found(sink, b" ", m, *weight, b"")?;
    }
    sink.put(b"\n")
}
