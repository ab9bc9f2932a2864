//! The command `tree`: the moves that a book has from a position on, those after each move below
//! it.
ghost use Rattle.std.specs.Prelude.{◌≡◌, ◌+◌, ◌<◌, ◌^◌, ◌++◌};
ghost use Rattle.pb_board.specs.Position.{IsSetup};
ghost use Rattle.pb_commands.specs.Tree.{PutsTree, Tree, branch_text, heavy, share, sum_of_weights};
ghost use Rattle.pb_commands.specs.Tree.{GrowsTree, with_end, Put};

use crate::probe::Finder;
use crate::stop::{Refused, Stopped, accept};
use itoa::Buffer;
use pb_board::{Setup, read_fen};
use pb_io::{Failed, Fault, Sink, Source, put_pieces};
use pb_moves::{Move, play};
use pb_poly::probe;
use std::alloc::Global;

/// Shows the moves that a book has for a record's setup, each with its weight and its share of all
/// weights there, in the book's order, and below each, two spaces further in, those for the setup
/// after it, so many plies deep. Moves of less than the least weight are left out, with what is
/// below them. Or shows why the first of table, book and record is refused.
pub fn answer_tree<TableIn: Source, BookIn: Source, Out: Sink>(
    alloc: Global,
    table_source: &mut TableIn,
    book_source: &mut BookIn,
    fen: &[u8],
    plies: u32,
    least: u32,
    sink: &mut Out,
    fills: u32,
) -> Result<bool, Stopped>
    ensures { GrowsTree fills (TableIn.state table_source.old) (TableIn.state table_source.new)
        (BookIn.state book_source.old) (BookIn.state book_source.new) fen.now plies least
        (Out.state sink.old) (Out.state sink.new) result }
{
    let finder = Finder::read(alloc, table_source, book_source, sink, fills)?;
    let record = accept(sink, read_fen(fen).map_err(Refused::Fen))?;
    finder.put_tree(sink, &record.setup(), least, plies, 0)?;
    sink.flush().map_err(Fault::from)?;
    Ok(true)
}

impl Finder {
    /// Puts the lines of a setup that stands so many moves deep.
    fn put_tree<K: Sink>(
        &self,
        sink: &mut K,
        setup: &Setup,
        least: u32,
        plies: u32,
        depth: usize,
    ) -> Result<(), Fault>
        requires rules { IsSetup setup.now }
        requires few { depth + plies < 2 ^ 32 }
        ensures { PutsTree (Tree self.now.table self.now.book least plies depth setup.now)
            (K.state sink.old) (K.state sink.new) result }
    {
        if plies == 0 {
            return Ok(());
        }
        let indent = b"  ".repeat(self.alloc, depth)?;
        let mut found = probe(self.alloc, &self.book, &self.table, setup)?;
        let sum = sum_of_weights(found.as_slice());
        keep_heavy(&mut found, least);
        for (m, weight) in found.as_slice() {
            put_branch(sink, indent.as_slice(), m, *weight, sum)?;
            // What is found is legal.
            let next = play(setup, *m).unwrap();
            self.put_tree(sink, &next, least, plies - 1, depth + 1)?;
        }
        Ok(())
    }
}

fn sum_of_weights(found: &[(Move, u16)]) -> u128
    ensures { result ≡ sum_of_weights found.now }
{
    let mut sum = 0;
    for (_, weight) in found {
        sum += u128::from(*weight);
    }
    sum
}

fn keep_heavy(found: &mut Vec<(Move, u16)>, least: u32)
    ensures { found.new.items ≡ heavy least found.old.items }
{
    found.retain(|(_, weight)| u32::from(*weight) >= least);
}

/// Puts the line of a move behind an indent, with its share of the sum.
fn put_branch<K: Sink>(
    sink: &mut K,
    indent: &[u8],
    m: &Move,
    weight: u16,
    sum: u128,
) -> Result<(), Failed>
    ensures { Put (K.state sink.old) (K.state sink.new) result
        (with_end (indent.now ++ branch_text sum (m.now, weight))) }
{
    let text = m.text();
    let (mut digits, mut percent) = (Buffer::new(), Buffer::new());
    put_pieces(
        sink,
        &[
            indent,
            text.as_bytes(),
            b" ",
            digits.format(weight).as_bytes(),
            b" ",
            percent.format(share(weight, sum)).as_bytes(),
        ],
        b"%\n",
    )
}

fn share(weight: u16, sum: u128) -> u128
    ensures { result ≡ share sum weight }
{
    (100 * u128::from(weight)).checked_div(sum).unwrap_or(0)
}
