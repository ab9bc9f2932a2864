//! Tables of the random numbers that keys are made of, and their files.

ghost use Rattle.std.specs.Prelude.{◌≡◌, ◌+◌, ◌<◌, ℕ, List, ◌∷◌, IfOk, IfErr, MatchOption};
ghost use Rattle.std.specs.Prelude.{MatchResult, length, slice_index, ◌≤◌, Err, take};
ghost use Rattle.pb_io.specs.Lines.{lines};
ghost use Rattle.pb_poly.specs.Table.{IsDueTable, IsRandomLine, IsTable, SpellsRandom, TableText};
ghost use Rattle.pb_poly.specs.Table.{IsTableFile, table_limit};
ghost use Rattle.pb_poly.specs.declared.table.TableError.TheVariants.{Memory};
ghost use Rattle.pb_poly.specs.Reading.{Tells};
ghost use Rattle.pb_io.specs.Source.{ReadsAll};
ghost use Rattle.pb_poly.specs.TableReading.{ReadsTable};
ghost use Rattle.pb_io.specs.declared.fault.ReadFault.TheVariants.{Memory};
ghost use Rattle.pb_poly.specs.declared.table.TableFault.TheVariants.{Fault};

use memchr::memchr;
use pb_board::without_return;
use pb_io::{ReadFault, Source};
use std::alloc::Global;
use std::marker::Model;
use thiserror::Error;

const TABLE_LEN: usize = 781;

/// Why bytes are no table.
#[derive(Clone, Copy, Debug, PartialEq, Eq, Error)]
pub enum TableError {
    /// The number of the first such line, from 1.
    #[error("line {0} isn't 16 hexadecimal digits")]
    Line(usize),
    /// The number of lines, each of 16 hexadecimal digits.
    #[error("a table has 781 lines, and this one {0}")]
    Count(usize),
    /// No memory for the table that the bytes are.
    #[error("no memory")]
    Memory,
}

/// A table of 781 random numbers of 64 bits, of which the keys of setups are made.
#[derive(Clone, Drop)]
pub struct Table {
    randoms: Vec<u64>,
}

impl Model for Table {
    ghost use Rattle.std.specs.Prelude.{List, ℕ};
    ghost use Rattle.pb_poly.specs.Table.{IsTable};

    ghost Value = { List ℕ };

    ghost view = { λ t. t.randoms.items };

    ghost invariant = { λ t. IsTable t.randoms.items };
}

impl Table {
    pub(crate) fn randoms(&self) -> &[u64]
        ensures value { result.now ≡ self.now }
        ensures rules { IsTable self.now }
    {
        self.randoms.as_slice()
    }

    /// Gives the random number at an offset.
    pub fn word(&self, offset: usize) -> u64
        requires { offset < 781 }
        ensures value { result ≡ slice_index self.now offset }
        ensures rules { IsTable self.now }
    {
        self.randoms[offset]
    }
}

fn first_line(bytes: &[u8]) -> (&[u8], &[u8])
    requires { 0 < length bytes.now }
    ensures cut { lines bytes.now ≡ result.0.now ∷ lines result.1.now }
    ensures less { length result.1.now < length bytes.now }
{
    match memchr(b'\n', bytes) {
        Some(at) => (&bytes[..at], &bytes[at + 1..]),
        None => (bytes, &bytes[bytes.len()..]),
    }
}

fn random_of(line: &[u8]) -> Option<u64>
    ensures { MatchOption result (¬ IsRandomLine line.now) (SpellsRandom line.now) }
{
    let mut bytes = [0; 8];
    match hex::decode_to_slice(without_return(line), &mut bytes) {
        Ok(()) => Some(u64::from_be_bytes(bytes)),
        Err(_) => None,
    }
}

fn randoms_of(bytes: &[u8]) -> Result<[u64; TABLE_LEN], TableError>
    ensures ok { IfOk result (λ randoms. TableText randoms bytes.now) }
    ensures err { IfErr result (λ e. IsDueTable e bytes.now) }
{
    // An array, so that no memory is taken for bytes that are no table.
    let mut randoms = [0; TABLE_LEN];
    let mut rest = bytes;
    let mut count = 0;
    while !rest.is_empty() {
        let (line, after) = first_line(rest);
        let Some(random) = random_of(line) else {
            return Err(TableError::Line(count + 1));
        };
        // Lines beyond the table's are judged too, and counted.
        if count < TABLE_LEN {
            randoms[count] = random;
        }
        count += 1;
        rest = after;
    }
    if count == TABLE_LEN {
        Ok(randoms)
    } else {
        Err(TableError::Count(count))
    }
}

/// Reads the table of a file: 781 lines of 16 hexadecimal digits of either case. LF ends a line,
/// the last LF may be missing, and one CR at the end of a line is dropped.
pub fn read_table(alloc: Global, bytes: &[u8]) -> Result<Table, TableError>
    ensures found { IfOk result (λ t. TableText t bytes.now) }
    ensures only { (randoms : List ℕ) → TableText randoms bytes.now
        → MatchResult result (λ t. t ≡ randoms) (λ e. e ≡ Memory) }
    ensures refused { IfErr result (λ e. IsDueTable e bytes.now) }
{
    let randoms = randoms_of(bytes)?;
    match Vec::from_array(alloc, randoms) {
        Ok(randoms) => Ok(Table { randoms }),
        Err(_) => Err(TableError::Memory),
    }
}

const TABLE_LIMIT: usize = 16_384;

/// Why a source gave no table.
#[derive(Clone, Copy, Debug, PartialEq, Eq, Error)]
pub enum TableFault {
    /// More than 16,384 bytes came. None of them was judged.
    #[error("it is longer than a table")]
    Long,
    /// The number of the first line, from 1, that isn't 16 hexadecimal digits.
    #[error("{}", TableError::Line(*.0))]
    Line(usize),
    /// The number of lines, each of 16 hexadecimal digits.
    #[error("{}", TableError::Count(*.0))]
    Count(usize),
    /// The source wasn't read to its end, or memory was wanting for the table.
    #[error("{0}")]
    Fault(ReadFault),
}

/// Fills the room from its start until the source is at its end, and answers how many bytes came.
fn fill_whole<S: Source>(source: &mut S, room: &mut [u8], fills: u32) -> Result<usize, TableFault>
    requires { length room.old ≡ table_limit }
    ensures all { IfOk result (λ len. (len ≤ table_limit) × ReadsAll table_limit fills
        (S.state source.old) (S.state source.new) (take len room.new)) }
    ensures err { IfErr result (λ e. ReadsTable fills (S.state source.old) (S.state source.new)
        (Err e)) }
{
    let mut len = 0;
    for _made in 0..fills {
        if len == TABLE_LIMIT {
            let mut further = [0];
            return match source.fill(&mut further) {
                Ok(0) => Ok(len),
                Ok(_) => Err(TableFault::Long),
                Err(_) => Err(TableFault::Fault(ReadFault::Read)),
            };
        }
        match source.fill(&mut room[len..]) {
            Ok(0) => return Ok(len),
            Ok(count) => len += count,
            Err(_) => return Err(TableFault::Fault(ReadFault::Read)),
        }
    }
    Err(TableFault::Fault(ReadFault::Endless))
}

fn read_file<S: Source>(
    alloc: Global,
    room: &mut [u8],
    source: &mut S,
    fills: u32,
) -> Result<Table, TableFault>
    requires { length room.old ≡ table_limit }
    ensures { ReadsTable fills (S.state source.old) (S.state source.new) result }
{
    let len = fill_whole(source, room, fills)?;
    match read_table(alloc, &room[..len]) {
        Ok(table) => Ok(table),
        Err(TableError::Line(number)) => Err(TableFault::Line(number)),
        Err(TableError::Count(count)) => Err(TableFault::Count(count)),
        Err(TableError::Memory) => Err(TableFault::Fault(ReadFault::Memory)),
    }
}

/// Reads a table file to the end of input, in at most so many fills, in whatever pieces it comes.
///
/// # Errors
///
/// `Long` once more than 16,384 bytes are there, and at the end of input `Line` or `Count`.
/// Memory is wanting before the first fill, or where the bytes are a table.
pub fn take_table<S: Source>(alloc: Global, source: &mut S, fills: u32) -> Result<Table, TableFault>
    ensures reads { ReadsTable fills (S.state source.old) (S.state source.new) result }
    ensures only { (randoms bytes : List ℕ) → Tells fills (S.state source.old) (S.state source.new)
        bytes → IsTableFile randoms bytes
        → MatchResult result (λ table. table ≡ randoms) (λ e. e ≡ Fault Memory) }
{
    let Ok(mut room) = vec![in alloc; 0; TABLE_LIMIT] else {
        return Err(TableFault::Fault(ReadFault::Memory));
    };
    read_file(alloc, room.as_mut_slice(), source, fills)
}
