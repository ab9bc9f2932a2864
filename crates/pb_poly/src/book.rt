//! Books: entries in the order of their keys, their bytes, and what they hold for a setup.

ghost use Rattle.std.specs.Prelude.{◌≡◌, ◌≤◌, length, ◌==◌, All, MatchOption, take_while, IfOk};
ghost use Rattle.pb_io.specs.Sink.{Put};
ghost use Rattle.pb_poly.specs.Book.{book_bytes, NeverFall};
ghost use Rattle.pb_poly.specs.Entry.{IsEntry, entry_bytes};
ghost use Rattle.pb_board.specs.Refusal.{BreaksAt};
ghost use Rattle.pb_io.specs.Sink.{Writes};
ghost use Rattle.pb_poly.specs.Found.{Found};

use crate::code::move_of;
use crate::key::key_of;
use crate::table::Table;
use pb_board::Setup;
use pb_io::{Failed, Sink};
use pb_moves::Move;
use std::alloc::{AllocError, Global};
use std::marker::Model;

pub(crate) const ENTRY_LEN: usize = 16;

/// An entry of a PolyGlot book: a move in a setup, with its weight.
#[derive(Clone, Copy, Debug, PartialEq, Eq)]
pub struct Entry {
    /// The key of the setup before the move.
    pub key: u64,
    pub code: u16,
    pub weight: u16,
    /// 0 in each book that is made here.
    pub learn: u32,
}

impl Entry {
    pub(crate) fn to_bytes(self) -> [u8; ENTRY_LEN]
        ensures { result ≡ entry_bytes self }
    {
        let mut bytes = [0; ENTRY_LEN];
        bytes[..8].copy_from_slice(&self.key.to_be_bytes());
        bytes[8..10].copy_from_slice(&self.code.to_be_bytes());
        bytes[10..12].copy_from_slice(&self.weight.to_be_bytes());
        bytes[12..].copy_from_slice(&self.learn.to_be_bytes());
        bytes
    }

    pub(crate) fn from_bytes(bytes: &[u8; ENTRY_LEN]) -> Entry
        ensures bytes { entry_bytes result ≡ bytes.now }
        ensures rules { IsEntry result }
    {
        Entry {
            key: u64::from_be_bytes([
                bytes[0], bytes[1], bytes[2], bytes[3], bytes[4], bytes[5], bytes[6], bytes[7],
            ]),
            code: u16::from_be_bytes([bytes[8], bytes[9]]),
            weight: u16::from_be_bytes([bytes[10], bytes[11]]),
            learn: u32::from_be_bytes([bytes[12], bytes[13], bytes[14], bytes[15]]),
        }
    }
}

/// Puts the entry's 16 bytes: 8 of the key, 2 of the code, 2 of the weight and 4 of the learn
/// value, each big-endian.
pub fn write_entry<K: Sink>(sink: &mut K, entry: &Entry) -> Result<(), Failed>
    ensures { Put (K.state sink.old) (K.state sink.new) result (entry_bytes entry.now) }
{
    sink.put(&entry.to_bytes())
}

/// The most entries that are put at once.
pub const ENTRIES_AT_ONCE: usize = 64;

/// Puts the bytes of at most 64 entries at once.
pub fn write_entries<K: Sink>(sink: &mut K, entries: &[Entry]) -> Result<(), Failed>
    requires { length entries.now ≤ 64 }
    ensures { Put (K.state sink.old) (K.state sink.new) result (book_bytes entries.now) }
{
    let mut room = [0; ENTRIES_AT_ONCE * ENTRY_LEN];
    let mut len = 0;
    for entry in entries {
        room[len..len + ENTRY_LEN].copy_from_slice(&entry.to_bytes());
        len += ENTRY_LEN;
    }
    sink.put(&room[..len])
}

/// A PolyGlot book: entries whose keys never fall. Entries of one key stand together, in any order.
#[derive(Drop)]
pub struct Book {
    pub(crate) entries: Vec<Entry>,
}

impl Model for Book {
    ghost use Rattle.std.specs.Prelude.{List, All};
    ghost use Rattle.pb_poly.specs.declared.book.Entry.{Entry};
    ghost use Rattle.pb_poly.specs.Book.{NeverFall};
    ghost use Rattle.pb_poly.specs.Entry.{IsEntry};

    ghost Value = { List Entry };

    ghost view = { λ b. b.entries.items };

    ghost invariant = { λ b. NeverFall b.entries.items × All IsEntry b.entries.items };
}

impl Book {
    ghost use Rattle.std.specs.Prelude.{MatchResult, filter};

    /// Makes the book of these entries.
    ///
    /// # Errors
    ///
    /// The number, from 1, of the first entry whose key falls, with the entries.
    pub fn of(entries: Vec<Entry>) -> Result<Book, (usize, Vec<Entry>)>
        ensures { MatchResult result
            (λ b. (b ≡ entries.items) × NeverFall b × All IsEntry b)
            (λ p. (p.1.items ≡ entries.items) × BreaksAt NeverFall entries.items p.0) }
    {
        match first_fall(entries.as_slice()) {
            Some(number) => Err((number, entries)),
            None => Ok(Book { entries }),
        }
    }

    pub(crate) fn under(&self, key: u64) -> &[Entry]
        ensures { result.now ≡ filter (λ e. e.key == key) self.now }
    {
        let entries = self.entries();
        let first = entries.partition_point(|entry| entry.key < key);
        let rest = &entries[first..];
        &rest[..count_under(rest, key)]
    }

    /// Gives the entries in order.
    pub fn entries(&self) -> &[Entry]
        ensures value { result.now ≡ self.now }
        ensures ordered { NeverFall self.now }
        ensures bounds { All IsEntry self.now }
    {
        self.entries.as_slice()
    }
}

fn count_under(entries: &[Entry], key: u64) -> usize
    ensures { result ≡ length (take_while (λ e. e.key == key) entries.now) }
{
    entries.iter().take_while(|entry| entry.key == key).count()
}

/// The number, from 1, of the first entry whose key is below the key before it.
fn first_fall(entries: &[Entry]) -> Option<usize>
    ensures { MatchOption result (NeverFall entries.now × All IsEntry entries.now)
        (BreaksAt NeverFall entries.now) }
{
    let mut last = 0;
    for (before, &entry) in entries.iter().enumerate() {
        if entry.key < last {
            return Some(before + 1);
        }
        last = entry.key;
    }
    None
}

/// Puts the bytes of the entries in order, and flushes.
pub fn write_book<K: Sink>(sink: &mut K, book: &Book) -> Result<(), Failed>
    ensures { Writes (K.state sink.old) (K.state sink.new) result (book_bytes book.now) }
{
    for entry in book.entries() {
        write_entry(sink, entry)?;
    }
    sink.flush()
}

/// Gives the moves that the book has for the setup, with their weights, in the book's order: of
/// each entry under the setup's key whose code is that of a legal move, also of weight 0, and of
/// each of two entries of one move.
pub fn probe(
    alloc: Global,
    book: &Book,
    table: &Table,
    setup: &Setup,
) -> Result<Vec<(Move, u16)>, AllocError>
    ensures { IfOk result (λ found. Found book.now table.now setup.now found.items) }
{
    let key = key_of(table, setup);
    let mut found = Vec::new(alloc);
    for entry in book.under(key) {
        if let Some(m) = move_of(setup, entry.code) {
            found.push((m, entry.weight))?;
        }
    }
    Ok(found)
}
