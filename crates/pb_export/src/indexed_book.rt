//! A book in which the entries of a key are found at once.

ghost use Rattle.std.specs.Prelude.{◌≡◌, ◌≤◌, ◌==◌, IfOk, filter, length, nat_lt, take_while};
ghost use Rattle.pb_poly.specs.Book.{NeverFall};
ghost use Rattle.pb_export.specs.Indexing.{AreFirsts, AreFirstsUnder, IsFirstUnder};

use pb_poly::{Book, Entry};
use std::alloc::{AllocError, Global};
use std::marker::Model;

/// How many fronts of 18 bits a key may have. With a million entries, those of a front lie in one
/// or two lines of the processor's cache.
const FRONTS: u64 = 262_144;

/// A book, and for each front of a key the index from which on its entries are looked for.
#[derive(Drop)]
pub(crate) struct IndexedBook {
    book: Book,
    firsts: Vec<u32>,
}

impl Model for IndexedBook {
    ghost use Rattle.std.specs.Prelude.{List};
    ghost use Rattle.pb_poly.specs.declared.book.Entry.{Entry};
    ghost use Rattle.pb_export.specs.Indexing.{AreFirsts};

    ghost Value = { List Entry };

    ghost view = { λ b. b.book };

    ghost invariant = { λ b. AreFirsts b.book b.firsts.items };
}

impl IndexedBook {
    pub(crate) fn of(alloc: Global, book: Book) -> Result<IndexedBook, AllocError>
        ensures { IfOk result (λ b. b ≡ book) }
    {
        let firsts = firsts_of(alloc, book.entries())?;
        Ok(IndexedBook { book, firsts })
    }

    pub(crate) fn under(&self, first: usize, key: u64) -> &[Entry]
        requires { IsFirstUnder self.now key first }
        ensures { result.now ≡ filter (λ e. e.key == key) self.now }
    {
        let rest = &self.book.entries()[first..];
        &rest[..count_under(rest, key)]
    }

    /// The index of the first entry of each key. What is read for them lies far apart, and in a
    /// short loop the processor waits for several at once.
    pub(crate) fn firsts_under(&self, alloc: Global, keys: &[u64]) -> Result<Vec<usize>, AllocError>
        ensures { IfOk result (λ firsts. AreFirstsUnder self.now keys.now firsts.items) }
    {
        let mut firsts = Vec::with_capacity(alloc, keys.len())?;
        for key in keys {
            firsts.push(self.first_under(*key))?;
        }
        Ok(firsts)
    }

    fn first_under(&self, key: u64) -> usize
        ensures { IsFirstUnder self.now key result }
    {
        let IndexedBook { book, firsts } = self;
        let start = firsts[(key >> 46) as usize] as usize;
        start + count_below(&book.entries()[start..], key)
    }
}

/// The index of the first entry of each front, as far as 32 bits hold it: a lower one serves as
/// well.
fn firsts_of(alloc: Global, entries: &[Entry]) -> Result<Vec<u32>, AllocError>
    requires { NeverFall entries.now }
    ensures { IfOk result (λ firsts. AreFirsts entries.now firsts.items) }
{
    let mut firsts = Vec::with_capacity(alloc, FRONTS as usize)?;
    let mut start = 0;
    for front in 0..FRONTS {
        start += count_below(&entries[start..], front << 46);
        firsts.push(capped(start))?;
    }
    Ok(firsts)
}

fn capped(start: usize) -> u32
    ensures { result ≤ start }
{
    start.min(u32::MAX as usize) as u32
}

fn count_below(entries: &[Entry], key: u64) -> usize
    ensures { result ≡ length (take_while (λ e. nat_lt e.key key) entries.now) }
{
    entries.iter().take_while(|entry| entry.key < key).count()
}

fn count_under(entries: &[Entry], key: u64) -> usize
    ensures { result ≡ length (take_while (λ e. e.key == key) entries.now) }
{
    entries.iter().take_while(|entry| entry.key == key).count()
}
