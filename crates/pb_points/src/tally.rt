//! Points and plies by key and code.

ghost use Rattle.std.specs.Prelude.{◌≡◌, ℕ, ◌<◌, ◌↔◌, Option, None, Some, IsSome, IfOk, IfSome};
ghost use Rattle.std.specs.Prelude.{OnOk, OnErr, AllPairs, Contains};

use crate::book::push_book;
use crate::row::Row;
use pb_poly::Entry;
use std::alloc::{AllocError, Global};

/// Holds points of moves under keys, and the plies that gave them: a finite map from key and code
/// to both, in which an absent row means none.
pub trait Tally: Drop {
    ghost use Rattle.pb_points.specs.declared.row.Row.{Row};
    ghost use Rattle.pb_points.specs.Rows.{IsBelow};
    ghost use Rattle.pb_points.specs.Tally.{Held, HasRoomFor, MakesRow, AddsPly, held, held_of};
    ghost use Rattle.pb_points.specs.TallyBook.{AddsBookOf, AddsSome, stretch_of};

    /// What is held of each key and code, where there is a row.
    ghost content: { Self → ℕ → ℕ → Option Held };

    /// Makes a tally without rows. It takes no memory.
    fn new(alloc: Global) -> Self
        ensures { (k c : ℕ) → content result k c ≡ None };

    /// Makes a row without plies where there is none, so that plies can be added to it.
    ///
    /// # Errors
    ///
    /// A new row needed memory that wasn't there. Nothing has changed then.
    fn ensure(&mut self, key: u64, code: u16) -> Result<(), AllocError>
        ensures ok { OnOk result (MakesRow (content self.old) (content self.new) key code) }
        ensures err { OnErr result ((k c : ℕ) → content self.new k c ≡ content self.old k c) };

    /// Adds a ply with its points to a row that is there, up to 2^63 points and plies in all. It
    /// takes no memory.
    fn add(&mut self, key: u64, code: u16, points: u64)
        requires row { IsSome (content self.old key code) }
        requires fits { HasRoomFor (held (content self.old) key code) points }
        ensures { AddsPly (content self.old) (content self.new) key code points };

    /// Reads the points of a key and a code, and counts their plies: 0 of both where there is no
    /// row. It takes no memory.
    fn held(&self, key: u64, code: u16) -> (u64, u64)
        ensures { held (content self.now) key code
            ≡ record { points = result.0; times = result.1 } };

    /// Reads the points of a key and a code, 0 where there is no row. It takes no memory.
    fn points(&self, key: u64, code: u16) -> u64
        ensures { result ≡ (held (content self.now) key code).points }
    {
        self.held(key, code).0
    }

    /// Counts the plies of a key and a code, 0 where there is no row. It takes no memory.
    fn times(&self, key: u64, code: u16) -> u64
        ensures { result ≡ (held (content self.now) key code).times }
    {
        self.held(key, code).1
    }

    /// Lists each row once, by key and then code rising.
    ///
    /// # Errors
    ///
    /// The list needed memory that wasn't there.
    fn rows(&self, alloc: Global) -> Result<Vec<Row>, AllocError>
        ensures order { IfOk result (λ v. AllPairs IsBelow v.items) }
        ensures each { IfOk result (λ v. (r : Row)
            → Contains v.items r ↔ (content self.now r.key r.code ≡ Some (held_of r))) };

    /// Adds the book of a stretch of keys from `first` on, of moves that were played at least so
    /// many times, and answers with which key the next stretch begins, or none after the last.
    ///
    /// # Errors
    ///
    /// The rows or the entries needed memory that wasn't there. The entries that stood in the list
    /// stand there still, and some may be behind them.
    fn add_stretch(
        &self,
        alloc: Global,
        least: u64,
        first: u64,
        entries: &mut Vec<Entry>,
    ) -> Result<Option<u64>, AllocError>
        ensures ok { IfOk result (λ next. AddsBookOf (stretch_of first next (content self.now))
            least entries.old.items entries.new.items) }
        ensures onward { IfOk result (λ next. IfSome next (λ n. first < n)) }
        ensures err { OnErr result (AddsSome entries.old.items entries.new.items) }
    {
        push_book(entries, self.rows(alloc)?, least, first)?;
        Ok(None)
    }

    /// Adds the book of moves that were played at least so many times, one stretch of keys after
    /// the other.
    ///
    /// # Errors
    ///
    /// As those of `add_stretch`.
    fn add_book(
        &self,
        alloc: Global,
        least: u64,
        entries: &mut Vec<Entry>,
    ) -> Result<(), AllocError>
        ensures ok { OnOk result (AddsBookOf (content self.now) least entries.old.items
            entries.new.items) }
        ensures err { OnErr result (AddsSome entries.old.items entries.new.items) }
    {
        let mut next = Some(0);
        while let Some(first) = next {
            next = self.add_stretch(alloc, least, first, entries)?;
        }
        Ok(())
    }
}
