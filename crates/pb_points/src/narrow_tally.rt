//! The tally over narrow rows in blocks.

ghost use Rattle.std.specs.Prelude.{◌≡◌, ◌<◌, ◌≤◌, ◌+◌, AllPairs, length, vec_capacity, vec_len};
ghost use Rattle.std.specs.Prelude.{IfOk, OnOk};
ghost use Rattle.std.proofs.Props.{props};
ghost use Rattle.pb_points.specs.Bag.{HoldsSame, IsAddedUp, SumsFit, bag_content};
ghost use Rattle.pb_points.specs.Blocks.{rows_of};
ghost use Rattle.pb_points.specs.NarrowTally.{AreNarrowed, AreSound, all_of};
ghost use Rattle.pb_points.specs.Rows.{IsBelow};
ghost use Rattle.pb_points.specs.Tally.{MakesRow};

use crate::blocks::{
    BLOCK, Blocks, add_ply, held_in_blocks, listed, no_blocks, push_row, put_block,
};
use crate::list_tally::find_held;
use crate::narrow::{NarrowRow, add_rows};
use crate::row::{Row, add_up, sort_rows};
use crate::spread::order_rows;
use crate::tally::Tally;
use crate::wide::{add_wide, reserve_wide};
use std::alloc::{AllocError, Global};

/// From how many blocks on a full list of them is added up before it grows.
const FULL_LIST: usize = 128;

/// A tally whose `ensure` puts a narrow row at the end and looks for none, and whose `add` looks
/// from the end. A full list of blocks is added up before it grows, so that memory goes by keys and
/// codes and not by calls of `ensure`.
///
/// What a narrow row has no room for goes to a wide one. Since `add` takes no memory, there is room
/// for as many wide rows as narrow ones. It is hardly ever used, and until it is the system gives
/// no page of it but the first.
#[derive(Drop)]
pub struct NarrowTally {
    alloc: Global,
    rows: Blocks,
    /// How many rows come before the last block.
    before: usize,
    wide: Vec<Row>,
    ghost sound: { AreSound (rows_of rows) wide.items } by { Prim.hlevel props },
    ghost counted: { before + vec_len rows.last ≡ length (rows_of rows) },
    ghost room: { before + vec_capacity rows.last ≤ vec_capacity wide },
}

#[derive(Drop)]
struct Narrowed {
    rows: Blocks,
    wide: Vec<Row>,
}

/// Narrows each row. One that has too much stays wide, beside an empty narrow one.
fn narrow(alloc: Global, sums: &[Row]) -> Result<Narrowed, AllocError>
    requires { AllPairs IsBelow sums.now }
    ensures { IfOk result (λ p. AreNarrowed sums.now (rows_of p.rows) p.wide.items) }
{
    let mut rows = no_blocks(alloc);
    let mut wide = Vec::new(alloc);
    for sum in sums {
        match NarrowRow::of(sum) {
            Some(row) => push_row(alloc, &mut rows, row)?,
            None => {
                push_row(alloc, &mut rows, NarrowRow::empty(sum.key, sum.code))?;
                wide.push(*sum)?;
            }
        }
    }
    Ok(Narrowed { rows, wide })
}

impl NarrowTally {
    /// Lists one row for each key and code, in order.
    fn sums(&self, alloc: Global) -> Result<Vec<Row>, AllocError>
        ensures { IfOk result (λ v. IsAddedUp (all_of self.now.rows self.now.wide) v.items) }
    {
        let mut narrow = listed(alloc, &self.rows)?;
        order_rows(alloc, &mut narrow)?;
        let mut rows = Vec::with_capacity(alloc, narrow.len() + self.wide.len())?;
        add_rows(&mut rows, &narrow)?;
        if !self.wide.is_empty() {
            rows.extend_from_slice(&self.wide)?;
            sort_rows(&mut rows)?;
        }
        add_up(&mut rows);
        Ok(rows)
    }

    #[inline(always)]
    fn push_empty(&mut self, key: u64, code: u16)
        requires { vec_len self.old.rows.last < vec_capacity self.old.rows.last }
        ensures { MakesRow (bag_content (all_of self.old.rows self.old.wide))
            (bag_content (all_of self.new.rows self.new.wide)) key code }
    {
        self.rows.last.push_reserved(NarrowRow::empty(key, code));
    }

    /// Begins a block, with room for as many wide rows.
    fn begin_block(&mut self) -> Result<(), AllocError>
        ensures same { all_of self.new.rows self.new.wide ≡ all_of self.old.rows self.old.wide }
        ensures room { OnOk result (vec_len self.new.rows.last < vec_capacity self.new.rows.last) }
    {
        let block = Vec::with_capacity(self.alloc, BLOCK)?;
        let before = self.before + self.rows.last.len();
        reserve_wide(self.alloc, &mut self.wide, before + block.capacity())?;
        put_block(&mut self.rows, block)?;
        self.before = before;
        Ok(())
    }

    /// Leaves one row for each key and code, and makes room for three times as many blocks more:
    /// room for as many alone costs 200,000 games a fifth of the time.
    fn add_up(&mut self) -> Result<(), AllocError>
        ensures { HoldsSame (all_of self.old.rows self.old.wide)
            (all_of self.new.rows self.new.wide) }
    {
        let sums = self.sums(self.alloc)?;
        let mut narrowed = narrow(self.alloc, &sums)?;
        let many = narrowed.rows.full.len();
        narrowed.rows.full.reserve(many.saturating_mul(3))?;
        let before = sums.len() - narrowed.rows.last.len();
        reserve_wide(
            self.alloc,
            &mut narrowed.wide,
            before + narrowed.rows.last.capacity(),
        )?;
        self.rows = narrowed.rows;
        self.before = before;
        self.wide = narrowed.wide;
        Ok(())
    }

    /// Begins a block, and adds up the rows before where a list of many blocks is full.
    fn make_room(&mut self) -> Result<(), AllocError>
        ensures same { HoldsSame (all_of self.old.rows self.old.wide)
            (all_of self.new.rows self.new.wide) }
        ensures room { OnOk result (vec_len self.new.rows.last < vec_capacity self.new.rows.last) }
    {
        if self.rows.full.len() >= FULL_LIST.max(self.rows.full.capacity()) {
            self.add_up()?;
        }
        self.begin_block()
    }
}

impl Tally for NarrowTally {
    ghost content = { λ t. bag_content (all_of t.rows t.wide) };

    fn new(alloc: Global) -> NarrowTally {
        NarrowTally {
            alloc,
            rows: no_blocks(alloc),
            before: 0,
            wide: Vec::new(alloc),
        }
    }

    fn ensure(&mut self, key: u64, code: u16) -> Result<(), AllocError> {
        if self.rows.last.len() >= self.rows.last.capacity() {
            self.make_room()?;
        }
        self.push_empty(key, code);
        Ok(())
    }

    fn add(&mut self, key: u64, code: u16, points: u64) {
        if !add_ply(&mut self.rows, key, code, points) {
            add_wide(&mut self.wide, key, code, points);
        }
    }

    fn held(&self, key: u64, code: u16) -> (u64, u64) {
        let (points, times) = held_in_blocks(&self.rows, key, code);
        let (more_points, more_times) = find_held(&self.wide, key, code);
        (points + more_points, times + more_times)
    }

    fn rows(&self, alloc: Global) -> Result<Vec<Row>, AllocError> {
        self.sums(alloc)
    }
}
