//! Narrow rows in blocks: growing by a block moves no row and leaves little room unused.

ghost use Rattle.std.specs.Prelude.{◌≡◌, ◌≤◌, ◌^◌, ◌+◌, ◌++◌, ◌∷◌, [], if◌then◌else◌, is_ok, false};
ghost use Rattle.std.specs.Prelude.{true, vec_capacity, vec_len, IfOk, MatchOption, OnOk};
ghost use Rattle.pb_points.specs.Bag.{IsRowAt, count_of, points_of as points, times_of as times};
ghost use Rattle.pb_points.specs.Blocks.{AddsThere, IsRowIn, rows_in, rows_of};

use crate::narrow::NarrowRow;
use std::alloc::{AllocError, Global};
use std::mem;

pub(crate) const BLOCK: usize = 128;

/// The full blocks, and beside their list the last one, so that adding a row reads no block before.
#[derive(Drop)]
pub(crate) struct Blocks {
    pub(crate) full: Vec<Vec<NarrowRow>>,
    pub(crate) last: Vec<NarrowRow>,
}

pub(crate) fn no_blocks(alloc: Global) -> Blocks
    ensures rows { rows_of result ≡ [] }
    ensures none { vec_len result.last ≡ 0 }
    ensures room { vec_capacity result.last ≡ 0 }
{
    Blocks {
        full: Vec::new(alloc),
        last: Vec::new(alloc),
    }
}

/// Adds a block, in place of the last one if that has no rows.
pub(crate) fn put_block(blocks: &mut Blocks, block: Vec<NarrowRow>) -> Result<(), AllocError>
    ensures rows { rows_of blocks.new
        ≡ (if is_ok result then rows_of blocks.old ++ block.items else rows_of blocks.old) }
    ensures last { blocks.new.last ≡ (if is_ok result then block else blocks.old.last) }
{
    if blocks.last.is_empty() {
        blocks.last = block;
        return Ok(());
    }
    blocks.full.reserve(1)?;
    let last = mem::replace(&mut blocks.last, block);
    blocks.full.push_reserved(last);
    Ok(())
}

pub(crate) fn push_row(alloc: Global, blocks: &mut Blocks, row: NarrowRow) -> Result<(), AllocError>
    ensures { rows_of blocks.new
        ≡ (if is_ok result then rows_of blocks.old ++ row ∷ [] else rows_of blocks.old) }
{
    if blocks.last.len() < blocks.last.capacity() {
        blocks.last.push_reserved(row);
        return Ok(());
    }
    let mut block = Vec::with_capacity(alloc, BLOCK)?;
    block.push_reserved(row);
    put_block(blocks, block)
}

/// Counts the rows, as if each block but the last were full.
fn most_rows(blocks: &Blocks) -> usize {
    blocks
        .full
        .len()
        .saturating_mul(BLOCK)
        .saturating_add(blocks.last.len())
}

pub(crate) fn listed(alloc: Global, blocks: &Blocks) -> Result<Vec<NarrowRow>, AllocError>
    ensures { IfOk result (λ v. v.items ≡ rows_of blocks.now) }
{
    let mut rows = Vec::with_capacity(alloc, most_rows(blocks))?;
    for block in &blocks.full {
        rows.extend_from_slice(block)?;
    }
    rows.extend_from_slice(&blocks.last)?;
    Ok(rows)
}

/// Finds the block of a row and its index there, from the end, as what was ensured last is near it.
fn index_in(blocks: &[Vec<NarrowRow>], key: u64, code: u16) -> Option<(usize, usize)>
    ensures { MatchOption result (count_of (rows_in blocks.now) key code ≡ 0)
        (λ p. IsRowIn blocks.now p.0 p.1 key code) }
{
    for block in (0..blocks.len()).rev() {
        if let Some(index) = index_of(&blocks[block], key, code) {
            return Some((block, index));
        }
    }
    None
}

fn index_of(rows: &[NarrowRow], key: u64, code: u16) -> Option<usize>
    ensures { MatchOption result (count_of rows.now key code ≡ 0)
        (λ index. IsRowAt rows.now index key code) }
{
    for index in (0..rows.len()).rev() {
        if rows[index].is_of(key, code) {
            return Some(index);
        }
    }
    None
}

/// Adds a ply to the last row of a key and a code, unless there is none or it has no room.
pub(crate) fn add_ply(blocks: &mut Blocks, key: u64, code: u16, points: u64) -> bool
    ensures added { result ≡ true
        → AddsThere (rows_of blocks.old) (rows_of blocks.new) key code points }
    ensures full { result ≡ false → rows_of blocks.new ≡ rows_of blocks.old }
    ensures len { vec_len blocks.new.last ≡ vec_len blocks.old.last }
    ensures room { vec_capacity blocks.new.last ≡ vec_capacity blocks.old.last }
{
    if let Some(index) = index_of(&blocks.last, key, code) {
        return blocks.last[index].add(points);
    }
    if let Some((block, index)) = index_in(&blocks.full, key, code) {
        return blocks.full[block][index].add(points);
    }
    false
}

fn held_in(rows: &[NarrowRow], key: u64, code: u16) -> (u64, u64)
    requires points_fit { points rows.now key code ≤ 2 ^ 63 }
    requires times_fit { times rows.now key code ≤ 2 ^ 63 }
    ensures points { result.0 ≡ points rows.now key code }
    ensures times { result.1 ≡ times rows.now key code }
{
    let (mut points, mut times) = (0, 0);
    for row in rows {
        if row.is_of(key, code) {
            let row = row.row();
            points += row.points;
            times += row.times;
        }
    }
    (points, times)
}

pub(crate) fn held_in_blocks(blocks: &Blocks, key: u64, code: u16) -> (u64, u64)
    requires points_fit { points (rows_of blocks.now) key code ≤ 2 ^ 63 }
    requires times_fit { times (rows_of blocks.now) key code ≤ 2 ^ 63 }
    ensures points { result.0 ≡ points (rows_of blocks.now) key code }
    ensures times { result.1 ≡ times (rows_of blocks.now) key code }
{
    let (mut points, mut times) = held_in(&blocks.last, key, code);
    for block in &blocks.full {
        let (more_points, more_times) = held_in(block, key, code);
        points += more_points;
        times += more_times;
    }
    (points, times)
}
