//! A tally over a plain list of rows.

ghost use Rattle.std.specs.Prelude.{◌≡◌, ◌<◌, ℕ, IsOk, IsSome, OnErr, OnOk, length, position};
ghost use Rattle.std.specs.Prelude.{slice_set, vec_capacity};
ghost use Rattle.pb_points.specs.ListTally.{list_content, with_more};
ghost use Rattle.pb_points.specs.Rows.{is_row, row_at};
ghost use Rattle.pb_points.specs.Tally.{HasRoomFor, MakesRow, held, held_of};

use crate::row::{Row, sort_rows};
use crate::tally::Tally;
use std::alloc::{AllocError, Global};
use std::marker::Model;

/// The plainest tally: a list of rows in the order in which they were made, searched by each call.
#[derive(Drop)]
pub struct ListTally {
    rows: Vec<Row>,
}

impl Model for ListTally {
    ghost use Rattle.std.specs.Prelude.{List};
    ghost use Rattle.std.specs.List.{IsDistinct};
    ghost use Rattle.pb_points.specs.declared.row.Row.{Row};
    ghost use Rattle.pb_points.specs.Rows.{same_pair};

    ghost Value = { List Row };

    ghost view = { λ t. t.rows.items };

    ghost invariant = { λ t. IsDistinct same_pair t.rows.items };
}

pub(crate) fn position_of(rows: &[Row], key: u64, code: u16) -> Option<usize>
    ensures { result ≡ position (is_row key code) rows.now }
{
    rows.iter()
        .position(|row| row.key == key && row.code == code)
}

pub(crate) fn add_at(rows: &mut Vec<Row>, index: usize, points: u64)
    requires within { index < length rows.old.items }
    requires fits { HasRoomFor (held_of (row_at rows.old.items index)) points }
    ensures row { rows.new.items
        ≡ slice_set rows.old.items index (with_more points (row_at rows.old.items index)) }
    ensures capacity { vec_capacity rows.new ≡ vec_capacity rows.old }
{
    let row = &mut rows[index];
    row.points += points;
    row.times += 1;
}

pub(crate) fn find_held(rows: &[Row], key: u64, code: u16) -> (u64, u64)
    ensures { held (list_content rows.now) key code
        ≡ record { points = result.0; times = result.1 } }
{
    match position_of(rows, key, code) {
        Some(index) => {
            let row = rows[index];
            (row.points, row.times)
        }
        None => (0, 0),
    }
}

impl Tally for ListTally {
    ghost content = { list_content };

    fn new(alloc: Global) -> ListTally {
        ListTally {
            rows: Vec::new(alloc),
        }
    }

    fn ensure(&mut self, key: u64, code: u16) -> Result<(), AllocError>
        ensures ok { OnOk result (MakesRow (list_content self.old) (list_content self.new) key
            code) }
        ensures err { OnErr result ((k c : ℕ) → list_content self.new k c
            ≡ list_content self.old k c) }
        // A row that is there takes no memory.
        ensures there { IsSome (list_content self.old key code) → IsOk result }
    {
        if position_of(&self.rows, key, code).is_some() {
            return Ok(());
        }
        self.rows.push(Row {
            key,
            code,
            points: 0,
            times: 0,
        })?;
        Ok(())
    }

    fn add(&mut self, key: u64, code: u16, points: u64) {
        if let Some(index) = position_of(&self.rows, key, code) {
            add_at(&mut self.rows, index, points);
        }
    }

    fn held(&self, key: u64, code: u16) -> (u64, u64) {
        find_held(&self.rows, key, code)
    }

    fn rows(&self, alloc: Global) -> Result<Vec<Row>, AllocError> {
        let mut rows = Vec::from_slice(alloc, &self.rows)?;
        sort_rows(&mut rows)?;
        Ok(rows)
    }
}
