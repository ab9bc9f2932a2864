//! Rows of points: their order, and rows added up.

ghost use Rattle.std.specs.Prelude.{AllPairs, IsPermutation, OnOk};
ghost use Rattle.pb_points.specs.Rows.{IsUpTo};
ghost use Rattle.pb_points.specs.Bag.{IsAddedUp, SumsFit};

use std::alloc::AllocError;

/// Holds the points of one move under one key, and how often it was played.
#[derive(Clone, Copy, Debug, PartialEq, Eq)]
pub struct Row {
    /// The key of the setup before the move.
    pub key: u64,
    /// The code of the move.
    pub code: u16,
    /// Two points for each win of the side that made the move, one for each draw.
    pub points: u64,
    /// How many plies gave them.
    pub times: u64,
}

pub(crate) fn sort_rows(rows: &mut Vec<Row>) -> Result<(), AllocError>
    ensures sorted { OnOk result (AllPairs IsUpTo rows.new.items) }
    ensures permutation { IsPermutation rows.old.items rows.new.items }
{
    rows.sort_by_key(|row| (row.key, row.code))
}

/// Leaves one row for each key and code.
pub(crate) fn add_up(rows: &mut Vec<Row>)
    requires ordered { AllPairs IsUpTo rows.old.items }
    requires fit { SumsFit rows.old.items }
    ensures { IsAddedUp rows.old.items rows.new.items }
{
    let mut last = 0;
    for index in 1..rows.len() {
        let row = rows[index];
        let sum = &mut rows[last];
        if row.key == sum.key && row.code == sum.code {
            sum.points += row.points;
            sum.times += row.times;
        } else {
            last += 1;
            rows[last] = row;
        }
    }
    rows.truncate(last + 1);
}
