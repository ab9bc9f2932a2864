//! Rows that have too many points or plies for narrow ones.

ghost use Rattle.std.specs.Prelude.{◌≡◌, ◌<◌, ◌≤◌, vec_capacity, vec_len, OnOk};
ghost use Rattle.pb_points.specs.Bag.{bag_content, count_of};
ghost use Rattle.pb_points.specs.NarrowTally.{AddsWide};
ghost use Rattle.pb_points.specs.Tally.{HasRoomFor, held};

use crate::list_tally::{add_at, position_of};
use crate::row::Row;
use std::alloc::{AllocError, Global};

/// 128 KB of rows, which the system lays apart from the blocks: these use no page of them.
const LEAST: usize = 4096;

/// Adds a ply with its points, in a new row where there is none. It takes no memory.
pub(crate) fn add_wide(wide: &mut Vec<Row>, key: u64, code: u16, points: u64)
    requires room { count_of wide.old.items key code ≡ 0
        → vec_len wide.old < vec_capacity wide.old }
    requires fits { HasRoomFor (held (bag_content wide.old.items) key code) points }
    ensures adds { AddsWide wide.old.items wide.new.items key code points }
    ensures capacity { vec_capacity wide.new ≡ vec_capacity wide.old }
{
    match position_of(wide, key, code) {
        Some(index) => add_at(wide, index, points),
        None => wide.push_reserved(Row {
            key,
            code,
            points,
            times: 1,
        }),
    }
}

pub(crate) fn reserve_wide(
    alloc: Global,
    wide: &mut Vec<Row>,
    room: usize,
) -> Result<(), AllocError>
    ensures items { wide.new.items ≡ wide.old.items }
    ensures grows { vec_capacity wide.old ≤ vec_capacity wide.new }
    ensures room { OnOk result (room ≤ vec_capacity wide.new) }
{
    if room <= wide.capacity() {
        return Ok(());
    }
    // Made anew: a list that grows copies all the room it had, and so uses its pages.
    let mut anew = Vec::with_capacity(alloc, room.saturating_mul(2).max(LEAST))?;
    anew.extend_from_slice(wide)?;
    *wide = anew;
    Ok(())
}
