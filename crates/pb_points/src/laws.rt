//! Laws of rows, and of the room for a ply.

ghost use Rattle.std.specs.Prelude.{◌≡◌, ◌≤◌, ◌+◌, ◌^◌, ℕ};
ghost use Rattle.pb_board.specs.Equality.{IsEquality};
ghost use Rattle.pb_points.specs.Tally.{HasRoomFor, Held};

use crate::row::Row;

/// Says that a ply has room wherever neither sum passes 2^63 with it.
pub fn room()
    ensures { (h : Held) (n : ℕ) → h.points + n ≤ 2 ^ 63 → h.times + 1 ≤ 2 ^ 63 → HasRoomFor h n }
{}

/// Says that `==` of rows is equality, and that the clone of a row is that row.
pub fn equal_rows()
    ensures equal { IsEquality ⟦<Row as PartialEq>⟧.eq }
    ensures clone { (r s : Row) → ⟦<Row as Clone>⟧.is_clone r s → s ≡ r }
{}
