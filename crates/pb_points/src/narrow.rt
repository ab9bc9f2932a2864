//! Rows of few points and plies.

ghost use Rattle.std.specs.Prelude.{◌≡◌, ◌+◌, ◌++◌, ◌≤◌, ◌^◌, ◌&&◌, ◌⊎◌, MatchOption, OnOk};
ghost use Rattle.std.specs.Prelude.{if◌then◌else◌, nat_lt};
ghost use Rattle.pb_points.specs.ListTally.{with_more};
ghost use Rattle.pb_points.specs.Rows.{is_row};

use crate::row::Row;
use std::alloc::AllocError;
use std::marker::Model;

/// A row of few points and plies, as nearly all are: 12 bytes, not 32.
#[derive(Clone, Copy)]
pub(crate) struct NarrowRow {
    key: [u8; 8],
    code: u16,
    points: u8,
    times: u8,
}

impl Model for NarrowRow {
    ghost use Rattle.std.specs.Prelude.{◌≡◌, ℕ, ◌<◌, get_or, length};
    ghost use Rattle.std.specs.Int.{from_le_bytes, to_le_bytes, w64};
    ghost use Rattle.pb_points.specs.NarrowKey.{narrow-back};
    ghost use Rattle.pb_points.specs.declared.row.Row.{Row};

    ghost Value = { Row };

    ghost view = { λ r. record {
      key = from_le_bytes w64 r.key;
      code = r.code;
      points = r.points;
      times = r.times;
    } };

    ghost invariant = { λ r. (length r.key ≡ 8) × ((i : ℕ) → get_or r.key i 0 < 256) };

    ghost inverse = { λ r. record {
      key = to_le_bytes w64 r.key;
      code = r.code;
      points = r.points;
      times = r.times;
    } };

    ghost inverse_ok = { λ r h. narrow-back
        (λ k. record { key = k; code = r.code; points = r.points; times = r.times }) r.key h };
}

impl NarrowRow {
    #[inline(always)]
    pub(crate) fn empty(key: u64, code: u16) -> NarrowRow
        ensures { result ≡ record { key = key; code = code; points = 0; times = 0 } }
    {
        NarrowRow {
            key: key.to_le_bytes(),
            code,
            points: 0,
            times: 0,
        }
    }

    pub(crate) fn of(row: &Row) -> Option<NarrowRow>
        ensures { MatchOption result ((2 ^ 8 ≤ row.now.points) ⊎ (2 ^ 8 ≤ row.now.times))
            (λ narrow. narrow ≡ row.now) }
    {
        let points = u8::try_from(row.points).ok()?;
        let times = u8::try_from(row.times).ok()?;
        Some(NarrowRow {
            key: row.key.to_le_bytes(),
            code: row.code,
            points,
            times,
        })
    }

    #[inline(always)]
    pub(crate) fn row(&self) -> Row
        ensures { result ≡ self.now }
    {
        Row {
            key: u64::from_le_bytes(self.key),
            code: self.code,
            points: u64::from(self.points),
            times: u64::from(self.times),
        }
    }

    #[inline(always)]
    pub(crate) fn is_of(&self, key: u64, code: u16) -> bool
        ensures { result ≡ is_row key code self.now }
    {
        u64::from_le_bytes(self.key) == key && self.code == code
    }

    #[inline(always)]
    pub(crate) fn add(&mut self, points: u64) -> bool
        ensures room { result
            ≡ (nat_lt (self.old.points + points) (2 ^ 8) && nat_lt (self.old.times + 1) (2 ^ 8)) }
        ensures added { self.new ≡ (if result then with_more points self.old else self.old) }
    {
        if points > u64::from(u8::MAX - self.points) || self.times == u8::MAX {
            return false;
        }
        self.points += points as u8;
        self.times += 1;
        true
    }
}

pub(crate) fn add_rows(rows: &mut Vec<Row>, narrow: &[NarrowRow]) -> Result<(), AllocError>
    ensures { OnOk result (rows.new.items ≡ rows.old.items ++ narrow.now) }
{
    for row in narrow {
        rows.push(row.row())?;
    }
    Ok(())
}
