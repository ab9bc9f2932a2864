//! The book of rows of points, and the weights of moves.

ghost use Rattle.std.specs.Prelude.{◌≡◌, ◌<◌, ◌≤◌, All, AllPairs, Any, MatchOption, OnErr, OnOk};
ghost use Rattle.std.specs.Prelude.{length};
ghost use Rattle.pb_points.specs.Group.{AddsBook, IsEntryGroup, IsGroup, Orders, entry_with};
ghost use Rattle.pb_points.specs.Rows.{IsBelow, frequent, from};
ghost use Rattle.pb_points.specs.TallyBook.{AddsSome};
ghost use Rattle.pb_points.specs.Weight.{Before, scaled};

use crate::row::Row;
use pb_poly::Entry;
use std::alloc::AllocError;
use std::cmp::Reverse;

/// Adds the book of the rows from the key `first` on, of what occurs at least so often.
pub(crate) fn push_book(
    entries: &mut Vec<Entry>,
    mut rows: Vec<Row>,
    least: u64,
    first: u64,
) -> Result<(), AllocError>
    requires { AllPairs IsBelow rows.items }
    ensures ok { OnOk result (AddsBook (frequent least (from first rows.items)) entries.old.items
        entries.new.items) }
    ensures err { OnErr result (AddsSome entries.old.items entries.new.items) }
{
    rows.retain(|row| row.key >= first && row.times >= least);
    for group in rows.chunk_by(|row, next| row.key == next.key) {
        push_group(entries, group)?;
    }
    Ok(())
}

fn push_group(entries: &mut Vec<Entry>, group: &[Row]) -> Result<(), AllocError>
    requires { IsGroup IsBelow group.now }
    ensures ok { OnOk result (AddsBook group.now entries.old.items entries.new.items) }
    ensures err { OnErr result (AddsSome entries.old.items entries.new.items) }
{
    let start = entries.len();
    let greatest = greatest_of(group);
    for row in group {
        if let Some(entry) = entry_of(row, greatest) {
            entries.push(entry)?;
        }
    }
    sort_group(&mut entries[start..]);
    Ok(())
}

fn greatest_of(rows: &[Row]) -> u64
    requires { 0 < length rows.now }
    ensures above { All (λ r. r.points ≤ result) rows.now }
    ensures met { Any (λ r. r.points ≡ result) rows.now }
{
    rows.iter().map(|row| row.points).max().unwrap()
}

/// Makes the entry of a row, or none where its weight is 0.
fn entry_of(row: &Row, greatest: u64) -> Option<Entry>
    requires { row.now.points ≤ greatest }
    ensures { MatchOption result
        (scaled row.now.points greatest ≡ 0)
        (λ e. (1 ≤ e.weight) × (e ≡ entry_with row.now (scaled row.now.points greatest))) }
{
    let weight = scale(row.points, greatest);
    (weight > 0).then_some(Entry {
        key: row.key,
        code: row.code,
        weight,
        learn: 0,
    })
}

fn sort_group(entries: &mut [Entry])
    requires { IsEntryGroup entries.old }
    ensures { Orders entries.old entries.new }
{
    entries.sort_unstable_by_key(|entry| (Reverse(entry.weight), entry.code));
}

/// Scales points to a weight: where `greatest`, the greatest points of the key, fits 16 bits, they
/// stay as they are, else it becomes 65535 and the others are rounded down.
pub fn scale(points: u64, greatest: u64) -> u16
    requires { points ≤ greatest }
    ensures { result ≡ scaled points greatest }
{
    let limit = u64::from(u16::MAX);
    if greatest <= limit {
        points as u16
    } else {
        (u128::from(points) * u128::from(limit) / u128::from(greatest)) as u16
    }
}
