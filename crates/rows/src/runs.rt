//! Answers of which equal ones in a row are told once, and long ones of which a digest is told.

use crate::page::{Done, NO_ROW, Page, Trouble};
use crate::text::count_of;
use std::alloc::{AllocError, Global};
use std::fmt::Write;

/// More puts and flushes than any row makes.
const MOST_CALLS: usize = 1000;

/// The start and the factor of a checksum (FNV-1a of 64 bits).
const BASIS: u64 = 0xcbf2_9ce4_8422_2325;

const PRIME: u64 = 0x0000_0100_0000_01b3;

/// Tells how many lines an answer has and the checksum of its bytes, then its first and its last
/// line.
pub fn tell_digest(page: &mut Page, answer: &str) {
    let mut sum = BASIS;
    for byte in answer.as_bytes() {
        sum = (sum ^ u64::from(*byte)).wrapping_mul(PRIME);
    }
    let count = answer.lines().count();
    let first = answer.lines().next().unwrap_or("");
    let last = answer.lines().last().unwrap_or("");
    let _ = write!(page, "{count} lines, checksum {sum:016x}\n{first}\n{last}");
}

/// Tells the answer to a row for each number. Equal answers in a row are told once, with their
/// first and last number. The row stands behind the first number and the last, with a TAB between
/// each two, and has `{n}` in the places of the number.
pub fn each<F: FnMut(&mut Page, &str) -> Done>(
    page: &mut Page,
    written: &str,
    mut answer: F,
) -> Done
    requires { F.IsAlwaysCallable answer }
{
    let (first, rest) = written.split_once('\t').ok_or(Trouble::Row)?;
    let (last, row) = rest.split_once('\t').ok_or(Trouble::Row)?;
    let (mut first, last) = (count_of(first), count_of(last));
    let mut told = Page::new(page.alloc);
    for number in first..=last {
        let mut next = Page::new(page.alloc);
        answer(&mut next, row_at(page.alloc, row, number)?.as_str())?;
        next.done()?;
        if number > first && next.as_str() != told.as_str() {
            tell_run(page, first, number - 1, &told);
            first = number;
        }
        told = next;
    }
    tell_run(page, first, last, &told);
    Ok(())
}

/// A row with this number in the places of `{n}`.
fn row_at(alloc: Global, row: &str, number: usize) -> Result<String, AllocError> {
    let digits = format!(in alloc; "{number}")?;
    row.replace(alloc, "{n}", digits.as_str())
}

/// Tells the answers to a row for 0, 1, 2, .. in the places of `{n}`, up to the first number at
/// which no write fails. Equal ones in a row are told once.
pub fn fuses<F: FnMut(&mut Page, &str) -> Done>(page: &mut Page, row: &str, mut answer: F) -> Done
    requires { F.IsAlwaysCallable answer }
{
    let mut told = Page::new(page.alloc);
    for good in 0..MOST_CALLS {
        let mut next = Page::new(page.alloc);
        answer(&mut next, row_at(page.alloc, row, good)?.as_str())?;
        next.done()?;
        if good == 0 || next.as_str() != told.as_str() {
            page.put(next.as_str());
            page.put("\n");
        }
        if !next.as_str().contains("Write") && !next.as_str().contains("Failed") {
            return Ok(());
        }
        told = next;
    }
    NO_ROW
}

fn tell_run(page: &mut Page, first: usize, last: usize, answer: &Page) {
    let answer = answer.as_str();
    let _ = write!(page, "from {first} to {last}\n{answer}\n");
}
