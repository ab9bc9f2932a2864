//! A tally of tallies.

ghost use Rattle.std.specs.Prelude.{◌≡◌, ◌<◌, ◌≤◌, ◌^◌, ◌==◌, ◌&&◌, ℕ, IfOk, IfSome, length};
ghost use Rattle.pb_points.specs.PartTally.{HoldsOwn, HoldNothing, parts_content, part_of as part};
ghost use Rattle.pb_points.specs.TallyBook.{is_within};

use crate::narrow_tally::NarrowTally;
use crate::row::Row;
use crate::tally::Tally;
use pb_poly::Entry;
use std::alloc::{AllocError, Global};

/// One part for each value of the upper eight bits of a key.
const PARTS: usize = 256;

/// A tally for each value of the upper eight bits of a key, so that what is worked on is small and
/// near. The parts are made when the first row is.
#[derive(Drop)]
pub struct PartTally<T: Tally> {
    alloc: Global,
    parts: Vec<T>,
    ghost whole: { 0 < length parts.items → length parts.items ≡ 256 },
    ghost own: { HoldsOwn T.content parts.items },
}

/// The tally that the program uses: a ply costs a push and a look at the end of a short list, and
/// rows are put in order when they are listed.
pub type MapTally = PartTally<NarrowTally>;

fn part_of(key: u64) -> usize
    ensures { result ≡ part key }
{
    (key >> 56) as usize
}

/// Says where the next stretch of keys begins, where none goes beyond the part of its first key.
fn within_part(first: u64, next: Option<u64>) -> Option<u64>
    requires { IfSome next (λ n. first < n) }
    ensures keys { (k : ℕ) → k < 2 ^ 64
        → is_within first result k ≡ (is_within first next k && (part k == part first)) }
    ensures onward { IfSome result (λ n. first < n) }
{
    let part = part_of(first);
    match next {
        Some(next) if part_of(next) == part => Some(next),
        _ => (part as u64 + 1).checked_mul(1 << 56),
    }
}

fn empty_parts<T: Tally>(alloc: Global) -> Result<Vec<T>, AllocError>
    ensures whole { IfOk result (λ v. length v.items ≡ 256) }
    ensures nothing { IfOk result (λ v. HoldNothing T.content v.items) }
{
    let mut parts = Vec::with_capacity(alloc, PARTS)?;
    for _ in 0..PARTS {
        parts.push_reserved(T::new(alloc));
    }
    Ok(parts)
}

impl<T: Tally> Tally for PartTally<T> {
    ghost content = { λ t. parts_content T.content t.parts.items };

    fn new(alloc: Global) -> PartTally<T> {
        PartTally {
            alloc,
            parts: Vec::new(alloc),
        }
    }

    fn ensure(&mut self, key: u64, code: u16) -> Result<(), AllocError> {
        if self.parts.is_empty() {
            self.parts = empty_parts(self.alloc)?;
        }
        self.parts[part_of(key)].ensure(key, code)
    }

    fn add(&mut self, key: u64, code: u16, points: u64) {
        if let Some(part) = self.parts.get_mut(part_of(key)) {
            part.add(key, code, points);
        }
    }

    fn held(&self, key: u64, code: u16) -> (u64, u64) {
        match self.parts.get(part_of(key)) {
            Some(part) => part.held(key, code),
            None => (0, 0),
        }
    }

    fn rows(&self, alloc: Global) -> Result<Vec<Row>, AllocError> {
        let mut rows = Vec::new(alloc);
        for part in &self.parts {
            let more = part.rows(alloc)?;
            rows.extend_from_slice(&more)?;
        }
        Ok(rows)
    }

    fn add_stretch(
        &self,
        alloc: Global,
        least: u64,
        first: u64,
        entries: &mut Vec<Entry>,
    ) -> Result<Option<u64>, AllocError> {
        let Some(part) = self.parts.get(part_of(first)) else {
            return Ok(None);
        };
        let next = part.add_stretch(alloc, least, first, entries)?;
        Ok(within_part(first, next))
    }
}
