//! A tally of one's own, by pb_ledger: points of moves in a tree. The tally gives the five calls
//! that `Tally` asks for. The book of a ledger that counts in it comes with the trait.

ghost use Rattle.std.specs.Prelude.{◌≡◌, IfOk, map};
ghost use Rattle.std.specs.BTreeMap.{IsOrdered, get};
ghost use Rattle.std.specs.Option.{option_map};
ghost use Rattle.library_uses.specs.Sums.{row_of, sum_held, sums_of};

use pb_ledger::{Row, Tally};
use std::alloc::{AllocError, Global};
use std::collections::BTreeMap;

/// Points, and the plies that gave them.
#[derive(Clone, Copy)]
struct Sum {
    points: u64,
    times: u64,
}

/// Points and plies by key and code, in the order of both.
#[derive(Drop)]
pub struct TreeTally {
    sums: BTreeMap<(u64, u16), Sum>,
}

impl Tally for TreeTally {
    ghost content = { λ t k c.
        option_map sum_held (get ⟦<(u64, u16) as Ord>⟧.cmp (sums_of t) (k, c)) };

    fn new(alloc: Global) -> TreeTally {
        TreeTally {
            sums: BTreeMap::new(alloc),
        }
    }

    fn ensure(&mut self, key: u64, code: u16) -> Result<(), AllocError> {
        if !self.sums.contains_key(&(key, code)) {
            let none = Sum {
                points: 0,
                times: 0,
            };
            self.sums.insert((key, code), none)?;
        }
        Ok(())
    }

    fn add(&mut self, key: u64, code: u16, points: u64) {
        if let Some(sum) = self.sums.get_mut(&(key, code)) {
            sum.points += points;
            sum.times += 1;
        }
    }

    fn held(&self, key: u64, code: u16) -> (u64, u64) {
        match self.sums.get(&(key, code)) {
            Some(sum) => (sum.points, sum.times),
            None => (0, 0),
        }
    }

    fn rows(&self, alloc: Global) -> Result<Vec<Row>, AllocError> {
        listed(alloc, &self.sums)
    }
}

/// The rows of the sums, in their order.
fn listed(alloc: Global, sums: &BTreeMap<(u64, u16), Sum>) -> Result<Vec<Row>, AllocError>
    ensures rows { IfOk result (λ v. v.items ≡ map row_of sums.now.entries) }
    ensures ordered { IsOrdered ⟦<(u64, u16) as Ord>⟧.cmp sums.now }
{
    sums.iter()
        .map(|(pair, sum)| Row {
            key: pair.0,
            code: pair.1,
            points: sum.points,
            times: sum.times,
        })
        .collect(alloc)
}
