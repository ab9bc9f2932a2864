//! What of the games counts for the book.

ghost use Rattle.std.specs.Prelude.{◌≡◌, SomeIff};
ghost use Rattle.pb_accepted.specs.Rules.{AreRules, CountingRules, all_plies};

use pb_games::MAX_PLIES;
use std::marker::Model;

/// Bounds the occurrences that a move may be asked for.
pub const MAX_LEAST: u32 = 1_000_000;

/// Tells how many first plies of each game count, and how often a move must occur in them to be in
/// the book.
#[derive(Clone, Copy, Debug, PartialEq, Eq)]
pub struct Rules {
    plies: u32,
    least: u32,
}

impl Model for Rules {
    ghost use Rattle.pb_accepted.specs.Rules.{AreRules, CountingRules};

    ghost Value = { CountingRules };

    ghost view = { λ r. record { plies = r.plies; least = r.least } };

    ghost invariant = { λ r. AreRules (record { plies = r.plies; least = r.least }) };

    ghost inverse = { λ r. record { plies = r.plies; least = r.least } };
}

impl Rules {
    /// Makes rules where `plies` is in 1 to 1,024 and `least` in 1 to 1,000,000, and of no others.
    pub fn new(plies: u32, least: u32) -> Option<Rules>
        ensures { SomeIff result (AreRules (record { plies = plies; least = least }))
            (record { plies = plies; least = least }) }
    {
        if (1..=MAX_PLIES).contains(&plies) && (1..=MAX_LEAST).contains(&least) {
            Some(Rules { plies, least })
        } else {
            None
        }
    }

    /// Makes rules by which all plies count, and each move.
    pub fn all_plies() -> Rules
        ensures { result ≡ all_plies }
    {
        Rules {
            plies: MAX_PLIES,
            least: 1,
        }
    }

    /// Tells how many first plies of each game count, 1 to 1,024.
    pub fn plies(self) -> u32
        ensures value { result ≡ self.plies }
        ensures rules { AreRules self }
    {
        self.plies
    }

    /// Tells how often a move must occur to be in the book, 1 to 1,000,000.
    pub fn least(self) -> u32
        ensures value { result ≡ self.least }
        ensures rules { AreRules self }
    {
        self.least
    }
}
