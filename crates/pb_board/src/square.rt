//! Squares of the board.

ghost use Rattle.std.specs.Prelude.{◌≡◌, ◌<◌, ◌+◌, ◌*◌, ◌/◌, ◌%◌, ℕ, MatchOption, SomeIff, IfSome};

use std::marker::Model;

/// Names a square by its number `8 * rank + file`: a1 is 0, and h8 is 63.
#[derive(Clone, Copy, Debug, PartialEq, Eq, PartialOrd, Ord, Hash)]
pub struct Square {
    index: u8,
}

impl Model for Square {
    ghost use Rattle.std.specs.Prelude.{ℕ, ◌<◌};

    ghost Value = { ℕ };

    ghost view = { λ s. s.index };

    ghost invariant = { λ s. s.index < 64 };

    ghost inverse = { λ n. record { index = n } };
}

impl Square {
    pub(crate) const A1: Square = Square { index: 0 };

    pub(crate) const C1: Square = Square { index: 2 };

    pub(crate) const D1: Square = Square { index: 3 };

    pub(crate) const E1: Square = Square { index: 4 };

    pub(crate) const F1: Square = Square { index: 5 };

    pub(crate) const G1: Square = Square { index: 6 };

    pub(crate) const H1: Square = Square { index: 7 };

    pub(crate) const A8: Square = Square { index: 56 };

    pub(crate) const C8: Square = Square { index: 58 };

    pub(crate) const D8: Square = Square { index: 59 };

    pub(crate) const E8: Square = Square { index: 60 };

    pub(crate) const F8: Square = Square { index: 61 };

    pub(crate) const G8: Square = Square { index: 62 };

    pub(crate) const H8: Square = Square { index: 63 };

    /// Finds the square on a file and a rank, both counted from 0. None exactly where one is above
    /// 7.
    pub fn new(file: u8, rank: u8) -> Option<Square>
        ensures { SomeIff result ((file < 8) × (rank < 8)) (8 * rank + file) }
    {
        if file < 8 && rank < 8 {
            Some(Square {
                index: 8 * rank + file,
            })
        } else {
            None
        }
    }

    /// Finds the square of this number, `8 * rank + file`. None exactly where it is above 63.
    pub fn from_index(index: u8) -> Option<Square>
        ensures { SomeIff result (index < 64) index }
    {
        if index < 64 {
            Some(Square { index })
        } else {
            None
        }
    }

    /// Gives the file, from 0 for the a-file.
    pub fn file(self) -> u8
        ensures below { result < 8 }
        ensures value { result ≡ self % 8 }
    {
        self.index % 8
    }

    /// Gives the rank, from 0 for rank 1.
    pub fn rank(self) -> u8
        ensures below { result < 8 }
        ensures value { result ≡ self / 8 }
    {
        self.index / 8
    }

    /// Gives the number of the square.
    pub fn index(self) -> u8
        ensures below { result < 64 }
        ensures value { result ≡ self }
    {
        self.index
    }
}
