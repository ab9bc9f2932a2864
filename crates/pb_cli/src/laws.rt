//! Laws of what the command line says, and of equality (`==`) between what is kept, as contracts of
//! functions that do nothing.

ghost use Rattle.std.specs.Prelude.{◌≡◌, ◌<◌, ◌^◌, ℕ, Bool, List, Some, codes, decimal};
ghost use Rattle.std.specs.Prelude.{unwrap_or};
ghost use Rattle.std.specs.Bool.{Decides};
ghost use Rattle.clap.specs.Values.{bool_text};
ghost use Rattle.clap.specs.Words.{Row, Text, one_of};
ghost use Rattle.pb_cli.specs.Orders.{HasFlag, SaysNumber, options_of};

use crate::order::Keeping;

/// An option whose text is the digits of a number says that number.
pub fn says_number()
    ensures { (id : Text) (number : ℕ) (rows : List Row) → number < 2 ^ 64
        → one_of id rows ≡ Some (decimal number) → SaysNumber id number rows }
{}

/// A flag is what its text says.
pub fn says_flag()
    ensures { (id : Text) (flag given : Bool) (rows : List Row) → HasFlag id flag rows
        → unwrap_or (one_of id rows) (codes "false") ≡ bool_text given → flag ≡ given }
{}

/// What is kept is equal exactly where it is of one kind, at paths of the same text, and synced
/// alike.
pub fn equal_keeping<'a>()
    ensures { (a b : Keeping) → Decides (⟦<Keeping<'a> as PartialEq>⟧.eq a b)
        (options_of a ≡ options_of b) }
{}
