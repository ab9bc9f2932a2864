//! Ids of submissions.

ghost use Rattle.std.specs.Prelude.{◌≡◌, ◌↔◌, IsTrue, Ok, SomeIff};
ghost use Rattle.std.specs.Cmp.Rules.{comparing, hashing};
ghost use Rattle.std.specs.Str.{bytes_eq};
ghost use Rattle.std.proofs.Common.{rules};
ghost use Rattle.pb_games.specs.Ids.{IsId, hashed};

use pb_board::Text;
use std::alloc::AllocError;
use std::hash::{Hash, Hasher};
use std::marker::Model;

const MAX_LEN: usize = 64;

/// Identifies a submission by 1 to 64 bytes of 33 to 126, and takes no memory of its own.
pub struct Id {
    text: Text<MAX_LEN>,
}

impl Model for Id {
    ghost use Rattle.std.specs.Prelude.{List, ℕ, refl};
    ghost use Rattle.pb_games.specs.Ids.{IsId};

    ghost Value = { List ℕ };

    ghost view = { λ a. a.text };

    ghost invariant = { λ a. IsId a.text };

    ghost inverse = { λ t. record { text = t } };

    ghost inverse_ok = { λ a h. refl };
}

impl Clone for Id {
    fn clone(&self) -> Result<Id, AllocError>
        ensures { result ≡ Ok self.now }
    {
        Ok(*self)
    }
}

impl Copy for Id {}

impl Id {
    /// Makes an id of 1 to 64 bytes of 33 to 126, and of no others.
    pub fn new(bytes: &[u8]) -> Option<Id>
        ensures { SomeIff result (IsId bytes.now) bytes.now }
    {
        is_id(bytes).then(|| Id::of(bytes))
    }

    pub(crate) fn of(bytes: &[u8]) -> Id
        requires { IsId bytes.now }
        ensures { result ≡ bytes.now }
    {
        Id {
            text: Text::of(bytes),
        }
    }

    /// Gives the bytes.
    pub fn as_bytes(&self) -> &[u8]
        ensures value { result.now ≡ self.now }
        ensures rules { IsId self.now }
    {
        self.text.as_bytes()
    }
}

pub(crate) fn is_id(bytes: &[u8]) -> bool
    ensures { IsTrue result ↔ IsId bytes.now }
{
    !bytes.is_empty() && bytes.len() <= MAX_LEN && bytes.iter().all(u8::is_ascii_graphic)
}

impl PartialEq for Id {
    ghost eq = { bytes_eq };

    ghost laws = { Prim.search (comparing, rules) };

    fn eq(&self, other: &Id) -> bool {
        self.as_bytes() == other.as_bytes()
    }
}

impl Eq for Id {
    ghost laws = { Prim.search (comparing, rules) };
}

impl Hash for Id {
    ghost hash_input = { hashed };

    ghost respects_eq = { Prim.search (hashing, rules) };

    fn hash<H: Hasher>(&self, state: &mut H) {
        state.write(self.as_bytes());
    }
}
