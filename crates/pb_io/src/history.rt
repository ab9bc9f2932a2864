//! What was handed on, for contracts alone.

ghost use Rattle.std.specs.Prelude.{ℕ, ◌≡◌, List, [], ◌++◌};
ghost use Rattle.std.specs.Borrow.{ftrue};
ghost use Rattle.pb_io.specs.Sink.{known_or_none};

use std::io::Write;
use std::marker::{Model, PhantomData};

/// The bytes that were handed on so far: a list that only contracts know.
///
/// No memory holds the list, so the proofs of `new`, `of` and `add` alone say what it becomes, and
/// they are written by hand. One more such proof could let an empty body set the list to anything.
/// So none is to be written, of this type or of one that holds it. A field that holds one is
/// private: elsewhere a list begins empty or with what a writer tells, and grows by what is added.
/// That just what was handed on is added is for the contract of the caller to say.
#[derive(Drop)]
pub struct History {
    marker: PhantomData<u8>,
    pub ghost bytes: { List ℕ },
}

impl Model for History {
    ghost also_owns = { λ _. ftrue };
}

impl History {
    /// Begins with nothing handed on.
    #[inline(always)]
    pub fn new() -> History
        ensures { result.bytes ≡ [] }
    {
        History {
            marker: PhantomData,
        }
    }

    #[inline(always)]
    pub(crate) fn of<W: Write>(_writer: &W) -> History
        ensures { result.bytes ≡ known_or_none (W.contents _writer.now) }
    {
        History {
            marker: PhantomData,
        }
    }

    /// Notes that the bytes were handed on.
    #[inline(always)]
    pub fn add(&mut self, _bytes: &[u8])
        ensures { self.new.bytes ≡ self.old.bytes ++ _bytes.now }
    {}
}
