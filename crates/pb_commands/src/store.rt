//! What has a text, as a book has, and where a text is kept.

ghost use Rattle.std.specs.Prelude.{◌≡◌, ℕ, List, length};
ghost use Rattle.pb_ledger.specs.Booking.{BookText, WritesOrWants};
ghost use Rattle.pb_ledger.specs.Change.{between};
ghost use Rattle.pb_ledger.specs.Saving.{Saved};
ghost use Rattle.pb_commands.specs.Store.{TellsText, KeepsText, StoreState, store_error};

use pb_io::Sink;
use pb_ledger::{ExportFault, Ledger, Tally, save, save_book};
use std::alloc::Global;
use thiserror::Error;

/// What has a text, as a book and a ledger have.
pub trait Text {
    /// Which bytes its text is, and how many entries or games these tell.
    ghost is_text: { Self → List ℕ → ℕ → Type 0 };

    /// Puts the text, flushes, and answers how many entries or games it tells.
    ///
    /// # Errors
    ///
    /// The sink has failed, or there was no memory for what was to be put next. A front of the text
    /// may have been put then.
    fn write<K: Sink>(&self, sink: &mut K) -> Result<u64, ExportFault>
        ensures { TellsText (is_text self.now)
            (WritesOrWants (between K.state sink.old sink.new) result) result };
}

impl<T: Tally> Text for Ledger<T> {
    ghost is_text = { λ ledger bytes count. Saved ledger.accepted bytes
        × (count ≡ length ledger.accepted) };

    fn write<K: Sink>(&self, sink: &mut K) -> Result<u64, ExportFault> {
        save(self, sink)?;
        Ok(u64::from(self.len()))
    }
}

/// The book of a ledger, of which one stretch at a time is listed when it is put.
#[derive(Drop)]
pub struct LedgerBook<'a, T: Tally> {
    alloc: Global,
    /// The ledger.
    pub ledger: &'a Ledger<T>,
}

impl<'a, T: Tally> LedgerBook<'a, T> {
    /// Makes the book of this ledger. There always is one.
    pub fn of(alloc: Global, ledger: &'a Ledger<T>) -> LedgerBook<'a, T>
        ensures ledger { result.ledger.now ≡ ledger.now }
        ensures text { (bytes : List ℕ) × (count : ℕ) × BookText ledger.now bytes count }
    {
        // The proof reads from this use that the games are those of a ledger, and so have a book.
        let _held = ledger.len();
        LedgerBook { alloc, ledger }
    }
}

impl<T: Tally> Text for LedgerBook<'_, T> {
    ghost is_text = { λ book bytes count. BookText book.ledger.now bytes count };

    fn write<K: Sink>(&self, sink: &mut K) -> Result<u64, ExportFault> {
        save_book(self.alloc, self.ledger, sink)
    }
}

/// Why a text was not kept.
#[derive(Clone, Copy, Debug, PartialEq, Eq, Error)]
pub enum StoreError {
    /// The store can't be opened. What it held is still there.
    #[error("the store can't be opened")]
    Open,
    /// A write failed. A front of the text may be all that is left.
    #[error("the text can't be written")]
    Write,
    /// No memory for what was to be written next. A front of the text may be all that is left.
    #[error("no memory is left")]
    Memory,
}

impl From<ExportFault> for StoreError {
    ghost from_gives = { λ fault result. result ≡ store_error fault };

    fn from(fault: ExportFault) -> StoreError {
        match fault {
            ExportFault::Write => StoreError::Write,
            ExportFault::Memory => StoreError::Memory,
        }
    }
}

/// A store for one text.
pub trait Store {
    /// What is known of the store.
    ghost state: { Self → StoreState };

    /// Puts the text in the place of what was there, and answers how many entries or games it
    /// tells.
    fn keep<X: Text>(&mut self, text: &X) -> Result<u64, StoreError>
        // A store that can't be opened learns here alone that there is a text.
        requires { (bytes : List ℕ) × (count : ℕ) × X.is_text text.now bytes count }
        ensures { KeepsText (X.is_text text.now) (state self.old) (state self.new) result };
}
