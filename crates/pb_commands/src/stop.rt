//! Why a command stops, the line that says why an input is refused, and the exit status.

ghost use Rattle.std.specs.Prelude.{◌≡◌, ◌++◌, Ok, decimal, false};
ghost use Rattle.pb_io.specs.Sink.{pieces_joined};
ghost use Rattle.pb_commands.specs.Judged.{Shows, PutsRefusal, Accepts, refused_verdict};
ghost use Rattle.pb_commands.specs.Judged.{unless_refused, stop_of, stop_of_store, status_of};
ghost use Rattle.pb_commands.specs.Judged.{with_end};
ghost use Rattle.pb_io.specs.declared.fault.Fault.TheVariants as fault;
ghost use Rattle.pb_commands.specs.declared.stop.Stopped.TheVariants as stopped;
ghost use Rattle.pb_commands.specs.declared.stop.Stop.TheVariants as stop;

use crate::store::StoreError;
use itoa::Buffer;
use pb_board::FenError;
use pb_io::{Fault, Sink, put_pieces};
use pb_ledger::LoadError;
use pb_poly::{BookError, TableFault};
use std::alloc::AllocError;
use thiserror::Error;

/// Why an input is refused: `Display` is the sentence for people, the line on the sink tells it in
/// fixed words.
#[derive(Clone, Copy, Debug, PartialEq, Eq, Error)]
pub enum Refused {
    /// The text is no FEN record.
    #[error("FEN: {0}")]
    Fen(FenError),
    /// The move text with this number, from 1, spells no move.
    #[error("move {0}: it isn't spelt like e2e4 or e7e8q")]
    Spelling(usize),
    /// The move with this number, from 1, isn't legal where it is played.
    #[error("move {0}: it isn't legal there")]
    Illegal(usize),
    /// The source gave no table.
    #[error("{0}")]
    Table(TableFault),
    /// The source gave no book.
    #[error("{0}")]
    Book(BookError),
    /// The saved ledger can't be gone on from.
    #[error("{0}")]
    Ledger(LoadError),
}

/// Why a command stopped.
#[derive(Clone, Copy, Debug, PartialEq, Eq, Error)]
pub enum Stopped {
    /// Its input was refused for this reason, and the line that says so was put.
    #[error("{0}")]
    Refused(Refused),
    /// It met a fault.
    #[error("{0}")]
    Fault(Fault),
}

impl From<Fault> for Stopped {
    ghost from_gives = { λ fault gives. gives ≡ stopped.Fault fault };

    fn from(fault: Fault) -> Stopped {
        Stopped::Fault(fault)
    }
}

impl From<AllocError> for Stopped {
    ghost from_gives = { λ _ gives. gives ≡ stopped.Fault fault.Memory };

    fn from(_: AllocError) -> Stopped {
        Stopped::Fault(Fault::Memory)
    }
}

/// Gives what was made, or none where an input was refused.
pub(crate) fn unless_refused<X>(made: Result<X, Stopped>) -> Result<Option<X>, Fault>
    ensures { result ≡ unless_refused made }
{
    match made {
        Ok(made) => Ok(Some(made)),
        Err(Stopped::Refused(_)) => Ok(None),
        Err(Stopped::Fault(fault)) => Err(fault),
    }
}

/// Gives what an input was judged to be, or shows the line that refuses it.
pub(crate) fn accept<X, K: Sink>(sink: &mut K, judged: Result<X, Refused>) -> Result<X, Stopped>
    ensures { Accepts judged (K.state sink.old) (K.state sink.new) result }
{
    match judged {
        Ok(input) => Ok(input),
        Err(why) => {
            show_refusal(sink, why)?;
            Err(Stopped::Refused(why))
        }
    }
}

/// Shows the line that says why an input is refused, or answers the fault that the reason is.
fn show_refusal<K: Sink>(sink: &mut K, why: Refused) -> Result<(), Fault>
    ensures { PutsRefusal (refused_verdict why) (K.state sink.old) (K.state sink.new) result }
{
    match why {
        Refused::Fen(error) => show_line(sink, &[b"refused fen ", error.word().as_bytes()]),
        Refused::Spelling(number) => show_number(sink, b"refused spelling ", number),
        Refused::Illegal(number) => show_number(sink, b"refused illegal ", number),
        Refused::Table(TableFault::Long) => show_line(sink, &[b"refused table long"]),
        Refused::Table(TableFault::Line(number)) => {
            show_number(sink, b"refused table line ", number)
        }
        Refused::Table(TableFault::Count(count)) => {
            show_number(sink, b"refused table count ", count)
        }
        Refused::Table(TableFault::Fault(fault)) => Err(fault.into()),
        Refused::Book(BookError::Unsorted(number)) => {
            show_number(sink, b"refused book unsorted ", number)
        }
        Refused::Book(BookError::Cut(extra)) => show_number(sink, b"refused book cut ", extra),
        Refused::Ledger(LoadError::Line(number)) => {
            show_number(sink, b"refused ledger line ", number as usize)
        }
        Refused::Book(BookError::Read) | Refused::Ledger(LoadError::Read) => Err(Fault::Read),
        Refused::Book(BookError::Endless) | Refused::Ledger(LoadError::Endless) => {
            Err(Fault::Endless)
        }
        Refused::Book(BookError::Memory) | Refused::Ledger(LoadError::Memory) => Err(Fault::Memory),
    }
}

fn show_number<K: Sink>(sink: &mut K, words: &[u8], number: usize) -> Result<(), Fault>
    ensures { PutsRefusal (Ok (false, with_end (words.now ++ decimal number))) (K.state sink.old)
        (K.state sink.new) result }
{
    let mut buffer = Buffer::new();
    show_line(sink, &[words, buffer.format(number).as_bytes()])
}

/// Says why a run stops before its end.
#[derive(Clone, Copy, Debug, PartialEq, Eq, Error)]
pub enum Stop {
    /// A file can't be opened or made, or another run holds it.
    #[error("a file can't be opened")]
    NotOpened,
    /// An input is refused, and the line that says so was put.
    #[error("{0}")]
    Refused(Refused),
    /// It met a fault, or a text wasn't kept.
    #[error("{0}")]
    Fault(Fault),
}

impl From<Fault> for Stop {
    ghost from_gives = { λ why gives. gives ≡ stop.Fault why };

    fn from(why: Fault) -> Stop {
        Stop::Fault(why)
    }
}

impl From<StoreError> for Stop {
    ghost from_gives = { λ why gives. gives ≡ stop_of_store why };

    fn from(why: StoreError) -> Stop {
        match why {
            StoreError::Open => Stop::NotOpened,
            StoreError::Write => Stop::Fault(Fault::Write),
            StoreError::Memory => Stop::Fault(Fault::Memory),
        }
    }
}

impl From<Stopped> for Stop {
    ghost from_gives = { λ why gives. gives ≡ stop_of why };

    fn from(why: Stopped) -> Stop {
        match why {
            Stopped::Refused(why) => Stop::Refused(why),
            Stopped::Fault(fault) => Stop::Fault(fault),
        }
    }
}

/// The status of a command that stopped before its end.
pub const FAULT_STATUS: u8 = 3;

/// Puts a line and hands it on.
pub(crate) fn show_line<K: Sink>(sink: &mut K, parts: &[&[u8]]) -> Result<(), Fault>
    ensures { Shows (K.state sink.old) (K.state sink.new) result
        (with_end (pieces_joined parts.now)) }
{
    put_pieces(sink, parts, b"\n")?;
    sink.flush()?;
    Ok(())
}

/// Gives the exit status for what a command answers: 0 where the input was taken, 1 where it was
/// refused, 3 where the command met a fault.
pub fn status(answer: Result<bool, Fault>) -> u8
    ensures { result ≡ status_of answer }
{
    match answer {
        Ok(true) => 0,
        Ok(false) => 1,
        Err(_) => FAULT_STATUS,
    }
}
