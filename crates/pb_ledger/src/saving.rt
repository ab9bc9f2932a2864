//! A ledger's games as the lines of a file, and back.

ghost use Rattle.std.specs.Prelude.{◌≡◌, [], ◌∷◌, ◌++◌, ℕ, List, IfErr, IfOk, length};
ghost use Rattle.pb_board.specs.LineEnd.{with_end};
ghost use Rattle.pb_games.specs.Submissions.{moves_text, submission_text};
ghost use Rattle.pb_io.specs.Sink.{Put, Writes};
ghost use Rattle.pb_moves.specs.Spelling.{spelling};
ghost use Rattle.pb_accepted.specs.Ledger.{KeepsRest};
ghost use Rattle.pb_ledger.specs.Saving.{Saved, load_error, Loads, LoadsUntil};
ghost use Rattle.pb_io.specs.LineTask.{AtEnd};
ghost use Rattle.pb_ledger.specs.Change.{across, between, from_to, Makes};

use pb_accepted::Ledger;
use pb_board::without_return;
use pb_games::{Game, Id, Refusal};
use pb_io::{Failed, LineTask, ReadFault, Sink, Source, put_pieces, take_lines};
use pb_moves::Move;
use pb_points::Tally;
use std::alloc::Global;
use thiserror::Error;

/// The first line of a saved ledger.
pub const HEADER: &[u8] = b"pbook-ledger 1";

/// Writes the saved form of a ledger and flushes: a header, and then the submission line of each
/// game that is held, in order of acceptance. It takes no memory, so what is held can be saved
/// where there was none for more.
///
/// # Errors
///
/// The sink has failed. A front of the bytes may have been put then.
pub fn save<T: Tally, K: Sink>(ledger: &Ledger<T>, sink: &mut K) -> Result<(), Failed>
    ensures { (bytes : List ℕ) × Saved ledger.now.accepted bytes
        × Writes (K.state sink.old) (K.state sink.new) result bytes }
{
    put_pieces(sink, &[HEADER], b"\n")?;
    for index in 0..ledger.len() {
        let (id, game) = ledger.get(index + 1).unwrap();
        put_game(sink, id, game)?;
    }
    sink.flush()
}

/// Puts the submission line of a game under its id, with its LF.
///
/// # Errors
///
/// The sink has failed. A front of the line may have been put then.
fn put_game<K: Sink>(sink: &mut K, id: &Id, game: &Game) -> Result<(), Failed>
    ensures { Put (K.state sink.old) (K.state sink.new) result
        (with_end (submission_text (id.now, game.now))) }
{
    let start = game.start.text();
    put_field(sink, id.as_bytes())?;
    put_field(sink, game.outcome.text())?;
    put_field(sink, start.as_bytes())?;
    put_moves(sink, game.moves.as_slice())
}

fn put_field<K: Sink>(sink: &mut K, field: &[u8]) -> Result<(), Failed>
    ensures { Put (K.state sink.old) (K.state sink.new) result (field.now ++ 9 ∷ []) }
{
    put_pieces(sink, &[field], b"\t")
}

fn put_moves<K: Sink>(sink: &mut K, moves: &[Move]) -> Result<(), Failed>
    ensures { Put (K.state sink.old) (K.state sink.new) result (with_end (moves_text moves.now)) }
{
    let Some((first, further)) = moves.split_first() else {
        return sink.put(b"\n");
    };
    sink.put(first.text().as_bytes())?;
    for later in further {
        put_later(sink, later)?;
    }
    sink.put(b"\n")
}

fn put_later<K: Sink>(sink: &mut K, later: &Move) -> Result<(), Failed>
    ensures { Put (K.state sink.old) (K.state sink.new) result (32 ∷ spelling later.now) }
{
    put_pieces(sink, &[b" "], later.text().as_bytes())
}

/// Why not all lines of a saved ledger were loaded. The ledger holds the games of the lines before.
#[derive(Clone, Copy, Debug, PartialEq, Eq, Error)]
pub enum LoadError {
    /// The line with this number, from 1 with the header counted, is the first that a ledger
    /// refuses, or that brings no new game after a header.
    #[error("line {0} isn't a game that can be taken")]
    Line(u64),
    /// The source has failed.
    #[error("the saved ledger can't be read")]
    Read,
    /// The fills were used up, and none was the end or a fault.
    #[error("the saved ledger doesn't end")]
    Endless,
    /// No memory for the buffers, before anything was read, or for a new game.
    #[error("no memory is left")]
    Memory,
}

impl From<ReadFault> for LoadError {
    ghost from_gives = { λ fault gives. gives ≡ load_error fault };

    fn from(fault: ReadFault) -> LoadError {
        match fault {
            ReadFault::Read => LoadError::Read,
            ReadFault::Endless => LoadError::Endless,
            ReadFault::Memory => LoadError::Memory,
        }
    }
}

#[derive(Drop)]
struct Loader<'l, T: Tally> {
    ledger: &'l mut Ledger<T>,
    lines: u64,
    /// Whether the first line was the header.
    is_saved: bool,
}

impl<T: Tally> LineTask for Loader<'_, T> {
    type Stop = LoadError;

    ghost use Rattle.pb_io.specs.LineTask.{either};
    ghost use Rattle.pb_ledger.specs.Saving.{LoadsLine};

    ghost takes = { either LoadsLine };

    fn take(&mut self, line: Option<&[u8]>, _is_ended: bool) -> Result<(), LoadError> {
        let is_first = self.lines == 0;
        self.lines = self.lines.saturating_add(1);
        if is_first && without_return(line.unwrap_or(b"")) == HEADER {
            self.is_saved = true;
            return Ok(());
        }
        match self.ledger.submit_full(line) {
            Ok(accepted) if accepted.is_new || !self.is_saved => Ok(()),
            Err(refusal) if refusal == Refusal::Memory => Err(LoadError::Memory),
            _ => Err(LoadError::Line(self.lines)),
        }
    }
}

/// Takes the games of a saved ledger, or of an old list of submission lines without a header, into
/// a ledger that holds none, and answers how many are held then. After the header each line has to
/// bring a new game; in an old list a game may come again, which changes nothing.
///
/// # Errors
///
/// The first of `LoadError` that the lines meet.
pub fn load<T: Tally, S: Source>(
    alloc: Global,
    source: &mut S,
    ledger: &mut Ledger<T>,
    fills: u32,
) -> Result<u32, LoadError>
    requires { ledger.old.accepted ≡ [] }
    ensures ok { IfOk result (λ n. across (AtEnd fills) (between S.state source.old source.new)
        (Makes Loads (from_to ledger.old ledger.new))
        × (n ≡ length ledger.new.accepted)) }
    ensures fault { IfErr result (LoadsUntil fills (between S.state source.old source.new)
        (from_to ledger.old ledger.new)) }
    ensures rest { KeepsRest ledger.old ledger.new }
{
    let mut loader = Loader {
        ledger,
        lines: 0,
        is_saved: false,
    };
    take_lines(alloc, source, &mut loader, fills)?;
    Ok(loader.ledger.len())
}
