//! A ledger from the lines of a journal, the lines of games that a file holds, and who watches.

ghost use Rattle.std.specs.Prelude.{◌≡◌, ◌≤◌, ◌-◌, ◌∷◌, [], IfErr, IfOk, OnOk, drop, length};
ghost use Rattle.pb_accepted.specs.Ledger.{KeepsRest};
ghost use Rattle.pb_ledger.specs.Change.{between, from_to};
ghost use Rattle.pb_ledger.specs.Journal.{ReplaysAll, ReplaysUntil, PicksAll, PicksUntil};
ghost use Rattle.pb_ledger.specs.Journal.{has_shape};
ghost use Rattle.pb_io.specs.Lines.{line_limit};

use crate::collecting::put_line;
use crate::saving::HEADER;
use pb_accepted::Ledger;
use pb_board::without_return;
use pb_games::Refusal;
use pb_io::{Fault, LineTask, Sink, Source, take_lines};
use pb_points::Tally;
use std::alloc::Global;

/// The end of a line of a journal that was torn and sealed.
pub const SEALED: &[u8] = b"\t\t\t\t";

/// Ends a torn line so that it never is a submission: a TAB more than a submission has.
const SEAL: &[u8] = b"\t\t\t\t\n";

/// What is told how a run goes on: for people, so no contract says what it is told.
pub trait Watcher {
    /// Takes the number of a line, from 1, that was skipped.
    fn skipped(&mut self, number: u64);

    /// Takes why a submission was refused, if it was, after its answer was put.
    fn answered(&mut self, refusal: Option<Refusal>);
}

/// Nobody watches.
impl Watcher for () {
    fn skipped(&mut self, _number: u64) {}

    fn answered(&mut self, _refusal: Option<Refusal>) {}
}

/// Tells the number of a skipped line that is neither sealed nor the header of a saved ledger.
fn tell_skipped<W: Watcher>(watcher: &mut W, number: u64, line: &[u8])
    ensures { drop (length line.now - 4) line.now ≡ 9 ∷ 9 ∷ 9 ∷ 9 ∷ []
        → watcher.new ≡ watcher.old }
{
    let is_header = number == 1 && without_return(line) == HEADER;
    if !is_header && !line.ends_with(SEALED) {
        watcher.skipped(number);
    }
}

#[derive(Drop)]
struct Replayer<'l, T: Tally, W: Watcher> {
    ledger: &'l mut Ledger<T>,
    watcher: &'l mut W,
    lines: u64,
    is_torn: bool,
}

impl<T: Tally, W: Watcher> LineTask for Replayer<'_, T, W> {
    type Stop = Fault;

    ghost use Rattle.pb_ledger.specs.Journal.{ReplaysLine};

    ghost takes = { ReplaysLine };

    fn take(&mut self, line: Option<&[u8]>, is_ended: bool) -> Result<(), Fault> {
        if !is_ended {
            self.is_torn = true;
            return Ok(());
        }
        self.lines = self.lines.saturating_add(1);
        match self.ledger.submit_full(line) {
            Ok(_) => Ok(()),
            // The game was answered `ok` once, and can't be skipped.
            Err(refusal) if refusal == Refusal::Memory => Err(Fault::Memory),
            Err(_) => {
                tell_skipped(self.watcher, self.lines, line.unwrap_or(b""));
                Ok(())
            }
        }
    }
}

/// Takes the games of a journal into a ledger that holds none: each line that an LF ended is
/// submitted, and one that is refused changes nothing. Bytes after the last LF are a torn line,
/// which isn't taken but sealed by four TABs and an LF.
///
/// `watcher` is told the number of each refused line that is neither sealed nor a header.
///
/// # Errors
///
/// `Memory` comes before anything was read, or for a game: it was answered `ok` once, so it can't
/// be left out. `Write` comes where the torn end can't be sealed. The ledger holds the games of the
/// lines before.
pub fn replay<T: Tally, In: Source, Journal: Sink, Watch: Watcher>(
    alloc: Global,
    source: &mut In,
    journal: &mut Journal,
    ledger: &mut Ledger<T>,
    watcher: &mut Watch,
    fills: u32,
) -> Result<(), Fault>
    requires { ledger.old.accepted ≡ [] }
    ensures ok { OnOk result (ReplaysAll fills (between In.state source.old source.new)
        (between Journal.state journal.old journal.new)
        (from_to ledger.old ledger.new)) }
    ensures fault { IfErr result (ReplaysUntil fills (between In.state source.old source.new)
        (between Journal.state journal.old journal.new)
        (from_to ledger.old ledger.new)) }
    ensures rest { KeepsRest ledger.old ledger.new }
{
    let mut replayer = Replayer {
        ledger,
        watcher,
        lines: 0,
        is_torn: false,
    };
    take_lines(alloc, source, &mut replayer, fills)?;
    if replayer.is_torn {
        journal.put(SEAL)?;
        journal.flush()?;
    }
    Ok(())
}

/// Puts the lines that have the shape of a submission, and counts all lines.
#[derive(Drop)]
struct Picker<'p, K: Sink, W: Watcher> {
    sink: &'p mut K,
    watcher: &'p mut W,
    lines: u64,
    left_out: bool,
}

impl<K: Sink, W: Watcher> LineTask for Picker<'_, K, W> {
    type Stop = Fault;

    ghost use Rattle.pb_ledger.specs.Journal.{PicksLine};

    ghost takes = { PicksLine K.state };

    fn take(&mut self, line: Option<&[u8]>, is_ended: bool) -> Result<(), Fault> {
        if !is_ended {
            self.left_out = true;
            return Ok(());
        }
        self.lines = self.lines.saturating_add(1);
        match line {
            Some(line) if may_be_game(line) => put_line(self.sink, line)?,
            _ => tell_skipped(self.watcher, self.lines, line.unwrap_or(b"")),
        }
        Ok(())
    }
}

/// Three TABs, and at most one CR at the end.
fn may_be_game(line: &[u8]) -> bool
    ensures { length line.now ≤ line_limit → result ≡ has_shape line.now }
{
    let text = without_return(line);
    let tabs = text.iter().filter(|byte| **byte == b'\t').count();
    without_return(text) == text && tabs == 3
}

/// Puts the lines of games that a journal, a saved ledger or a list of submission lines holds, each
/// without its CR and with LF, and hands them on. It answers whether a torn line was left out:
/// bytes after the last LF, which may spell a shorter game than was sent.
///
/// A line is put where an LF ended it and it has the shape of a submission; whether it is accepted
/// isn't looked at. `watcher` is told the number of each other line that is neither sealed nor a
/// header.
///
/// # Errors
///
/// `Memory` comes before anything was read or put. At the other faults the lines before were taken,
/// and nothing is handed on.
pub fn pick_games<In: Source, Out: Sink, Watch: Watcher>(
    alloc: Global,
    source: &mut In,
    sink: &mut Out,
    watcher: &mut Watch,
    fills: u32,
) -> Result<bool, Fault>
    ensures ok { IfOk result (PicksAll fills (between In.state source.old source.new)
        (between Out.state sink.old sink.new)) }
    ensures fault { IfErr result (PicksUntil fills (between In.state source.old source.new)
        (between Out.state sink.old sink.new)) }
{
    let mut picker = Picker {
        sink,
        watcher,
        lines: 0,
        left_out: false,
    };
    take_lines(alloc, source, &mut picker, fills)?;
    picker.sink.flush()?;
    Ok(picker.left_out)
}
