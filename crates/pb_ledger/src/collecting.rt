//! Submissions in, new games to a journal, replies out.

ghost use Rattle.std.specs.Prelude.{◌≡◌, length, ◌≤◌, IfErr, Ok, false, true};
ghost use Rattle.std.specs.Prelude.{IfOk};
ghost use Rattle.pb_accepted.specs.Accepting.{answer_of, says_new, named, reply_line};
ghost use Rattle.pb_ledger.specs.Collecting.{with_answer, CollectsStream, CollectsUntil, Gains};
ghost use Rattle.pb_ledger.specs.Collecting.{JournalsUntil};
ghost use Rattle.std.specs.Str.Lines.{strip_carriage_return};
ghost use Rattle.pb_board.specs.LineEnd.{with_end};
ghost use Rattle.pb_io.specs.Sink.{Put, Writes};
ghost use Rattle.pb_io.specs.declared.fault.Fault.TheVariants.{Write};
ghost use Rattle.pb_ledger.specs.Change.{between, from_to};

use crate::journal::Watcher;
use pb_accepted::{Accepted, Ledger, Reply};
use pb_board::without_return;
use pb_games::Refusal;
pub use pb_io::Fault as CollectFault;
use pb_io::{Failed, Fault, LineTask, NullSink, Sink, Source, put_pieces, take_lines};
use pb_points::Tally;
use std::alloc::Global;

/// Counts the lines that were taken, by what became of them.
#[derive(Clone, Copy, Debug, Default, PartialEq, Eq)]
pub struct Totals {
    /// All lines.
    pub lines: u64,
    /// Lines that brought a new game.
    pub new: u64,
    /// Lines that repeated a game that is held, under its id.
    pub repeats: u64,
    /// Lines that were refused.
    pub refused: u64,
}

impl Totals {
    pub(crate) fn with(mut self, answer: Result<Accepted, Refusal>) -> Totals
        ensures { result ≡ with_answer self (answer_of answer) (says_new answer) }
    {
        self.lines = self.lines.saturating_add(1);
        match answer {
            Ok(accepted) if accepted.is_new => self.new = self.new.saturating_add(1),
            Ok(_) => self.repeats = self.repeats.saturating_add(1),
            Err(_) => self.refused = self.refused.saturating_add(1),
        }
        self
    }
}

/// Puts the lines of new games on a journal, and only then their replies.
#[derive(Drop)]
pub(crate) struct Collector<'l, 's, 'j, 'w, T: Tally, K, J, W> {
    pub(crate) ledger: &'l mut Ledger<T>,
    pub(crate) sink: &'s mut K,
    pub(crate) journal: &'j mut J,
    pub(crate) watcher: &'w mut W,
    pub(crate) totals: Totals,
}

impl<T: Tally, K: Sink, J: Sink, W: Watcher> Collector<'_, '_, '_, '_, T, K, J, W> {
    fn reply(&mut self, line: &[u8], answer: Result<Accepted, Refusal>) -> Result<(), Fault>
        requires { length (named line.now (answer_of answer)) ≤ 64 }
        ensures counted { self.new.totals ≡ with_answer self.old.totals (answer_of answer)
            (says_new answer) }
        ensures put { Put (K.state self.old.sink.now) (K.state self.new.sink.now) result
            (reply_line line.now (answer_of answer)) }
        ensures stops { IfErr result (λ e. e ≡ Write) }
        ensures sink { self.new.sink.ghost_name ≡ self.old.sink.ghost_name }
        ensures same { (self.new.ledger ≡ self.old.ledger) × (self.new.journal ≡ self.old.journal) }
    {
        self.totals = self.totals.with(answer);
        let number = answer.map(|accepted| accepted.number);
        self.sink.put(Reply::new(line, number).as_bytes())?;
        self.watcher.answered(number.err());
        Ok(())
    }
}

impl<T: Tally, K: Sink, J: Sink, W: Watcher> LineTask for Collector<'_, '_, '_, '_, T, K, J, W> {
    type Stop = Fault;

    ghost use Rattle.pb_io.specs.LineTask.{either};
    ghost use Rattle.pb_ledger.specs.Collecting.{CollectsLine};

    ghost takes = { either (CollectsLine K.state J.state) };

    fn take(&mut self, line: Option<&[u8]>, _is_ended: bool) -> Result<(), Fault> {
        let answer = self.ledger.submit_full(line);
        let line = line.unwrap_or(b"");
        write_new(self.journal, line, answer)?;
        self.reply(line, answer)
    }
}

/// Writes the line of a new game, which is its one text but for a CR at its end.
fn write_new<J: Sink>(
    journal: &mut J,
    line: &[u8],
    answer: Result<Accepted, Refusal>,
) -> Result<(), Failed>
    ensures new { says_new answer ≡ true → Writes (J.state journal.old) (J.state journal.new) result
        (with_end (strip_carriage_return line.now)) }
    ensures other { says_new answer ≡ false → (result ≡ Ok tt) × (journal.new ≡ journal.old) }
{
    match answer {
        Ok(accepted) if accepted.is_new => {
            put_line(journal, line)?;
            journal.flush()
        }
        _ => Ok(()),
    }
}

pub(crate) fn put_line<K: Sink>(sink: &mut K, line: &[u8]) -> Result<(), Failed>
    ensures { Put (K.state sink.old) (K.state sink.new) result
        (with_end (strip_carriage_return line.now)) }
{
    put_pieces(sink, &[without_return(line)], b"\n")
}

/// Submits the lines of the source in order, puts the reply to each as it is taken, flushes at the
/// end, and answers what became of the lines.
///
/// # Errors
///
/// `Memory` comes only before the first fill: a submission that wants memory is refused in its
/// reply. After another fault the ledger holds what the lines so far brought, at `Write` also that
/// of the line whose reply failed.
pub fn collect<T: Tally, In: Source, Out: Sink>(
    alloc: Global,
    source: &mut In,
    sink: &mut Out,
    ledger: &mut Ledger<T>,
    fills: u32,
) -> Result<Totals, CollectFault>
    ensures ok { IfOk result (CollectsStream fills (between In.state source.old source.new)
        (between Out.state sink.old sink.new) (from_to ledger.old ledger.new)) }
    ensures fault { IfErr result (CollectsUntil fills (between In.state source.old source.new)
        (between Out.state sink.old sink.new) (from_to ledger.old ledger.new)) }
{
    let mut no_journal = NullSink::default();
    collect_journaled(alloc, source, sink, &mut no_journal, ledger, &mut (), fills)
}

/// Collects as `collect` does, and puts the line of each new game on the journal, and hands it on,
/// before its reply is put: so each game that a reply acknowledges is there, however this ends. The
/// watcher is told each answer.
///
/// # Errors
///
/// As for `collect`. At `Write` either sink has failed: where it is the journal, a front of the
/// line of a new game may be there, and the ledger holds that game, which wasn't answered.
pub fn collect_journaled<T: Tally, In: Source, Out: Sink, Journal: Sink, Watch: Watcher>(
    alloc: Global,
    source: &mut In,
    sink: &mut Out,
    journal: &mut Journal,
    ledger: &mut Ledger<T>,
    watcher: &mut Watch,
    fills: u32,
) -> Result<Totals, CollectFault>
    ensures ok { IfOk result (λ totals. CollectsStream fills
        (between In.state source.old source.new) (between Out.state sink.old sink.new)
        (from_to ledger.old ledger.new) totals
        × Gains (between Journal.state journal.old journal.new)
        (from_to ledger.old ledger.new)) }
    ensures fault { IfErr result (JournalsUntil fills (between In.state source.old source.new)
        (between Out.state sink.old sink.new) (between Journal.state journal.old journal.new)
        (from_to ledger.old ledger.new)) }
{
    let mut collector = Collector {
        ledger,
        sink,
        journal,
        watcher,
        totals: Totals::default(),
    };
    take_lines(alloc, source, &mut collector, fills)?;
    let totals = collector.totals;
    sink.flush()?;
    Ok(totals)
}
