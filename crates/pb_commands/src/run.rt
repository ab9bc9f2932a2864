//! What runs share that take submissions, and what they read and write.

ghost use Rattle.std.specs.Prelude.{MatchResult};
ghost use Rattle.pb_commands.specs.Runs.{IsSame, between, MakesBook, MakesLedger, MakesNoLedger};
ghost use Rattle.pb_commands.specs.Runs.{Takes};

use crate::stop::{Refused, Stopped, accept};
use pb_io::{Fault, NullSink, Sink, Source};
use pb_ledger::{Ledger, MAX_CAP, MapTally, Rules, Totals, Watcher, collect_journaled};
use pb_poly::{Book, take_table};
use std::alloc::Global;

/// What each run of submissions reads, writes and tells.
#[derive(Drop)]
pub struct Ends<Table, In, Out, Watch> {
    /// The table of random numbers that keys are made of.
    pub table: Table,
    /// The submission lines.
    pub lines: In,
    /// Takes the replies.
    pub replies: Out,
    /// Is told of the run, for people: no clause speaks of it.
    pub watcher: Watch,
}

/// A saved ledger.
#[derive(Drop)]
pub struct LedgerEnds<Saved, LedgerStore> {
    /// Reads it.
    pub saved: Saved,
    /// Takes the ledger of the run in its place.
    pub store: LedgerStore,
}

/// A journal.
#[derive(Drop)]
pub struct JournalEnds<Kept, Journal> {
    /// Reads what it holds.
    pub kept: Kept,
    /// Takes what it gains.
    pub journal: Journal,
}

/// What became of the submissions, and how much was made of the games.
#[derive(Clone, Copy, Debug, PartialEq, Eq)]
pub struct Report {
    /// Counts the lines by their answers.
    pub totals: Totals,
    /// The entries of the book, or the lines of the export.
    pub entries: u64,
}

/// What a run has taken.
#[derive(Drop)]
pub(crate) struct Intake {
    /// The games that are held.
    pub(crate) ledger: Ledger<MapTally>,
    /// What became of the lines, or the fault that ended them.
    pub(crate) end: Result<Totals, Fault>,
}

/// Reads the table, and makes a ledger without games; or puts the line that refuses the table.
pub(crate) fn make_ledger<Table: Source, Out: Sink>(
    alloc: Global,
    rules: Rules,
    table: &mut Table,
    sink: &mut Out,
    fills: u32,
) -> Result<Ledger<MapTally>, Stopped>
    ensures { let file = between Table.state table.old table.new in
        let out = between Out.state sink.old sink.new in
        MatchResult result (λ new. MakesLedger rules fills file new × IsSame out)
        (MakesNoLedger fills file out) }
{
    let table = accept(
        sink,
        take_table(alloc, table, fills).map_err(Refused::Table),
    )?;
    Ok(Ledger::with_rules(alloc, &table, MAX_CAP, rules)?)
}

/// Takes the submissions from the games of this ledger on, without a journal.
pub(crate) fn take_submissions<In: Source, Out: Sink, Watch: Watcher>(
    alloc: Global,
    mut ledger: Ledger<MapTally>,
    lines: &mut In,
    replies: &mut Out,
    watcher: &mut Watch,
    fills: u32,
) -> Intake
    ensures { Takes fills (between In.state lines.old lines.new)
        (between Out.state replies.old replies.new) ledger result }
{
    let mut nowhere = NullSink::default();
    let end = collect_journaled(
        alloc,
        lines,
        replies,
        &mut nowhere,
        &mut ledger,
        watcher,
        fills,
    );
    Intake { ledger, end }
}

pub(crate) fn book_of(alloc: Global, taken: &Intake) -> Result<Book, Fault>
    ensures { MakesBook taken.now result }
{
    taken.end?;
    Ok(taken.ledger.make_book(alloc)?)
}
