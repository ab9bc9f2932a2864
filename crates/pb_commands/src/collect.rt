//! The command `collect`: submissions are answered, and the book of the games is made, or kept at a
//! store; also with a journal.

ghost use Rattle.pb_commands.specs.Answered.{CollectTheorem};
ghost use Rattle.pb_commands.specs.Runs.{EndStates, between, Answers, MakesBook, IsSame, states};
ghost use Rattle.pb_commands.specs.Runs.{journal_states};
ghost use Rattle.pb_commands.specs.Into.{Into, KeepsBook};
ghost use Rattle.pb_commands.specs.JournalHeadline.{JournalTheorem, LosesNone, LosesNoneLater};

use crate::run::{Ends, Intake, JournalEnds, Report, book_of, make_ledger, take_submissions};
use crate::stop::{Stop, unless_refused};
use crate::store::{LedgerBook, Store};
use pb_io::{Fault, Sink, Source};
use pb_ledger::{Rules, Watcher, collect_journaled, replay};
use pb_poly::Book;
use std::alloc::Global;

/// Takes submission lines, puts the reply to each, and makes the opening book of the games that are
/// held at the end, by the rules: at most 1,000,000, each counted once however often it comes. The
/// table is read first; where it is refused, the line that says so is put, and there is no book.
///
/// # Errors
///
/// `Memory` comes where a growth of the ledger's or the book's own found no memory; a submission
/// that wants memory is refused in its reply. The replies before a fault have been put.
pub fn run_collect<Table: Source, In: Source, Out: Sink>(
    alloc: Global,
    rules: Rules,
    table_source: &mut Table,
    source: &mut In,
    sink: &mut Out,
    fills: u32,
) -> Result<Option<Book>, Fault>
    // Which lines are accepted, that each game counts once, and that the book has one text.
    ensures { let e : EndStates = record {
      table = between Table.state table_source.old table_source.new;
      lines = between In.state source.old source.new;
      replies = between Out.state sink.old sink.new;
    } in
        Answers (CollectTheorem rules fills e) MakesBook result }
{
    let Some(ledger) = unless_refused(make_ledger(alloc, rules, table_source, sink, fills))? else {
        return Ok(None);
    };
    let taken = take_submissions(alloc, ledger, source, sink, &mut (), fills);
    Ok(Some(book_of(alloc, &taken)?))
}

/// Takes submission lines as `run_collect` does, and keeps the opening book at the store. The
/// report counts the answers, and the entries of the book. Where the table is refused, the line
/// that says so is put, and nothing is kept.
///
/// # Errors
///
/// A refused table, the first fault of the table, the submissions or the replies, else that of the
/// store, or want of memory for the book.
pub fn collect_into<Table: Source, In: Source, Out: Sink, Watch: Watcher, BookStore: Store>(
    alloc: Global,
    rules: Rules,
    ends: &mut Ends<Table, In, Out, Watch>,
    book: &mut BookStore,
    fills: u32,
) -> Result<Report, Stop>
    ensures { let e = states Table.state In.state Out.state ends.old ends.new in
        let store = between BookStore.state book.old book.new in
        Into (CollectTheorem rules fills e) (KeepsBook store) (IsSame store) result }
{
    let ledger = make_ledger(alloc, rules, &mut ends.table, &mut ends.replies, fills)?;
    let taken = take_submissions(
        alloc,
        ledger,
        &mut ends.lines,
        &mut ends.replies,
        &mut ends.watcher,
        fills,
    );
    keep_book(alloc, &taken, book)
}

/// Keeps the book of what was taken, if no fault ended that.
pub(crate) fn keep_book<BookStore: Store>(
    alloc: Global,
    taken: &Intake,
    store: &mut BookStore,
) -> Result<Report, Stop>
    ensures { KeepsBook (between BookStore.state store.old store.new) taken.now result }
{
    let totals = taken.end?;
    let book = LedgerBook::of(alloc, &taken.ledger);
    let entries = store.keep(&book)?;
    Ok(Report { totals, entries })
}

/// Takes submission lines as `collect_into` does, from the games of a journal on, and puts the line
/// of each new game on the journal, and hands it on, before its reply: so no game that was answered
/// `ok` is lost, whatever ends the run. The journal is replayed first, and its torn end sealed.
///
/// # Errors
///
/// A refused table, the first fault of the table, the journal, the submissions or the replies, else
/// that of the store, or want of memory for the book.
pub fn journal_into<
    Table: Source,
    In: Source,
    Out: Sink,
    Watch: Watcher,
    Kept: Source,
    Journal: Sink,
    BookStore: Store,
>(
    alloc: Global,
    rules: Rules,
    ends: &mut Ends<Table, In, Out, Watch>,
    journal: &mut JournalEnds<Kept, Journal>,
    book: &mut BookStore,
    fills: u32,
) -> Result<Report, Stop>
    ensures ends { let e = states Table.state In.state Out.state ends.old ends.new in
        let j = journal_states Kept.state Journal.state journal.old journal.new in
        let store = between BookStore.state book.old book.new in
        Into (JournalTheorem rules fills e j) (KeepsBook store) (IsSame store) result }
    // No submission was read, or the journal holds each game that a reply calls `ok`; and so it is
    // whatever ends the run, where what the journal had before lasts.
    ensures survives { let e = states Table.state In.state Out.state ends.old ends.new in
        let j = journal_states Kept.state Journal.state journal.old journal.new in
        LosesNone e j × LosesNoneLater e j }
{
    let mut ledger = make_ledger(alloc, rules, &mut ends.table, &mut ends.replies, fills)?;
    replay(
        alloc,
        &mut journal.kept,
        &mut journal.journal,
        &mut ledger,
        &mut ends.watcher,
        fills,
    )?;
    let end = collect_journaled(
        alloc,
        &mut ends.lines,
        &mut ends.replies,
        &mut journal.journal,
        &mut ledger,
        &mut ends.watcher,
        fills,
    );
    keep_book(alloc, &Intake { ledger, end }, book)
}
