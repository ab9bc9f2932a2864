//! The command `collect` that goes on from a saved ledger, also up to the stores.

ghost use Rattle.std.specs.Prelude.{MatchResult};
ghost use Rattle.pb_commands.specs.ContinueHeadline.{ContinueTheorem};
ghost use Rattle.pb_commands.specs.Runs.{EndStates, IsSame, between, states, Answers};
ghost use Rattle.pb_commands.specs.Runs.{MakesContinued, HoldsSaved, HoldsNone};
ghost use Rattle.pb_commands.specs.Into.{Into, KeepsBoth};

use crate::collect::keep_book;
use crate::run::{Ends, Intake, LedgerEnds, Report, book_of, make_ledger, take_submissions};
use crate::stop::{Refused, Stop, Stopped, accept, unless_refused};
use crate::store::Store;
use pb_io::{Fault, Sink, Source};
use pb_ledger::{Ledger, MapTally, Rules, Watcher, load};
use pb_poly::Book;
use std::alloc::Global;

/// A run that went on from a saved ledger.
#[derive(Drop)]
pub struct Continued {
    /// The games that are held, those of the saved ledger first.
    pub ledger: Ledger<MapTally>,
    /// The book of these games, or the fault that ended the run after submissions were taken.
    pub book: Result<Book, Fault>,
}

/// Goes on from a saved ledger, whose games are held from the start, and takes submission lines as
/// `run_collect` does. Where the table or the saved ledger is refused, the line that says so is
/// put, no submission is read, and the answer is None.
///
/// # Errors
///
/// A fault before a submission was read. One that comes later stands in `book`.
pub fn run_continue<Table: Source, Saved: Source, In: Source, Out: Sink>(
    alloc: Global,
    rules: Rules,
    table_source: &mut Table,
    saved: &mut Saved,
    source: &mut In,
    sink: &mut Out,
    fills: u32,
) -> Result<Option<Continued>, Fault>
    ensures { let e : EndStates = record {
      table = between Table.state table_source.old table_source.new;
      lines = between In.state source.old source.new;
      replies = between Out.state sink.old sink.new;
    } in
        let earlier = between Saved.state saved.old saved.new in
        Answers (ContinueTheorem rules fills e earlier) MakesContinued result }
{
    let began = load_first(alloc, rules, table_source, saved, sink, fills);
    let Some(ledger) = unless_refused(began)? else {
        return Ok(None);
    };
    let taken = take_submissions(alloc, ledger, source, sink, &mut (), fills);
    let book = book_of(alloc, &taken);
    Ok(Some(Continued {
        ledger: taken.ledger,
        book,
    }))
}

/// Reads the table and the saved ledger; or puts the line that refuses one of them.
fn load_first<Table: Source, Saved: Source, Out: Sink>(
    alloc: Global,
    rules: Rules,
    table: &mut Table,
    saved: &mut Saved,
    replies: &mut Out,
    fills: u32,
) -> Result<Ledger<MapTally>, Stopped>
    ensures { let file = between Table.state table.old table.new in
        let earlier = between Saved.state saved.old saved.new in
        let sink = between Out.state replies.old replies.new in
        MatchResult result (λ held. HoldsSaved rules fills file earlier held × IsSame sink)
        (HoldsNone rules fills file earlier sink) }
{
    let mut ledger = make_ledger(alloc, rules, table, replies, fills)?;
    let loaded = load(alloc, saved, &mut ledger, fills);
    accept(replies, loaded.map_err(Refused::Ledger))?;
    Ok(ledger)
}

/// Goes on from a saved ledger as `run_continue` does, keeps the ledger at its store, also where
/// the run met a fault after a submission was read, and then its book.
///
/// # Errors
///
/// The run's fault, else that of the ledger's store, else that of the book's.
pub fn continue_into<
    Table: Source,
    In: Source,
    Out: Sink,
    Watch: Watcher,
    Saved: Source,
    LedgerStore: Store,
    BookStore: Store,
>(
    alloc: Global,
    rules: Rules,
    ends: &mut Ends<Table, In, Out, Watch>,
    ledger: &mut LedgerEnds<Saved, LedgerStore>,
    book: &mut BookStore,
    fills: u32,
) -> Result<Report, Stop>
    ensures { let e = states Table.state In.state Out.state ends.old ends.new in
        let saved = between Saved.state ledger.old.saved ledger.new.saved in
        let kept = between LedgerStore.state ledger.old.store ledger.new.store in
        let store = between BookStore.state book.old book.new in
        Into (ContinueTheorem rules fills e saved) (KeepsBoth kept store)
        (IsSame kept × IsSame store) result }
{
    let began = load_first(
        alloc,
        rules,
        &mut ends.table,
        &mut ledger.saved,
        &mut ends.replies,
        fills,
    )?;
    let taken = take_submissions(
        alloc,
        began,
        &mut ends.lines,
        &mut ends.replies,
        &mut ends.watcher,
        fills,
    );
    keep_both(alloc, &taken, &mut ledger.store, book)
}

fn keep_both<LedgerStore: Store, BookStore: Store>(
    alloc: Global,
    taken: &Intake,
    ledger: &mut LedgerStore,
    book: &mut BookStore,
) -> Result<Report, Stop>
    ensures { KeepsBoth (between LedgerStore.state ledger.old ledger.new)
        (between BookStore.state book.old book.new) taken.now result }
{
    // The ledger is kept first: what was answered `ok` is in it.
    match (ledger.keep(&taken.ledger), taken.end) {
        (Err(why), Ok(_)) => Err(why.into()),
        _ => keep_book(alloc, taken, book),
    }
}
