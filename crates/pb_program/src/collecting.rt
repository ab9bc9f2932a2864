//! The command `collect` over the files that it names.

ghost use Rattle.std.specs.Prelude.{◌≡◌};
ghost use Rattle.pb_cli.specs.declared.order.Keeping.TheVariants as keeping;
ghost use Rattle.pb_files.specs.Ends.{syncs};
ghost use Rattle.pb_program.specs.Ordered.{IsJournalPath, IsLedgerPath, is_synced};

use crate::command::input;
use crate::ordered;
use crate::stop::{look_at, refuse_journal};
use pb_cli::{CollectOrder, Ends, Keeping, LedgerEnds, Report, Stop, Watcher};
use pb_files::{
    FileSource, Found, KeptFile, OUTPUT, Replies, SYNCED, Submissions, WRITTEN, draft_of,
    keep_apart, open, open_journal, opened,
};
use pb_io::{Fault, FromRead, Sink, Source, ToWrite};
use pb_messages::{Looks, Messages, Named, Progress};
use std::cell::{OnceCell, RefCell};
use std::fs;

/// Where the file of standard input is found.
pub(crate) const INPUT: &str = "/dev/stdin";

/// Answers whether there is a book. A journal is noted at its place.
pub(crate) fn collect<'a>(
    messages: Messages<'a>,
    order: &CollectOrder<'a>,
    journal: &OnceCell<Found>,
    output: &mut impl Sink,
) -> Result<bool, Stop> {
    let output = RefCell::new(output);
    let kept = path_of(order.kept);
    let progress = Progress::new(messages, kept, true);
    // A line that tells of it would be written into that file.
    let unwritten = Stop::Fault(Fault::Write);
    let draft = opened(
        Named::new(messages, order.book),
        draft_of(messages.rt, order.book),
    )?;
    keep_apart(messages, &[draft.as_str(), OUTPUT], unwritten)?;
    keep_apart(messages, &[kept, OUTPUT], unwritten)?;
    // As a link, such as `/dev/stdout`, it may lead there.
    if fs::symlink_metadata(messages.rt, order.book).is_ok_and(|metadata| metadata.is_file()) {
        keep_apart(messages, &[order.book, OUTPUT], unwritten)?;
    }
    let table = order.taking.table;
    keep_apart(messages, &[table, kept, order.book], Stop::NotOpened)?;
    keep_apart(messages, &[kept, order.book, INPUT], Stop::NotOpened)?;
    spare_games(messages, order.book)?;
    let mut ends = Ends {
        table: open(messages, table)?,
        lines: FromRead::new(Submissions {
            input: input(messages)?,
            replies: Replies::new(&output),
            progress: &progress,
        }),
        replies: ToWrite::new(Replies::new(&output)),
        watcher: &progress,
    };
    let report = run(messages, order, journal, &mut ends)?;
    progress.end(report.totals, Some((order.book, report.entries)));
    Ok(true)
}

/// Gives the path of the games that are kept beside a book, or an empty one.
pub(crate) fn path_of(kept: Keeping<'_>) -> &str {
    match kept {
        Keeping::Book => "",
        Keeping::Ledger(path) | Keeping::Journal { path, .. } => path,
    }
}

/// Makes sure that no book takes the place of what a book can be made of, as where `--ledger` was
/// left out, and warns where it takes that of something else.
fn spare_games(messages: Messages<'_>, book: &str) -> Result<(), Stop> {
    let Some((looks, _)) = look_at(messages.rt, book) else {
        return Ok(());
    };
    match looks {
        Looks::Book => {}
        Looks::Games | Looks::Pgn | Looks::Packed(..) => {
            messages.tell(&format_args!("{book} stays: it {looks}"));
            return Err(Stop::NotOpened);
        }
        _ => messages.warn(&format_args!("{book}: a book takes its place; it {looks}")),
    }
    Ok(())
}

/// What can't be opened or held of BOOK is told before a submission is read, and ends the run after
/// the last one.
fn run<'a>(
    messages: Messages<'a>,
    order: &CollectOrder<'a>,
    journal: &OnceCell<Found>,
    ends: &mut Ends<FileSource<'a>, impl Source, impl Sink, impl Watcher>,
) -> Result<Report, Stop> {
    match order.kept {
        Keeping::Book => make_book(messages, order, ends),
        Keeping::Ledger(path) => go_on(Named::new(messages, path), order, ends),
        Keeping::Journal { path, sync } => {
            let named = Named::new(messages, path);
            if sync {
                add_games::<SYNCED>(named, order, journal, ends)
            } else {
                add_games::<WRITTEN>(named, order, journal, ends)
            }
        }
    }
}

fn make_book<'a>(
    messages: Messages<'a>,
    order: &CollectOrder<'a>,
    ends: &mut Ends<FileSource<'a>, impl Source, impl Sink, impl Watcher>,
) -> Result<Report, Stop>
    requires alone { order.now.kept ≡ keeping.Book }
{
    let mut book = KeptFile::new(Named::new(messages, order.book), false);
    ordered::collect(messages.rt.alloc(), order, ends, &mut book)
}

/// A saved ledger is made anew after the run and before the book.
fn go_on<'a>(
    named: Named<'a>,
    order: &CollectOrder<'a>,
    ends: &mut Ends<FileSource<'a>, impl Source, impl Sink, impl Watcher>,
) -> Result<Report, Stop>
    requires path { IsLedgerPath order.now.kept named.name.now }
{
    let store = KeptFile::new(named, true);
    let saved = store.reader()?;
    let mut ledger = LedgerEnds { saved, store };
    let mut book = KeptFile::new(Named::new(named.messages, order.book), false);
    let alloc = named.messages.rt.alloc();
    ordered::go_on(alloc, order, ends, &mut ledger, &mut book)
}

fn add_games<'a, const MODE: u8>(
    named: Named<'a>,
    order: &CollectOrder<'a>,
    place: &OnceCell<Found>,
    ends: &mut Ends<FileSource<'a>, impl Source, impl Sink, impl Watcher>,
) -> Result<Report, Stop>
    requires mode { syncs MODE ≡ is_synced order.now.kept }
    requires path { IsJournalPath order.now.kept named.name.now }
{
    let Some(mut journal) = open_journal::<MODE>(named, place)? else {
        return refuse_journal(&mut ends.replies);
    };
    let mut book = KeptFile::new(Named::new(named.messages, order.book), false);
    let alloc = named.messages.rt.alloc();
    let made = ordered::journal(alloc, order, ends, &mut journal, &mut book);
    // Also where there is no book: what was answered may be on no disk yet.
    let settled = journal.journal.settle();
    made.and_then(|report| Ok(settled.map(|_| report)?))
}
