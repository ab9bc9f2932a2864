//! The command `collect`: alone, from a saved ledger on, or with a journal; and each of them with
//! places in memory for what it keeps. The number of a row says how many of the lines after it are
//! those of the saved ledger or of the journal; the others are submissions. With `passed=told` the
//! numbers of the journal's lines that are skipped are told last, and with `report=told` what a run
//! with places has counted, or why it read no submission.

use crate::command::tell_next;
use crate::ends::{Output, fills_in, is_told, rules_in};
use crate::game::stream_of;
use crate::mem_store::MemStore;
use pb_commands::{
    Continued, Ends, Fault, JournalEnds, LedgerEnds, Refusal, Report, Stop, Watcher, collect_into,
    continue_into, journal_into, run_collect, run_continue,
};
use pb_ledger::save;
use pb_poly::{Book, FromRead, MemSink, ToWrite, read_book};
use rows::book;
use rows::ends::{NamedSource, source_in};
use rows::page::{Done, NO_ROW, Page};
use rows::text::count_of;
use std::alloc::Global;
use std::fmt::Write;

type RowEnds<'a> = Ends<NamedSource<'a>, NamedSource<'a>, ToWrite<Output>, Passed>;

/// The numbers of the journal's lines that are skipped, each after a space.
#[derive(Drop)]
pub(crate) struct Passed {
    numbers: Page,
}

impl Watcher for Passed {
    fn skipped(&mut self, number: u64) {
        self.numbers.put_count(" ", &number);
    }

    fn answered(&mut self, _refusal: Option<Refusal>) {}
}

impl Passed {
    pub(crate) fn new(alloc: Global) -> Passed {
        Passed {
            numbers: Page::new(alloc),
        }
    }

    /// Tells them, where the word for the row's ends asks for them.
    pub(crate) fn tell_all(&self, page: &mut Page, ends: &str) {
        if is_told(ends, "passed") {
            page.put_count("\npassed", &self.numbers.as_str());
        }
    }
}

/// The answer to a call: the replies, and then what else the run tells.
pub(crate) fn answer(page: &mut Page, call: &[&str]) -> Done {
    let [name, word, table, count, lines @ ..] = call else {
        return NO_ROW
    };
    let (first, later) = lines.split_at(count_of(count).min(lines.len()));
    let first = stream_of(page.alloc, first)?;
    let later = stream_of(page.alloc, later)?;
    let mut told = Page::new(page.alloc);
    let mut ends = Ends {
        table: source_in(word, "table", "reader:1000", table.as_bytes()),
        lines: source_in(word, "input", "reader:100", later.as_bytes()),
        replies: ToWrite::new(Output::of(page.alloc, word, "output")),
        watcher: Passed::new(page.alloc),
    };
    let first = source_in(word, "first", "reader:7", first.as_bytes());
    run(&mut told, name, word, &mut ends, first)?;
    ends.replies.into_inner().tell(page);
    page.put(told.as_str());
    told.done()
}

/// Runs the command over these ends, of which the first is read before the submissions.
fn run(page: &mut Page, name: &str, word: &str, ends: &mut RowEnds, first: NamedSource) -> Done {
    let (alloc, rules, fills) = (page.alloc, rules_in(word)?, fills_in(word));
    let (table, lines, replies) = (&mut ends.table, &mut ends.lines, &mut ends.replies);
    match name {
        "collect" => {
            let answer = run_collect(alloc, rules, table, lines, replies, fills);
            tell_book(page, &answer);
        }
        "continue" => {
            let mut saved = first;
            let answer = run_continue(alloc, rules, table, &mut saved, lines, replies, fills);
            tell_continued(page, answer)?;
        }
        "collect-into" => {
            let mut book = MemStore::of(alloc, word, "book");
            let answer = collect_into(alloc, rules, ends, &mut book, fills);
            tell_kept(page, word, &answer, &book);
        }
        "continue-into" => continue_from(page, word, ends, first)?,
        "journal" | "journal-into" => journal(page, [name, word], ends, first)?,
        _ => return NO_ROW,
    }
    tell_next(page, word, &mut ends.lines);
    Ok(())
}

/// How many games are held after a run from a saved ledger on, and their saved form.
fn tell_continued(page: &mut Page, answer: Result<Option<Continued>, Fault>) -> Done {
    match answer {
        Ok(Some(Continued { ledger, book })) => {
            tell_book(page, &book.map(Some));
            page.put_count("\nheld: ", &ledger.len());
            page.put("\n");
            let mut form = MemSink::new(page.alloc);
            save(&ledger, &mut form)?;
            page.put_bytes(form.as_bytes());
        }
        Ok(None) => tell_book(page, &Ok(None)),
        Err(fault) => tell_book(page, &Err(fault)),
    }
    Ok(())
}

/// The run from a saved ledger on, with places for its ledger and its book.
fn continue_from(page: &mut Page, word: &str, ends: &mut RowEnds, saved: NamedSource) -> Done {
    let alloc = page.alloc;
    let (rules, fills) = (rules_in(word)?, fills_in(word));
    let mut book = MemStore::of(alloc, word, "book");
    let mut ledger = LedgerEnds {
        saved,
        store: MemStore::of(alloc, word, "ledger"),
    };
    let answer = continue_into(alloc, rules, ends, &mut ledger, &mut book, fills);
    tell_kept(page, word, &answer, &book);
    page.put("\n");
    match ledger.store.kept() {
        Some(bytes) => page.put_bytes(bytes),
        None => page.put("no ledger is kept"),
    }
    Ok(())
}

/// The run with a journal, what that has gained, and a place for the book, which is told as what is
/// kept there or as the book of a run alone.
fn journal(page: &mut Page, call: [&str; 2], ends: &mut RowEnds, kept: NamedSource) -> Done {
    let [name, word] = call;
    let alloc = page.alloc;
    let (rules, fills) = (rules_in(word)?, fills_in(word));
    let mut book = MemStore::of(alloc, word, "book");
    let mut gained = Output::of(alloc, word, "journal");
    let mut journal = JournalEnds {
        kept,
        journal: ToWrite::new(&mut gained),
    };
    let answer = journal_into(alloc, rules, ends, &mut journal, &mut book, fills);
    if name == "journal" {
        tell_as_run(page, &answer, &book);
        tell_report(page, word, &answer);
    } else {
        tell_kept(page, word, &answer, &book);
    }
    page.put("\njournal");
    gained.tell_all(page);
    ends.watcher.tell_all(page, word);
    Ok(())
}

/// The answer of a run with places, the book that is kept, an entry a line, and the report.
fn tell_kept(page: &mut Page, ends: &str, made: &Result<Report, Stop>, book: &MemStore) {
    page.put_debug(&is_made(made));
    match book.kept() {
        Some(bytes) => {
            for entry in bytes.chunks(16) {
                page.put("\n");
                page.put_digits(entry);
            }
        }
        None => page.put("\nnothing is kept"),
    }
    tell_report(page, ends, made);
}

/// The same as of a run without places.
fn tell_as_run(page: &mut Page, answer: &Result<Report, Stop>, book: &MemStore) {
    let answer = match is_made(answer) {
        Ok(_made) => match book.kept() {
            // They are a book's, for which memory may be wanting.
            Some(bytes) => read_book(page.alloc, &mut FromRead::new(bytes), u32::MAX)
                .map(Some)
                .map_err(|_| Fault::Memory),
            None => Ok(None),
        },
        Err(Stop::Fault(fault)) => Err(fault),
        Err(_) => Err(Fault::Write),
    };
    tell_book(page, &answer);
}

/// Whether a book was made, or an input was refused, or the fault.
fn is_made(made: &Result<Report, Stop>) -> Result<bool, Stop> {
    match made {
        Ok(_) => Ok(true),
        Err(Stop::Refused(_)) => Ok(false),
        Err(why) => Err(*why),
    }
}

/// What a run has counted, or why it read no submission, where the word for the row's ends asks for
/// it.
fn tell_report(page: &mut Page, ends: &str, answer: &Result<Report, Stop>) {
    if !is_told(ends, "report") {
        return;
    }
    page.put("\nreport: ");
    match answer {
        Ok(report) => page.put_debug(report),
        Err(Stop::Refused(why)) => page.put_display(why),
        Err(_) => page.put("none"),
    }
}

/// The book, or why there is none.
fn tell_book(page: &mut Page, answer: &Result<Option<Book>, Fault>) {
    match answer {
        Ok(Some(made)) if made.entries().is_empty() => page.put("an empty book"),
        Ok(Some(made)) => book::tell(page, made),
        Ok(None) => page.put("no book"),
        Err(fault) => {
            let _ = write!(page, "fault {fault:?}");
        }
    }
}
