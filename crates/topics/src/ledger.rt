//! Ledgers of submitted games, their books and their exports, over both tallies. The answer stands
//! once where both give the same. The first word of each call says over which table, for how many
//! games, by which rules and over which ends the ledger is: `cap=1 input=memory:5`. With `by=map`
//! the tally of plain lists is left out, which would take minutes over 70,000 positions, and with
//! `by=list` the other one.

ghost use Rattle.std.specs.Prelude.{◌≡◌, [], IfOk};

use crate::ends::{Output, fills_in, rules_in};
use crate::game::{lines_of, stream_of};
use pb_ledger::{
    CollectFault, Ledger, ListTally, MAX_CAP, MapTally, Rules, Tally, Totals, collect, export,
    load, replay, save,
};
use pb_poly::{MemSink, Sink, ToWrite};
use rows::book::tell;
use rows::ends::{end_of, source_in};
use rows::moves::tell_moves;
use rows::page::{Done, NO_ROW, Page, Trouble};
use rows::table::table_of;
use rows::text::{small_of, text_of, times_of};
use std::alloc::Global;
use std::fmt::Write;

pub(crate) fn answer(page: &mut Page, call: &[&str]) -> Done {
    let [name, ends, lines @ ..] = call else {
        return NO_ROW
    };
    match end_of(ends, "by", "both") {
        "map" => return answer_by::<MapTally>(page, name, ends, lines),
        "list" => return answer_by::<ListTally>(page, name, ends, lines),
        _ => {}
    }
    let mut by_map = Page::new(page.alloc);
    answer_by::<MapTally>(&mut by_map, name, ends, lines)?;
    by_map.done()?;
    let mut by_list = Page::new(page.alloc);
    answer_by::<ListTally>(&mut by_list, name, ends, lines)?;
    by_list.done()?;
    if by_map.as_str() != by_list.as_str() {
        page.put_count("another by list\n", &by_list.as_str());
        page.put("\nby map\n");
    }
    page.put(by_map.as_str());
    Ok(())
}

fn answer_by<T: Tally>(page: &mut Page, name: &str, ends: &str, lines: &[&str]) -> Done {
    match name {
        "rules" => rules::<T>(page, ends),
        "submit" => {
            let mut ledger = new_ledger::<T>(page.alloc, ends)?;
            submit_all(page, &mut ledger, lines)?;
            page.put_count("held: ", &ledger.len());
            Ok(())
        }
        "games" => games::<T>(page, ends, lines),
        "book" => tell_held(page, &ledger_with::<T>(page.alloc, ends, lines)?),
        "export" => exported::<T>(page, ends, lines),
        "collect" => take_all(page, &mut new_ledger::<T>(page.alloc, ends)?, ends, lines),
        "collect-twice" => collected_twice::<T>(page, ends, lines),
        "save" => saved::<T>(page, ends, lines),
        "load-saved" => load_saved::<T>(page, ends, lines),
        "load" => {
            let stream = stream_of(page.alloc, lines)?;
            load_new::<T>(page, ends, stream.as_bytes())?;
            Ok(())
        }
        "replay" => replayed::<T>(page, ends, lines),
        _ => NO_ROW,
    }
}

/// An empty ledger, over the table of powers where the word names no other.
fn new_ledger<T: Tally>(alloc: Global, ends: &str) -> Result<Ledger<T>, Trouble>
    ensures { IfOk result (λ ledger. ledger.accepted ≡ []) }
{
    let powers = text_of(alloc, "{powers}")?;
    let table = table_of(alloc, end_of(ends, "table", powers.as_str()))?;
    let cap = small_of(end_of(ends, "cap", "1000")).clamp(1, MAX_CAP);
    let rules = rules_in(ends)?;
    Ok(if rules == Rules::all_plies() {
        Ledger::new(alloc, &table, cap)?
    } else {
        Ledger::with_rules(alloc, &table, cap, rules)?
    })
}

fn submit_all<T: Tally>(page: &mut Page, ledger: &mut Ledger<T>, lines: &[&str]) -> Done {
    for text in lines {
        submit(page, ledger, text)?;
    }
    Ok(())
}

/// Submits the lines that an argument stands for, and tells the answer to each.
fn submit<T: Tally>(page: &mut Page, ledger: &mut Ledger<T>, text: &str) -> Done {
    let (times, text) = times_of(text);
    for number in 1..=times {
        match ledger.submit(lines_of(page.alloc, text, number)?.as_bytes()) {
            Ok(number) => page.put_count("ok ", &number),
            Err(refusal) => page.put_refusal(&refusal),
        }
        page.put("\n");
    }
    Ok(())
}

pub(crate) fn ledger_with<T: Tally>(
    alloc: Global,
    ends: &str,
    lines: &[&str],
) -> Result<Ledger<T>, Trouble> {
    let mut ledger = new_ledger(alloc, ends)?;
    submit_all(&mut Page::new(alloc), &mut ledger, lines)?;
    Ok(ledger)
}

fn rules<T: Tally>(page: &mut Page, ends: &str) -> Done {
    match rules_in(ends) {
        Ok(_) => page.put_debug(&new_ledger::<T>(page.alloc, ends)?.rules()),
        Err(_) => page.put("no rules"),
    }
    Ok(())
}

fn tell_game<T: Tally>(page: &mut Page, ledger: &Ledger<T>, number: u32) {
    page.put_display(&number);
    let Some((id, game)) = ledger.get(number) else {
        page.put(" none\n");
        return;
    };
    page.put(" ");
    page.put_bytes(id.as_bytes());
    let _ = write!(page, " {:?} ", game.outcome);
    page.put_bytes(game.start.text().as_bytes());
    page.put(" ");
    tell_moves(page, game.moves.as_slice());
    page.put("\n");
}

/// The games that are held, by their numbers from 0 to the first that isn't there.
fn games<T: Tally>(page: &mut Page, ends: &str, lines: &[&str]) -> Done {
    let ledger = ledger_with::<T>(page.alloc, ends, lines)?;
    for number in 0..=ledger.len().saturating_add(1) {
        tell_game(page, &ledger, number);
    }
    Ok(())
}

/// How many games a ledger holds, and their book.
fn tell_held<T: Tally>(page: &mut Page, ledger: &Ledger<T>) -> Done {
    page.put_count("held: ", &ledger.len());
    page.put("\n");
    tell(page, &ledger.make_book(page.alloc)?);
    Ok(())
}

/// The number of EPD lines and the lines after these submissions.
fn exported<T: Tally>(page: &mut Page, ends: &str, lines: &[&str]) -> Done {
    let ledger = ledger_with::<T>(page.alloc, ends, lines)?;
    let mut sink = MemSink::new(page.alloc);
    match export(page.alloc, &ledger, &mut sink) {
        Ok(count) => page.put_count("lines: ", &count),
        Err(fault) => page.put_debug(&fault),
    }
    page.put("\n");
    page.put_bytes(sink.as_bytes());
    Ok(())
}

fn take<T: Tally, K: Sink>(
    alloc: Global,
    ledger: &mut Ledger<T>,
    ends: &str,
    lines: &[&str],
    sink: &mut K,
) -> Result<Result<Totals, CollectFault>, Trouble> {
    let stream = stream_of(alloc, lines)?;
    let mut source = source_in(ends, "input", "memory:64", stream.as_bytes());
    Ok(collect(alloc, &mut source, sink, ledger, fills_in(ends)))
}

/// The replies to a stream, what became of its lines, how many games are held, and their book.
fn take_all<T: Tally>(page: &mut Page, ledger: &mut Ledger<T>, ends: &str, lines: &[&str]) -> Done {
    let mut replies = MemSink::new(page.alloc);
    let answer = take(page.alloc, ledger, ends, lines, &mut replies)?;
    page.put_bytes(replies.as_bytes());
    page.put_debug(&answer);
    page.put("\n");
    tell_held(page, ledger)
}

/// What becomes of the lines where the output fails, whether it had a front of the replies, and the
/// same of the stream once more.
fn collected_twice<T: Tally>(page: &mut Page, ends: &str, lines: &[&str]) -> Done {
    let mut ledger = new_ledger::<T>(page.alloc, ends)?;
    let mut output = Output::of(page.alloc, ends, "output");
    let mut sink = ToWrite::new(&mut output);
    let answer = take(page.alloc, &mut ledger, ends, lines, &mut sink)?;
    let mut again = Page::new(page.alloc);
    take_all(&mut again, &mut ledger, ends, lines)?;
    let is_front = again.as_str().as_bytes().starts_with(output.bytes());
    let _ = write!(
        page,
        "{answer:?}, a front of the replies {is_front}\n{}",
        again.as_str()
    );
    again.done()
}

fn form_of<T: Tally>(alloc: Global, ledger: &Ledger<T>) -> Result<MemSink, Trouble> {
    let mut form = MemSink::new(alloc);
    save(ledger, &mut form)?;
    Ok(form)
}

/// What becomes of the saved form of these games over the output that the word names, and what that
/// has then.
fn saved<T: Tally>(page: &mut Page, ends: &str, lines: &[&str]) -> Done {
    let ledger = ledger_with::<T>(page.alloc, ends, lines)?;
    let form = form_of(page.alloc, &ledger)?;
    let mut output = Output::of(page.alloc, ends, "output");
    page.put_debug(&save(&ledger, &mut ToWrite::new(&mut output)));
    let is_front = form.as_bytes().starts_with(output.bytes());
    page.put_count(", a front of the form ", &is_front);
    output.tell_all(page);
    Ok(())
}

/// A new ledger into which a source was loaded. The answer is told, and how many games are held.
fn load_new<T: Tally>(page: &mut Page, ends: &str, bytes: &[u8]) -> Result<Ledger<T>, Trouble> {
    let mut ledger = new_ledger(page.alloc, ends)?;
    let mut source = source_in(ends, "input", "memory:64", bytes);
    page.put_debug(&load(page.alloc, &mut source, &mut ledger, fills_in(ends)));
    page.put_count(", held: ", &ledger.len());
    Ok(ledger)
}

/// The answer to the replay of a journal into a new ledger, how many games are held, and what the
/// journal has gained.
fn replayed<T: Tally>(page: &mut Page, ends: &str, lines: &[&str]) -> Done {
    let (alloc, fills) = (page.alloc, fills_in(ends));
    let stream = stream_of(alloc, lines)?;
    let mut ledger = new_ledger::<T>(alloc, ends)?;
    let mut source = source_in(ends, "input", "memory:64", stream.as_bytes());
    let mut journal = Output::of(alloc, ends, "journal");
    let mut sink = ToWrite::new(&mut journal);
    let answer = replay(alloc, &mut source, &mut sink, &mut ledger, &mut (), fills);
    page.put_debug(&answer);
    page.put_count(", held: ", &ledger.len());
    journal.tell_all(page);
    Ok(())
}

/// The answer to the loading of the saved form of these games, whether they are saved as the same
/// bytes then, and what becomes of the same lines after that.
fn load_saved<T: Tally>(page: &mut Page, ends: &str, lines: &[&str]) -> Done {
    let form = form_of(page.alloc, &ledger_with::<T>(page.alloc, ends, lines)?)?;
    let mut ledger = load_new::<T>(page, ends, form.as_bytes())?;
    let again = form_of(page.alloc, &ledger)?;
    let is_same = again.as_bytes() == form.as_bytes();
    page.put_count(", saved the same ", &is_same);
    page.put("\n");
    take_all(page, &mut ledger, ends, lines)
}
