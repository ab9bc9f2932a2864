//! Where bytes come from, where they go, and the lines of a stream.

ghost use Rattle.std.specs.Prelude.{⊤};

use crate::ends::{Taker, giver_of, named_source};
use crate::page::{Done, NO_ROW, Page};
use crate::text::{count_of, fills_of, small_of};
use pb_io::{Fault, FromRead, LineTask, MemSink, Sink, Source, ToWrite, take_lines};
use pb_poly::FuseSink;
use std::io::Cursor;

/// Answers a call.
pub fn answer(page: &mut Page, call: &[&str]) -> Done {
    match call {
        ["lines", source, fills, text] => {
            let mut source = named_source(source, text.as_bytes());
            take_all(page, &mut source, fills_of(fills));
        }
        ["failing-lines", failure, text] => failing_lines(page, failure, text),
        ["fill", source, text, rooms @ ..] => return fill(page, source, text, rooms),
        ["sink", end, texts @ ..] => sink(page, end, texts),
        _ => return NO_ROW,
    }
    Ok(())
}

/// Writes each line down, or a star for a long one, and a bar where an LF ended it. The line `stop`
/// stops it, as a sink would that fails.
#[derive(Drop)]
struct Barred {
    text: Vec<u8>,
}

impl LineTask for Barred {
    type Stop = Fault;

    ghost takes = { λ _ _ _ _ _. ⊤ };

    fn take(&mut self, line: Option<&[u8]>, is_ended: bool) -> Result<(), Fault> {
        let line = line.unwrap_or(b"*");
        if line == b"stop".as_slice() {
            return Err(Fault::Write);
        }
        self.text.extend_from_slice(line)?;
        if is_ended {
            self.text.extend_from_slice(b"|")?;
        }
        Ok(())
    }
}

/// What became of a source's lines, and what was written down of them.
fn take_all<S: Source>(page: &mut Page, source: &mut S, fills: u32) {
    let mut task = Barred {
        text: Vec::new(page.alloc),
    };
    let answer = take_lines(page.alloc, source, &mut task, fills);
    page.put_debug(&answer);
    page.put("\n");
    page.put_bytes(task.text.as_slice());
}

/// The lines of a reader that fails once, what the source answers after that, and how often the
/// reader was asked after its failure.
fn failing_lines(page: &mut Page, failure: &str, text: &str) {
    let mut giver = giver_of(text.as_bytes(), 2, failure);
    let mut source = FromRead::new(&mut giver);
    take_all(page, &mut source, u32::MAX);
    let next = source.fill(&mut [0; 4]);
    page.put_count("\nfailed ", &source.failed());
    page.put(", then ");
    page.put_debug(&next);
    page.put_count("\nreads after the failure: ", &giver.later);
}

/// The bytes of each fill of a slice of these sizes with a bar after them and the answer, and
/// whether the source has failed then.
fn fill(page: &mut Page, source: &str, text: &str, rooms: &[&str]) -> Done {
    let mut source = named_source(source, text.as_bytes());
    for room in rooms {
        let mut slice = vec![in page.alloc; 0; count_of(room)]?;
        let filled = source.fill(slice.as_mut_slice());
        page.put_bytes(&slice[..filled.unwrap_or(0)]);
        page.put("|");
        page.put_debug(&filled);
        page.put("\n");
    }
    page.put_count("failed ", &source.failed());
    Ok(())
}

/// What a sink answers to these texts in turn, where the text `flush` flushes it, and whether it
/// has failed then.
fn put_all<K: Sink>(page: &mut Page, sink: &mut K, texts: &[&str]) {
    for text in texts {
        let answer = match *text {
            "flush" => sink.flush(),
            text => sink.put(text.as_bytes()),
        };
        page.put_debug(&answer);
        page.put(" ");
    }
    page.put_count("failed ", &sink.failed());
    page.put("\n");
}

/// What the sink that a word names answers to these texts, and what it keeps: `memory`, `fuse:2`
/// where two puts and flushes pass, a `vector`, an `array` of four bytes, or a writer.
fn sink(page: &mut Page, end: &str, texts: &[&str]) {
    let (kind, good) = end.split_once(':').unwrap_or((end, ""));
    match kind {
        "memory" => {
            let mut kept = MemSink::new(page.alloc);
            put_all(page, &mut kept, texts);
            page.put_bytes(kept.as_bytes());
        }
        "fuse" => {
            let mut kept = FuseSink::new(page.alloc, small_of(good));
            put_all(page, &mut kept, texts);
            page.put_bytes(kept.as_bytes());
        }
        "vector" => {
            let mut kept = Vec::new(page.alloc);
            put_all(page, &mut ToWrite::new(&mut kept), texts);
            page.put_bytes(kept.as_slice());
        }
        "array" => {
            let mut kept = [0; 4];
            let mut sink = ToWrite::new(Cursor::new(kept.as_mut_slice()));
            put_all(page, &mut sink, texts);
            page.put_bytes(kept.as_slice());
        }
        _ => {
            let mut taker = Taker::of(page.alloc, end);
            put_all(page, &mut ToWrite::new(&mut taker), texts);
            page.put_bytes(taker.taken.as_slice());
            page.put_count("\nflushes: ", &taker.flushes);
        }
    }
}
