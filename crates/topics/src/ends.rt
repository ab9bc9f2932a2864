//! What the output of a row goes to, and what else the word for a row's ends says.

use pb_ledger::Rules;
use pb_poly::{FuseSink, Sink};
use rows::ends::{Taker, end_of};
use rows::page::{Page, Trouble};
use rows::text::{fills_of, small_of};
use std::alloc::Global;
use std::io::{self, ErrorKind, Write};

/// What output goes to: a writer, or memory of which so many puts and flushes pass.
#[derive(Drop)]
pub(crate) enum Output {
    Writer(Taker),
    Fuse(FuseSink),
}

impl Output {
    /// The output of this name: `output=fuse:5` for memory of which five puts and flushes pass, or
    /// a writer that a word names.
    pub(crate) fn of(alloc: Global, ends: &str, name: &str) -> Output {
        let word = end_of(ends, name, "all");
        match word.split_once(':') {
            Some(("fuse", good)) => Output::Fuse(FuseSink::new(alloc, small_of(good))),
            _ => Output::Writer(Taker::of(alloc, word)),
        }
    }

    pub(crate) fn bytes(&self) -> &[u8] {
        match self {
            Output::Writer(taker) => taker.taken.as_slice(),
            Output::Fuse(sink) => sink.as_bytes(),
        }
    }

    /// Tells the bytes, but for half a put that is left where its fuse has blown.
    pub(crate) fn tell(&self, page: &mut Page) {
        if !matches!(self, Output::Fuse(sink) if sink.failed()) {
            page.put_bytes(self.bytes());
        }
    }

    /// Tells how often a writer was flushed and how many bytes there are, and then the same.
    pub(crate) fn tell_all(&self, page: &mut Page) {
        if let Output::Writer(taker) = self {
            page.put_count(", flushed: ", &taker.flushes);
            page.put_count(", bytes: ", &taker.taken.len());
        }
        page.put("\n");
        self.tell(page);
    }
}

impl Write for Output {
    fn write(&mut self, buf: &[u8]) -> io::Result<usize> {
        match self {
            Output::Writer(taker) => taker.write(buf),
            Output::Fuse(sink) => match sink.put(buf) {
                Ok(()) => Ok(buf.len()),
                Err(_failed) => Err(io::Error::from(ErrorKind::BrokenPipe)),
            },
        }
    }

    fn flush(&mut self) -> io::Result<()> {
        match self {
            Output::Writer(taker) => taker.flush(),
            Output::Fuse(sink) => sink
                .flush()
                .map_err(|_failed| io::Error::from(ErrorKind::BrokenPipe)),
        }
    }
}

/// How many fills there may be: `fills=5` for five.
pub(crate) fn fills_in(ends: &str) -> u32 {
    fills_of(end_of(ends, "fills", "all"))
}

/// What of the games counts: `plies=24 least=3`, or all of them.
pub(crate) fn rules_in(ends: &str) -> Result<Rules, Trouble> {
    let plies = small_of(end_of(ends, "plies", "1024"));
    Rules::new(plies, small_of(end_of(ends, "least", "1"))).ok_or(Trouble::Row)
}

/// Whether the word asks for what a row tells only then, as `next=told` does.
pub(crate) fn is_told(ends: &str, name: &str) -> bool {
    end_of(ends, name, "hidden") == "told"
}
