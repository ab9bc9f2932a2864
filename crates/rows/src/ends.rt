//! Ends as words of rows: a source by its kind, its piece and its failure, and a writer by its
//! room.

ghost use Rattle.rows.specs.declared.ends.NamedSource.TheVariants.{Memory, Slice, Reader, Fuse};
ghost use Rattle.rows.specs.declared.ends.NamedSource.TheVariants.{Endless};

use crate::text::{count_of, small_of};
use pb_poly::{Failed, FromRead, FuseSource, MemSource, NeverSource, Source};
use std::alloc::Global;
use std::io::{self, ErrorKind, Read, Write};

/// Where an error stands that never comes.
const NEVER: usize = usize::MAX;

/// Gives bytes in pieces, with an error after so many of them, and then the others. A read into no
/// room is an error too.
#[derive(Drop)]
pub struct Giver<'a> {
    rest: &'a [u8],
    piece: usize,
    until: usize,
    kind: ErrorKind,
    has_erred: bool,
    pub later: u32,
}

impl Read for Giver<'_> {
    fn read(&mut self, buf: &mut [u8]) -> io::Result<usize> {
        if self.has_erred {
            self.later = self.later.saturating_add(1);
        }
        if buf.is_empty() {
            return Err(io::Error::from(ErrorKind::InvalidInput));
        }
        if self.until == 0 {
            self.until = NEVER;
            self.has_erred = true;
            return Err(io::Error::from(self.kind));
        }
        let count = self
            .piece
            .min(self.until)
            .min(self.rest.len())
            .min(buf.len());
        buf[..count].copy_from_slice(&self.rest[..count]);
        self.rest = &self.rest[count..];
        self.until -= count;
        Ok(count)
    }
}

/// A source that a word of a row names.
#[derive(Drop)]
pub enum NamedSource<'a> {
    Memory(MemSource<'a>),
    Slice(FromRead<&'a [u8]>),
    Reader(FromRead<Giver<'a>>),
    Fuse(FuseSource<'a>),
    Endless(NeverSource),
}

impl Source for NamedSource<'_> {
    ghost state = { elim [
      | Memory s ↦ ⟦<MemSource<'static> as Source>⟧.state s
      | Slice s ↦
          ⟦<FromRead<&'static [u8]> as Source>⟧.state s
      | Reader s ↦
          ⟦<FromRead<Giver<'static>> as Source>⟧.state s
      | Fuse s ↦
          ⟦<FuseSource<'static> as Source>⟧.state s
      | Endless s ↦
          ⟦<NeverSource as Source>⟧.state s
    ] };

    fn fill(&mut self, into: &mut [u8]) -> Result<usize, Failed> {
        match self {
            NamedSource::Memory(source) => source.fill(into),
            NamedSource::Slice(source) => source.fill(into),
            NamedSource::Reader(source) => source.fill(into),
            NamedSource::Fuse(source) => source.fill(into),
            NamedSource::Endless(source) => source.fill(into),
        }
    }

    fn failed(&self) -> bool {
        match self {
            NamedSource::Memory(source) => source.failed(),
            NamedSource::Slice(source) => source.failed(),
            NamedSource::Reader(source) => source.failed(),
            NamedSource::Fuse(source) => source.failed(),
            NamedSource::Endless(source) => source.failed(),
        }
    }
}

/// Makes the source that a word names over these bytes: `memory:3` for pieces of three bytes in
/// memory, of which `fuse:3,5` lets five fills pass; `slice` for the reader that std makes of them;
/// `reader:3` for one in pieces of three, where `reader:3,interrupted:5` and `reader:3,ended:5`
/// fail once after five bytes and then go on; and `endless` for the first byte over and over.
/// `memory:3,front:5` and the like have the first five bytes alone.
pub fn named_source<'a>(word: &str, bytes: &'a [u8]) -> NamedSource<'a> {
    let (end, rest) = word.split_once(',').unwrap_or((word, ""));
    let (kind, piece) = end.split_once(':').unwrap_or((end, "1"));
    let piece = count_of(piece).max(1);
    let bytes = front_of(word, bytes);
    let byte = bytes.first().copied().unwrap_or(b'\n');
    match kind {
        "memory" => NamedSource::Memory(MemSource::new(bytes, piece)),
        "slice" => NamedSource::Slice(FromRead::new(bytes)),
        "fuse" => NamedSource::Fuse(FuseSource::new(bytes, piece, small_of(rest))),
        "endless" => NamedSource::Endless(NeverSource::new(byte)),
        _ => NamedSource::Reader(FromRead::new(giver_of(bytes, piece, rest))),
    }
}

/// Gives those of the bytes that a source of this word has.
pub fn front_of<'a>(word: &str, bytes: &'a [u8]) -> &'a [u8] {
    match word.split_once(",front:") {
        Some((_, count)) => bytes.get(..count_of(count)).unwrap_or(bytes),
        None => bytes,
    }
}

/// Makes a reader of these bytes in pieces of this size, with the failure that a word names.
pub fn giver_of<'a>(bytes: &'a [u8], piece: usize, failure: &str) -> Giver<'a> {
    let (until, kind) = match failure.split_once(':') {
        Some(("interrupted", count)) => (count_of(count), ErrorKind::Interrupted),
        Some(("ended", count)) => (count_of(count), ErrorKind::UnexpectedEof),
        _ => (NEVER, ErrorKind::Interrupted),
    };
    Giver {
        rest: bytes,
        piece,
        until,
        kind,
        has_erred: false,
        later: 0,
    }
}

/// Gives what a word of a row says of the end of this name, where `table=fuse:3,1 output=room:12`
/// says it of two. The others are as usual.
pub fn end_of<'a>(ends: &'a str, name: &str, usual: &'a str) -> &'a str {
    for text in ends.split(' ') {
        if let Some((end, word)) = text.split_once('=')
            && end == name
        {
            return word;
        }
    }
    usual
}

/// Makes the source over these bytes that the word for a row's ends names, or else the usual one.
pub fn source_in<'a>(ends: &str, name: &str, usual: &str, bytes: &'a [u8]) -> NamedSource<'a> {
    named_source(end_of(ends, name, usual), bytes)
}

/// Takes bytes one at a time. Where so many have been taken, one write takes none, or is an error
/// of a broken writer; then it goes on. One flush may be an error too.
#[derive(Drop)]
pub struct Taker {
    pub taken: Vec<u8>,
    room: usize,
    is_broken: bool,
    pub fails_at_flush: bool,
    pub flushes: u32,
}

impl Taker {
    /// Makes the writer that a word names: `room:5` for one that takes no more once after five
    /// bytes, `interrupted:5` for one whose write is an error then, `broken:5` for one whose first
    /// flush is one too, and any other word for one that takes all.
    pub fn of(alloc: Global, word: &str) -> Taker {
        let (kind, room) = word.split_once(':').unwrap_or((word, ""));
        let fails_at_flush = kind == "broken";
        Taker {
            taken: Vec::new(alloc),
            room: match room {
                "" => NEVER,
                _ => count_of(room),
            },
            is_broken: fails_at_flush || kind == "interrupted",
            fails_at_flush,
            flushes: 0,
        }
    }
}

impl Write for Taker {
    fn write(&mut self, buf: &[u8]) -> io::Result<usize> {
        if buf.is_empty() || self.taken.len() == self.room {
            self.room = NEVER;
            return match self.is_broken {
                true => Err(io::Error::from(ErrorKind::Interrupted)),
                false => Ok(0),
            };
        }
        if self.taken.push(buf[0]).is_err() {
            return Err(io::Error::from(ErrorKind::OutOfMemory));
        }
        Ok(1)
    }

    fn flush(&mut self) -> io::Result<()> {
        self.flushes = self.flushes.saturating_add(1);
        if self.fails_at_flush {
            self.fails_at_flush = false;
            return Err(io::Error::from(ErrorKind::Interrupted));
        }
        Ok(())
    }
}
