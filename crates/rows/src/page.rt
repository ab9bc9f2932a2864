//! The answer to a row, as it is written down.

use pb_poly::Failed;
use std::alloc::{AllocError, AllocFailed, Global};
use std::fmt::{self, Debug, Display, Write};

/// How many bytes an answer has room for from the start. So a short one is told whole also where
/// memory is wanting from some call on.
const ROOM: usize = 4096;

/// How many equal bytes are written one by one at most.
const LONGEST_RUN: usize = 31;

/// Why a row has no answer: there was no memory, or the row names no call, or gives it no such
/// arguments.
#[derive(Clone, Copy, Debug)]
pub enum Trouble {
    Memory,
    Row,
}

impl From<AllocError> for Trouble {
    fn from(_error: AllocError) -> Trouble {
        Trouble::Memory
    }
}

impl<T: Drop> From<AllocFailed<T>> for Trouble {
    fn from(_error: AllocFailed<T>) -> Trouble {
        Trouble::Memory
    }
}

impl From<Failed> for Trouble {
    fn from(_error: Failed) -> Trouble {
        Trouble::Memory
    }
}

/// What a call answers once its answer is written down.
pub type Done = Result<(), Trouble>;

/// The answer to a row that names no call, or gives it no such arguments.
pub const NO_ROW: Done = Err(Trouble::Row);

/// What has been written down so far. Where memory is wanting for a text, that and all after it are
/// left out, and the page is short.
#[derive(Drop)]
pub struct Page {
    pub alloc: Global,
    text: String,
    is_short: bool,
}

impl Write for Page {
    fn write_str(&mut self, text: &str) -> fmt::Result {
        self.is_short = self.is_short || self.text.push_str(text).is_err();
        self.done().map_err(|_| fmt::Error)
    }
}

impl Page {
    /// Makes an empty one.
    pub fn new(alloc: Global) -> Page {
        let (text, is_short) = match String::with_capacity(alloc, ROOM) {
            Ok(text) => (text, false),
            Err(AllocError) => (String::new(alloc), true),
        };
        Page {
            alloc,
            text,
            is_short,
        }
    }

    /// Fails where the page is short.
    pub fn done(&self) -> Done {
        if self.is_short {
            Err(Trouble::Memory)
        } else {
            Ok(())
        }
    }

    /// Gives the lines of the answer that have ended.
    pub fn ended_lines(&self) -> &str {
        let ended = self.text.as_str().rsplit_once('\n');
        ended.map_or("", |(lines, _)| lines)
    }

    /// Gives the answer.
    pub fn as_str(&self) -> &str {
        self.text.as_str()
    }

    /// Adds a text.
    pub fn put(&mut self, text: &str) {
        let _ = self.write_str(text);
    }

    /// Adds a value as it is told to a user.
    pub fn put_display<T: Display>(&mut self, value: &T) {
        let _ = write!(self, "{value}");
    }

    /// Adds a value as it is told to a programmer.
    pub fn put_debug<T: Debug>(&mut self, value: &T) {
        let _ = write!(self, "{value:?}");
    }

    /// Adds a name and a number after it.
    pub fn put_count<T: Display>(&mut self, name: &str, count: &T) {
        let _ = write!(self, "{name}{count}");
    }

    /// Adds a refusal.
    pub fn put_refusal<T: Debug>(&mut self, refusal: &T) {
        let _ = write!(self, "refused {refusal:?}");
    }

    /// Adds the bytes as two hexadecimal digits each.
    pub fn put_digits(&mut self, bytes: &[u8]) {
        for byte in bytes {
            let _ = write!(self, "{byte:02x}");
        }
    }

    /// Adds the bytes as a row would write them, but for LFs, which end lines of the answer.
    pub fn put_bytes(&mut self, bytes: &[u8]) {
        for run in bytes.chunk_by(|a, b| a == b) {
            self.put_run(run);
        }
    }

    fn put_run(&mut self, run: &[u8]) {
        if let [byte, ..] = run
            && run.len() > LONGEST_RUN
        {
            self.put_count("{", &run.len());
            self.put("*");
            self.put_byte(*byte);
            self.put("}");
            return;
        }
        for byte in run {
            self.put_byte(*byte);
        }
    }

    fn put_byte(&mut self, byte: u8) {
        match byte {
            b'\r' => self.put("{cr}"),
            b'\t' => self.put("{tab}"),
            0 => self.put("{nul}"),
            _ => self.put_display(&char::from(byte)),
        }
    }
}
