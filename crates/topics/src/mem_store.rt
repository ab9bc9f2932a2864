//! A store in memory.

ghost use Rattle.std.specs.Prelude.{option_and_then};

use pb_commands::{Store, StoreError, Text};
use pb_poly::{MemSink, Sink};
use rows::ends::end_of;
use std::alloc::Global;

/// Keeps a text in memory. Where it fails, it keeps what it had.
#[derive(Drop)]
pub(crate) struct MemStore {
    alloc: Global,
    kept: Option<MemSink>,
    fails: Option<StoreError>,
    fault: Option<StoreError>,
}

impl MemStore {
    /// The store of this name, with nothing kept: `book=open` for one that can't be opened,
    /// `book=write` for one whose writes fail, or one that fails for want of memory alone.
    pub(crate) fn of(alloc: Global, ends: &str, name: &str) -> MemStore {
        MemStore {
            alloc,
            kept: None,
            fails: match end_of(ends, name, "all") {
                "open" => Some(StoreError::Open),
                "write" => Some(StoreError::Write),
                _ => None,
            },
            fault: None,
        }
    }

    /// The bytes that were kept last.
    pub(crate) fn kept(&self) -> Option<&[u8]> {
        match &self.kept {
            Some(bytes) => Some(bytes.as_bytes()),
            None => None,
        }
    }
}

impl Store for MemStore {
    ghost state = { λ p. record {
      handed = option_and_then (λ s. (⟦<MemSink as Sink>⟧.state s).bytes) p.kept;
      fault = p.fault;
    } };

    fn keep<X: Text>(&mut self, text: &X) -> Result<u64, StoreError> {
        self.fault = self.fails;
        if let Some(why) = self.fails {
            return Err(why);
        }
        let mut draft = MemSink::new(self.alloc);
        let Ok(count) = text.write(&mut draft) else {
            self.fault = Some(StoreError::Memory);
            return Err(StoreError::Memory);
        };
        self.kept = Some(draft);
        Ok(count)
    }
}
