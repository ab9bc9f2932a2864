//! Why a run over bytes stopped.

ghost use Rattle.std.specs.Prelude.{◌≡◌};
ghost use Rattle.pb_io.specs.Fault.{fault_of_read};
ghost use Rattle.pb_io.specs.declared.fault.Fault.TheVariants as fault;

use crate::source::Failed;
use std::alloc::AllocError;
use thiserror::Error;

/// Why a source was not read to its end.
#[derive(Clone, Copy, Debug, PartialEq, Eq, Error)]
pub enum ReadFault {
    #[error("the input has failed")]
    Read,
    /// The fills were used up before the end.
    #[error("the input has no end")]
    Endless,
    /// No memory, and nothing was read.
    #[error("no memory")]
    Memory,
}

/// Why a run over sources and sinks ended too soon.
#[derive(Clone, Copy, Debug, PartialEq, Eq, Error)]
pub enum Fault {
    #[error("a source of bytes failed")]
    Read,
    #[error("a sink of bytes failed")]
    Write,
    #[error("a source of bytes didn't end")]
    Endless,
    #[error("no memory was found")]
    Memory,
}

impl Fault {
    ghost use Rattle.pb_io.specs.Fault.{fault_word};

    /// Gives the word that stands for the fault.
    pub fn word(self) -> &'static str
        ensures { result.now ≡ fault_word self }
    {
        match self {
            Fault::Read => "read",
            Fault::Write => "write",
            Fault::Endless => "endless",
            Fault::Memory => "memory",
        }
    }
}

impl From<ReadFault> for Fault {
    ghost from_gives = { λ read gives. gives ≡ fault_of_read read };

    fn from(read: ReadFault) -> Fault {
        match read {
            ReadFault::Read => Fault::Read,
            ReadFault::Endless => Fault::Endless,
            ReadFault::Memory => Fault::Memory,
        }
    }
}

impl From<Failed> for Fault {
    ghost from_gives = { λ _ gives. gives ≡ fault.Write };

    fn from(_: Failed) -> Fault {
        Fault::Write
    }
}

impl From<AllocError> for Fault {
    ghost from_gives = { λ _ gives. gives ≡ fault.Memory };

    fn from(_: AllocError) -> Fault {
        Fault::Memory
    }
}
