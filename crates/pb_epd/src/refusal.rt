//! Why an operation or a text is refused.

use pb_board::FenError;
use thiserror::Error;

/// Says why an operation isn't added to a record.
#[derive(Clone, Copy, Debug, PartialEq, Eq, Hash, Error)]
pub enum PutError {
    #[error("the opcode isn't a letter and up to fourteen letters, digits or underscores")]
    Opcode,
    /// The first such, counted from 1.
    #[error("operand {0} is no word and no text")]
    Operand(usize),
    #[error("the record has this opcode")]
    Repeated,
    #[error("no memory is left")]
    Memory,
}

/// Says why bytes are no EPD record (PGN Standard 16.2).
#[derive(Clone, Copy, Debug, PartialEq, Eq, Hash, Error)]
pub enum EpdError {
    /// The first such.
    #[error("a bad token begins at byte {0}, counted from 0")]
    Token(usize),
    #[error("the first four tokens aren't four words")]
    Fields,
    #[error("the four words spell no setup: {0}")]
    Setup(FenError),
    /// The first ended one, counted from 1.
    #[error("operation {0} doesn't begin with an opcode")]
    Opcode(usize),
    #[error("tokens stand after the last end")]
    Unended,
    /// The first such, counted from 1.
    #[error("operation {0} has an opcode that stood before")]
    Repeated(usize),
    #[error("no memory is left")]
    Memory,
}
