//! EPD records, and the reader and the writer of their texts (PGN Standard 16.2). What opcodes mean
//! isn't looked at.
//!
//! ```rust
//! let epd = read_epd(alloc, b"4k3/8/8/8/8/8/4P3/4K3 w - - ce 100;")?;
//! let text = write_epd(alloc, &epd)?;
//! ```
#![tactic(auto)]

mod epd;
pub mod laws;
mod operation;
mod read;
mod refusal;
mod token;
mod write;

pub use epd::Epd;
pub use operation::{Operand, OperandBytes};
pub use read::read_epd;
pub use refusal::{EpdError, PutError};
pub use write::write_epd;
