//! Rows over the crates below the ledger: how they are written, what answers them, and how answers
//! are told.
#![tactic(auto)]

pub mod book;
pub mod ends;
pub mod epd;
pub mod moves;
pub mod page;
pub mod record;
pub mod runs;
pub mod stream;
pub mod table;
pub mod text;
