//! The libraries in use, as another program uses them. Each module is one use: a function, or a
//! type, over the calls of a library, with a contract of its own that says what its caller may
//! rely on. Module `surface` alone has none: it names all that callers are promised.
#![tactic(auto)]

pub mod books;
pub mod games;
pub mod moves;
pub mod perft;
pub mod surface;
pub mod tallies;
