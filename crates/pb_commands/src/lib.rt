//! The commands of `pbook` as functions over the ends that they are handed, and over the stores
//! where a ledger and its book are kept; and what all commands share: the exit status, why one
//! stopped, answers to lines.
#![tactic(auto)]

mod check;
mod collect;
mod continuing;
mod epd;
mod export;
mod fen;
pub mod laws;
mod lines;
mod lookup;
mod probe;
mod run;
mod show;
mod stop;
mod store;
mod tree;

pub use check::run_check;
pub use collect::{collect_into, journal_into, run_collect};
pub use continuing::{Continued, continue_into, run_continue};
pub use epd::run_epd;
pub use export::{export_submissions, run_export};
pub use fen::{answer_fen, run_fen};
pub use lookup::answer_lookup;
pub use pb_io::Fault;
pub use pb_ledger::{
    ExportFault, LoadError, MAX_LEAST, MAX_PLIES, Refusal, Rules, Totals, Watcher, pick_games,
};
pub use probe::{answer_probe, run_probe};
pub use run::{Ends, JournalEnds, LedgerEnds, Report};
pub use show::{answer_show, run_show};
pub use stop::{FAULT_STATUS, Refused, Stop, Stopped, status};
pub use store::{LedgerBook, Store, StoreError, Text};
pub use tree::answer_tree;
