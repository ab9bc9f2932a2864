//! Parses the command line of `pbook` into an `Order`, and re-exports a function for each command
//! and the stores where a ledger and its book are kept.
#![tactic(auto)]

mod grammar;
pub mod laws;
mod order;

pub use order::{
    CollectOrder, Keeping, LookupOrder, Order, ParseFault, ProbeOrder, Taking, TreeOrder, parse,
};
// What counts is said by the arguments alone: a program that knows no `Rules` has no others.
pub use pb_commands::{
    Continued, Ends, FAULT_STATUS, Fault, JournalEnds, LedgerEnds, LoadError, MAX_LEAST, MAX_PLIES,
    Refusal, Refused, Report, Stop, Stopped, Store, StoreError, Text, Totals, Watcher, answer_fen,
    answer_lookup, answer_probe, answer_show, answer_tree, collect_into, continue_into,
    export_submissions, journal_into, pick_games, run_check, run_collect, run_continue, run_epd,
    run_export, run_fen, run_probe, run_show, status,
};
