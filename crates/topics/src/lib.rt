//! Rows over the crates from the ledger to the commands, and those of `make bench`: what answers
//! them, and which topic of `rows` or of this crate a row is of.
#![tactic(auto)]

mod bench;
mod collecting;
mod command;
mod ends;
mod game;
mod ledger;
mod mem_store;
mod points;

use rows::page::{Done, NO_ROW, Page};

/// Answers a call of a topic.
pub fn answer(rt: &HostRuntime, page: &mut Page, topic: &str, call: &[&str]) -> Done {
    match topic {
        "record" => rows::record::answer(page, call),
        "moves" => rows::moves::answer(page, call),
        "epd" => rows::epd::answer(page, call),
        "table" => rows::table::answer(page, call),
        "book" => rows::book::answer(page, call),
        "stream" => rows::stream::answer(page, call),
        "game" => game::answer(page, call),
        "ledger" => ledger::answer(page, call),
        "points" => points::answer(page, call),
        "command" => command::answer(page, call),
        "bench" => bench::answer(rt, page, call),
        _ => NO_ROW,
    }
}
