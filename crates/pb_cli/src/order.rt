//! Takes the arguments of the command line as an order to one command.
ghost use Rattle.std.specs.Prelude.{◌≡◌, IfErr, IfOk, true};
ghost use Rattle.clap.specs.Walk.{texts};
ghost use Rattle.clap.specs.Words.{subcommand_of, subcommand_rows_of, takes};
ghost use Rattle.pb_cli.specs.CommandLine.{pbook};
ghost use Rattle.pb_cli.specs.Orders.{HasArgument, HasKeeping, HasRules, HasTaking, HasTexts};
ghost use Rattle.pb_cli.specs.Orders.{HasNumber, IsOrderOf, RefusesRightly, rows_given};
ghost use Rattle.pb_cli.specs.declared.order.ParseFault.TheVariants.{Memory};

use crate::grammar::command_line;
use clap::ArgMatches;
use clap::error::ErrorKind;
use pb_commands::Rules;
use std::alloc::{AllocError, Global};
use thiserror::Error;

/// Tells what is kept of games beside their book, by the path of its file.
#[derive(Clone, Copy, Debug, PartialEq, Eq)]
pub enum Keeping<'a> {
    /// Nothing.
    Book,
    /// A saved ledger, gone on from and made anew at the end.
    Ledger(&'a str),
    /// A journal, gone on from, to which each new game is added before its reply is put.
    Journal {
        /// The path of the journal.
        path: &'a str,
        /// Whether each game has to reach the disk before its reply.
        sync: bool,
    },
}

/// Tells what the command line asks for, with its arguments as they were given.
#[derive(Debug, Drop)]
pub enum Order<'a> {
    /// Plays moves from a FEN record.
    Fen {
        /// The record, its six fields as one argument.
        record: &'a str,
        /// The moves' texts.
        moves: Vec<&'a str>,
    },
    /// Rewrites EPD lines from standard input.
    Epd,
    /// Shows the entries of a book.
    Show {
        /// The path of the book.
        book: &'a str,
    },
    /// Shows the moves that a book has for a FEN record.
    Probe(ProbeOrder<'a>),
    /// Shows the moves that a book has for the positions on standard input.
    Lookup(LookupOrder<'a>),
    /// Shows the moves that a book has from a FEN record on.
    Tree(TreeOrder<'a>),
    /// Judges the submissions on standard input.
    Check,
    /// Makes a book of the submissions on standard input.
    Collect(CollectOrder<'a>),
    /// Writes the book of the submissions on standard input as EPD lines.
    Export(Taking<'a>),
    /// Prints the submission lines of files.
    Games {
        /// The paths of the files.
        files: Vec<&'a str>,
    },
}

/// Tells what `probe` was asked for.
#[derive(Clone, Copy, Debug, PartialEq, Eq)]
pub struct ProbeOrder<'a> {
    /// The path of the table.
    pub table: &'a str,
    /// The path of the book.
    pub book: &'a str,
    /// The record, its six fields as one argument.
    pub record: &'a str,
}

/// Tells what `lookup` was asked for.
#[derive(Clone, Copy, Debug, PartialEq, Eq)]
pub struct LookupOrder<'a> {
    /// The path of the table.
    pub table: &'a str,
    /// The path of the book.
    pub book: &'a str,
}

/// Tells what `tree` was asked for.
#[derive(Clone, Copy, Debug, PartialEq, Eq)]
pub struct TreeOrder<'a> {
    /// How many plies deep.
    pub plies: u32,
    /// The least weight that is shown, or 0 where none was given.
    pub weight: u32,
    /// The path of the table.
    pub table: &'a str,
    /// The path of the book.
    pub book: &'a str,
    /// The record, its six fields as one argument.
    pub record: &'a str,
}

/// Tells what `collect` was asked for.
#[derive(Clone, Copy, Debug, PartialEq, Eq)]
pub struct CollectOrder<'a> {
    /// How the games are taken.
    pub taking: Taking<'a>,
    /// What is kept beside the book.
    pub kept: Keeping<'a>,
    /// The path of the book that is made.
    pub book: &'a str,
}

/// Tells how games are taken, which is all that `export` was asked for.
#[derive(Clone, Copy, Debug, PartialEq, Eq)]
pub struct Taking<'a> {
    /// What of the games counts.
    pub rules: Rules,
    /// The path of the table.
    pub table: &'a str,
    /// Whether the summary is asked for.
    pub summary: bool,
    /// Whether standard error gets nothing else but errors.
    pub quiet: bool,
}

/// Says why the command line gives no order.
#[derive(Debug, Drop, Error)]
pub enum ParseFault {
    /// The text to show: a usage error, the help or the version.
    #[error("{0}")]
    Usage(String),
    /// There was no memory to read the arguments.
    #[error("no memory is left")]
    Memory,
}

impl From<AllocError> for ParseFault {
    ghost from_gives = { λ _ fault. fault ≡ Memory };

    fn from(_error: AllocError) -> ParseFault {
        ParseFault::Memory
    }
}

/// Reads the arguments of the command line, of which the first is the program's name.
///
/// `Usage` comes for those that give no order, and for those that ask for the help or the version.
/// `Memory` comes only where a growth found no memory.
pub fn parse<'a>(alloc: Global, words: &'a [&'a str]) -> Result<Order<'a>, ParseFault>
    ensures words { IfOk result (λ order. IsOrderOf order (subcommand_of pbook (texts words.now))) }
    ensures refused { takes pbook (texts words.now) ≡ true
        → IfErr result (RefusesRightly (subcommand_of pbook (texts words.now))) }
{
    match command_line(alloc)?.try_get_matches_from(words) {
        Ok(matches) => order_of(alloc, &matches),
        Err(error) if error.kind() == ErrorKind::OutOfMemory => Err(ParseFault::Memory),
        Err(error) => Err(ParseFault::Usage(error.to_string(alloc)?)),
    }
}

// Clap gives no matches without a command.
fn order_of<'a>(alloc: Global, matches: &ArgMatches<'a>) -> Result<Order<'a>, ParseFault>
    ensures words { IfOk result (λ order. IsOrderOf order (subcommand_rows_of matches.now)) }
    ensures refused { IfErr result (RefusesRightly (subcommand_rows_of matches.now)) }
{
    match matches.subcommand() {
        Some(("fen", given)) => Ok(Order::Fen {
            record: text(given, "FEN"),
            moves: texts(alloc, given, "MOVES")?,
        }),
        Some(("epd", _)) => Ok(Order::Epd),
        Some(("show", given)) => Ok(Order::Show {
            book: text(given, "BOOK"),
        }),
        Some(("probe", given)) => Ok(Order::Probe(ProbeOrder {
            table: text(given, "TABLE"),
            book: text(given, "BOOK"),
            record: text(given, "FEN"),
        })),
        Some(("lookup", given)) => Ok(Order::Lookup(LookupOrder {
            table: text(given, "TABLE"),
            book: text(given, "BOOK"),
        })),
        Some(("tree", given)) => Ok(Order::Tree(TreeOrder {
            plies: number(given, "plies"),
            weight: number(given, "weight"),
            table: text(given, "TABLE"),
            book: text(given, "BOOK"),
            record: text(given, "FEN"),
        })),
        Some(("check", _)) => Ok(Order::Check),
        Some(("collect", given)) => Ok(Order::Collect(CollectOrder {
            taking: taken(given),
            kept: kept(given),
            book: text(given, "BOOK"),
        })),
        Some(("export", given)) => Ok(Order::Export(taken(given))),
        Some(("games", given)) => Ok(Order::Games {
            files: texts(alloc, given, "FILE")?,
        }),
        _ => Err(ParseFault::Usage(String::new(alloc))),
    }
}

fn taken<'a>(given: &ArgMatches<'a>) -> Taking<'a>
    ensures { HasTaking result (rows_given given.now) }
{
    Taking {
        rules: rules(given),
        table: text(given, "TABLE"),
        summary: given.get_flag("summary"),
        quiet: given.get_flag("quiet"),
    }
}

fn kept<'a>(given: &ArgMatches<'a>) -> Keeping<'a>
    ensures { HasKeeping result (rows_given given.now) }
{
    match (given.get_str("ledger"), given.get_str("journal")) {
        (Some(path), _) => Keeping::Ledger(path),
        (None, Some(path)) => Keeping::Journal {
            path,
            sync: given.get_flag("sync"),
        },
        (None, None) => Keeping::Book,
    }
}

// Clap gives matches only with both numbers, within their bounds.
fn rules(given: &ArgMatches<'_>) -> Rules
    ensures { HasRules result (rows_given given.now) }
{
    Rules::new(number(given, "plies"), number(given, "least")).unwrap_or(Rules::all_plies())
}

fn number(given: &ArgMatches<'_>, id: &str) -> u32
    ensures { HasNumber id.now result (rows_given given.now) }
{
    given.get_one(id).unwrap_or(0)
}

// Clap gives matches only with what is required.
fn text<'a>(given: &ArgMatches<'a>, id: &str) -> &'a str
    ensures { HasArgument id.now result (rows_given given.now) }
{
    given.get_str(id).unwrap_or("")
}

fn texts<'a>(alloc: Global, given: &ArgMatches<'a>, id: &str) -> Result<Vec<&'a str>, AllocError>
    ensures { IfOk result (λ all. HasTexts id.now all.items (rows_given given.now)) }
{
    given.get_strs(id).unwrap_or(&[]).to_vec(alloc)
}
