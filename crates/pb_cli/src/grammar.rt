//! Builds the command line of `pbook`, each command by a function.
ghost use Rattle.std.specs.Prelude.{IfOk};
ghost use Rattle.clap.specs.Words.{App, new_app};
ghost use Rattle.pb_cli.specs.CommandLine.{HasRule, IsCommand, check_command, collect_command};
ghost use Rattle.pb_cli.specs.CommandLine.{epd_command, export_command, fen_command, flag};
ghost use Rattle.pb_cli.specs.CommandLine.{games_command, lookup_command, number, option, pbook};
ghost use Rattle.pb_cli.specs.CommandLine.{probe_command, program_alone, required_argument};
ghost use Rattle.pb_cli.specs.CommandLine.{show_command, tree_command, with_games};

use clap::builder::ValueParser;
use clap::{Arg, ArgAction, Command};
use pb_commands::{MAX_LEAST, MAX_PLIES};
use std::alloc::{AllocError, Global};

const RECORD_HELP: &str = "A FEN record: its six fields as one quoted word";

const BOOK_HELP: &str = "A PolyGlot book";

const TABLE_HELP: &str = "The 781 numbers of position keys, one a line (16 hex digits)";

const COLLECT_HELP: &str = "\
Each line of standard input is a game: four fields, with a TAB between each two.
They are its id, its result, the FEN record that it starts from, and its moves.
For example, where <FEN> is a record of six fields:
  w1-1<TAB>1-0<TAB><FEN><TAB>e2e4 e7e5

Examples:
  pbook collect --plies 24 --least 3 table.txt book.bin < games.txt > replies
  pbook collect --ledger games.ledger table.txt book.bin < tonight.txt > replies
  pbook collect --journal games.journal table.txt book.bin < games.txt > replies";

// Help lists the commands in this order.
pub(crate) fn command_line<'a>(alloc: Global) -> Result<Command<'a>, AllocError>
    ensures { IfOk result (IsCommand pbook) }
{
    program(alloc)?
        .subcommand(collect(alloc)?)?
        .subcommand(export(alloc)?)?
        .subcommand(check(alloc))?
        .subcommand(games(alloc)?)?
        .subcommand(show(alloc)?)?
        .subcommand(probe(alloc)?)?
        .subcommand(lookup(alloc)?)?
        .subcommand(tree(alloc)?)?
        .subcommand(fen(alloc)?)?
        .subcommand(epd(alloc))
}

// Its name in usage lines is `pbook`, however it was called.
fn program<'a>(alloc: Global) -> Result<Command<'a>, AllocError>
    ensures { IfOk result (IsCommand program_alone) }
{
    Command::new(alloc, "pbook")
        .about("Makes PolyGlot opening books")
        .version("0.4.0")
        .subcommand_required(true)
        .arg_required_else_help(true)
        .bin_name("pbook")
}

fn fen<'a>(alloc: Global) -> Result<Command<'a>, AllocError>
    ensures { IfOk result (IsCommand fen_command) }
{
    bare_command(
        alloc,
        "fen",
        "Plays moves, and prints the FEN record after them",
        "pbook fen <FEN> [MOVES]...",
        "\
For example
  pbook fen 'rnbqkbnr/pppppppp/8/8/8/8/PPPPPPPP/RNBQKBNR w KQkq - 0 1' e2e4
prints
  rnbqkbnr/pppppppp/8/8/4P3/8/PPPP1PPP/RNBQKBNR b KQkq e3 0 1",
    )
    .arg(required(alloc, "FEN", RECORD_HELP))?
    .arg(
        Arg::new(alloc, "MOVES")
            .num_args(0..)
            .action(ArgAction::Append)
            .help("Moves in turn, like e2e4, e1g1 for castling, or e7e8q"),
    )
}

fn epd<'a>(alloc: Global) -> Command<'a>
    ensures { IsCommand epd_command result }
{
    bare_command(
        alloc,
        "epd",
        "Rewrites EPD lines, each in its one ordered form",
        "pbook epd < LINES > RECORDS",
        "\
For example
  pbook epd < positions.epd > ordered.epd
makes of a line
  4k3/8/8/8/8/8/4P3/4K3 w - - id \"pawn\";  ce 100;
the line
  4k3/8/8/8/8/8/4P3/4K3 w - - ce 100; id \"pawn\";",
    )
}

fn show<'a>(alloc: Global) -> Result<Command<'a>, AllocError>
    ensures { IfOk result (IsCommand show_command) }
{
    bare_command(
        alloc,
        "show",
        "Prints the entries of a book in hexadecimal digits",
        "pbook show <BOOK>",
        "\
For example, the first five entries:
  pbook show book.bin | head -n 5",
    )
    .arg(required(alloc, "BOOK", BOOK_HELP))
}

fn probe<'a>(alloc: Global) -> Result<Command<'a>, AllocError>
    ensures { IfOk result (IsCommand probe_command) }
{
    bare_command(
        alloc,
        "probe",
        "Prints the moves that a book has for a FEN record",
        "pbook probe <TABLE> <BOOK> <FEN>",
        "\
For example, the moves in the initial position, the greatest weight first:
  pbook probe table.txt book.bin \\
    'rnbqkbnr/pppppppp/8/8/8/8/PPPPPPPP/RNBQKBNR w KQkq - 0 1'",
    )
    .arg(required(alloc, "TABLE", TABLE_HELP))?
    .arg(required(alloc, "BOOK", BOOK_HELP))?
    .arg(required(alloc, "FEN", RECORD_HELP))
}

fn lookup<'a>(alloc: Global) -> Result<Command<'a>, AllocError>
    ensures { IfOk result (IsCommand lookup_command) }
{
    bare_command(
        alloc,
        "lookup",
        "Prints the moves that a book has for many positions",
        "pbook lookup <TABLE> <BOOK> < POSITIONS > MOVES",
        "\
Each line of standard input is a FEN record or an EPD line. Its answer is a line
too, like 'e2e4 287 d2d4 43', or '-' where the book has nothing.

For example
  pbook lookup table.txt book.bin < positions.epd > moves",
    )
    .arg(required(alloc, "TABLE", TABLE_HELP))?
    .arg(required(alloc, "BOOK", BOOK_HELP))
}

fn tree<'a>(alloc: Global) -> Result<Command<'a>, AllocError>
    ensures { IfOk result (IsCommand tree_command) }
{
    bare_command(
        alloc,
        "tree",
        "Prints a book's moves from a position on, as a tree",
        "pbook tree [OPTIONS] <TABLE> <BOOK> [FEN]",
        "\
Each move has its weight, and its share of all weights there in per cent. Below
it, two spaces further in, are those that the book has after it.

For example, two plies from the initial position:
  pbook tree --plies 2 table.txt book.bin
prints lines such as
  e2e4 287 85%
    e7e5 90 40%
    c7c5 64 28%
  d2d4 43 12%",
    )
    .arg(number(alloc, "plies", "N", "4", MAX_PLIES, "Go N plies deep"))?
    .arg(option(alloc, "weight", "W", "Leave out moves of a weight below W").value_parser(
        ValueParser::unsigned(1, 65535),
    ))?
    .arg(required(alloc, "TABLE", TABLE_HELP))?
    .arg(required(alloc, "BOOK", BOOK_HELP))?
    .arg(
        Arg::new(alloc, "FEN")
            .action(ArgAction::Set)
            .default_value("rnbqkbnr/pppppppp/8/8/8/8/PPPPPPPP/RNBQKBNR w KQkq - 0 1")
            .hide_default_value(true)
            .help("A FEN record to begin from, in place of a game's start"),
    )
}

fn collect<'a>(alloc: Global) -> Result<Command<'a>, AllocError>
    ensures { IfOk result (IsCommand collect_command) }
{
    let keeping = bare_command(
        alloc,
        "collect",
        "Takes games, replies to each, and makes their PolyGlot book",
        "pbook collect [OPTIONS] <TABLE> <BOOK> < LINES > REPLIES",
        COLLECT_HELP,
    )
    .arg(
        option(
            alloc,
            "ledger",
            "FILE",
            "Go on from the games of FILE, and save all games there",
        )
        .conflicts_with("journal")?
        .conflicts_with("sync")?,
    )?
    .arg(option(
        alloc,
        "journal",
        "FILE",
        "Go on from the games of FILE; add each new one at once",
    ))?
    .arg(flag(
        alloc,
        "sync",
        "With --journal: get each game on disk before its reply",
    )
    .requires_arg("journal")?)?;
    with_games(alloc, keeping)?.arg(required(
        alloc,
        "BOOK",
        "The book to write, in place of the old one",
    ))
}

fn export<'a>(alloc: Global) -> Result<Command<'a>, AllocError>
    ensures { IfOk result (IsCommand export_command) }
{
    with_games(
        alloc,
        bare_command(
            alloc,
            "export",
            "Takes games, and prints their book as EPD lines",
            "pbook export [OPTIONS] <TABLE> < LINES > EPD",
            "\
Each line of standard input is a game, as for 'pbook collect'.

Examples:
  pbook export table.txt < games.txt > book.epd
  pbook export --plies 8 --least 10 table.txt < games.txt > openings.epd",
        ),
    )
}

fn check<'a>(alloc: Global) -> Command<'a>
    ensures { IsCommand check_command result }
{
    bare_command(
        alloc,
        "check",
        "Judges games one by one, and makes nothing of them",
        "pbook check < LINES > REPLIES",
        "\
Each line of standard input is a game, as for 'pbook collect'. Its reply is
'ok ID', or 'refused ID REASON'. The status is 1 if any was refused.

For example, what is wrong with a worker's games:
  pbook check < games.txt | grep '^refused'",
    )
}

fn games<'a>(alloc: Global) -> Result<Command<'a>, AllocError>
    ensures { IfOk result (IsCommand games_command) }
{
    bare_command(
        alloc,
        "games",
        "Prints the submission lines of journals, saved ledgers and lists",
        "pbook games <FILE>... > LINES",
        "\
Left out are the first line of a saved ledger, sealed lines of a journal, other
lines that no submission has the shape of, and a last line without its end. The
files stay as they are, and a journal may be in use.

For example, a book of the games of two collectors:
  pbook games a.journal b.journal > all &&
    pbook collect table.txt book.bin < all > replies",
    )
    .arg(
        Arg::new(alloc, "FILE")
            .required(true)
            .num_args(1..)
            .action(ArgAction::Append)
            .help("A journal, a saved ledger or a list of submission lines"),
    )
}

fn bare_command<'a>(
    alloc: Global,
    name: &'a str,
    about: &'a str,
    usage: &'a str,
    after: &'a str,
) -> Command<'a>
    ensures { IsCommand (new_app name.now) result }
{
    Command::new(alloc, name)
        .about(about)
        .override_usage(usage)
        .after_help(after)
}

fn with_games<'a>(alloc: Global, command: Command<'a>) -> Result<Command<'a>, AllocError>
    ensures { IfOk result (λ taking. (app : App) → IsCommand app command.entry
        → IsCommand (with_games app) taking) }
{
    command
        .arg(number(
            alloc,
            "plies",
            "N",
            "1024",
            MAX_PLIES,
            "Count the first N plies of each game",
        ))?
        .arg(number(
            alloc,
            "least",
            "G",
            "1",
            MAX_LEAST,
            "Leave out moves played fewer than G times",
        ))?
        .arg(flag(
            alloc,
            "summary",
            "Print the summary also where no terminal shows it",
        ))?
        .arg(flag(
            alloc,
            "quiet",
            "Print errors only: no warnings, progress or summary",
        )
        .short('q'))?
        .arg(required(alloc, "TABLE", TABLE_HELP))
}

/// Takes a number from 1 to `most`, which is `value` where it isn't given.
fn number<'a>(
    alloc: Global,
    name: &'a str,
    letter: &'a str,
    value: &'a str,
    most: u32,
    help: &'a str,
) -> Arg<'a>
    ensures { HasRule (number name.now value.now most) result }
{
    option(alloc, name, letter, help)
        .default_value(value)
        .value_parser(ValueParser::unsigned(1, u64::from(most)))
}

/// Help calls the option's value `letter`.
fn option<'a>(alloc: Global, name: &'a str, letter: &'a str, help: &'a str) -> Arg<'a>
    ensures { HasRule (option name.now) result }
{
    Arg::new(alloc, name)
        .long(name)
        .value_name(letter)
        .action(ArgAction::Set)
        .help(help)
}

fn flag<'a>(alloc: Global, name: &'a str, help: &'a str) -> Arg<'a>
    ensures { HasRule (flag name.now) result }
{
    Arg::new(alloc, name)
        .long(name)
        .action(ArgAction::SetTrue)
        .help(help)
}

fn required<'a>(alloc: Global, id: &'a str, help: &'a str) -> Arg<'a>
    ensures { HasRule (required_argument id.now) result }
{
    Arg::new(alloc, id)
        .required(true)
        .action(ArgAction::Set)
        .help(help)
}
