//! The command `export`: the book of submissions as EPD lines.

ghost use Rattle.std.specs.Prelude.{◌≡◌, Result, is_some};
ghost use Rattle.std.specs.Result.{result_map_both};
ghost use Rattle.pb_commands.specs.Judged.{unless_refused};
ghost use Rattle.pb_commands.specs.Runs.{between};
ghost use Rattle.pb_commands.specs.ExportRun.{ExportRun, ExportsTaken};

use crate::run::{Intake, Report, make_ledger, take_submissions};
use crate::stop::{Stopped, unless_refused};
use pb_io::{Fault, NullSink, Sink, Source};
use pb_ledger::{Rules, Watcher, export};
use std::alloc::Global;

/// Takes submission lines, drops the replies, and puts the book of the games that are held at the
/// end as EPD lines, by the rules: one for each setup before a move of a game for which the book
/// has moves. Where the table is refused, the line that says so is put, and the answer is false.
///
/// # Errors
///
/// Nothing is put before all submissions were taken, so a fault of theirs leaves the sink alone.
pub fn run_export<Table: Source, In: Source, Out: Sink>(
    alloc: Global,
    rules: Rules,
    table_source: &mut Table,
    source: &mut In,
    sink: &mut Out,
    fills: u32,
) -> Result<bool, Fault>
    ensures { (made : Result Report Stopped) × ExportRun rules fills
        (between Table.state table_source.old table_source.new)
        (between In.state source.old source.new) (between Out.state sink.old sink.new) made
        × (result ≡ result_map_both is_some (λ fault. fault) (unless_refused made)) }
{
    let made = export_submissions(alloc, rules, table_source, source, sink, &mut (), fills);
    Ok(unless_refused(made)?.is_some())
}

/// Exports as `run_export` does, and tells the watcher each answer. The report counts the answers,
/// and the lines of the export.
///
/// # Errors
///
/// As for `run_export`, and the reason where the table is refused.
pub fn export_submissions<Table: Source, In: Source, Out: Sink, Watch: Watcher>(
    alloc: Global,
    rules: Rules,
    table: &mut Table,
    lines: &mut In,
    sink: &mut Out,
    watcher: &mut Watch,
    fills: u32,
) -> Result<Report, Stopped>
    ensures { ExportRun rules fills (between Table.state table.old table.new)
        (between In.state lines.old lines.new) (between Out.state sink.old sink.new) result }
{
    let ledger = make_ledger(alloc, rules, table, sink, fills)?;
    let mut nobody = NullSink::default();
    let taken = take_submissions(alloc, ledger, lines, &mut nobody, watcher, fills);
    export_taken(alloc, &taken, sink).map_err(Stopped::Fault)
}

/// Exports what was taken, if no fault ended that.
fn export_taken<Out: Sink>(alloc: Global, taken: &Intake, sink: &mut Out) -> Result<Report, Fault>
    ensures { ExportsTaken (between Out.state sink.old sink.new) taken.now result }
{
    let totals = taken.end?;
    let count = export(alloc, &taken.ledger, sink)?;
    Ok(Report {
        totals,
        entries: u64::from(count),
    })
}
