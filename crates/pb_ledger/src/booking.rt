//! The book of a ledger as the bytes of a file.

ghost use Rattle.std.specs.Prelude.{OnErr, OnOk};
ghost use Rattle.pb_io.specs.Sink.{Put};
ghost use Rattle.pb_poly.specs.Book.{book_bytes};
ghost use Rattle.pb_ledger.specs.Booking.{PutsOn, WritesBook};
ghost use Rattle.pb_ledger.specs.Change.{between};

use pb_accepted::Ledger;
use pb_export::ExportFault;
use pb_io::{Failed, Sink};
use pb_points::Tally;
use pb_poly::{ENTRIES_AT_ONCE, Entry, write_entries};
use std::alloc::Global;

/// Writes the opening book of the games that are held, and flushes. It answers how many entries the
/// book has, or 2^64 - 1 where it has more, and lists the entries of one stretch of keys at a time,
/// never all of them.
///
/// # Errors
///
/// The first of the sink's fault and want of memory that is met. A front of the bytes may have been
/// put then.
pub fn save_book<T: Tally, K: Sink>(
    alloc: Global,
    ledger: &Ledger<T>,
    sink: &mut K,
) -> Result<u64, ExportFault>
    ensures { WritesBook ledger.now (between K.state sink.old sink.new) result }
{
    let mut entries = Vec::new(alloc);
    let mut count: u64 = 0;
    let mut next = Some(0);
    while let Some(first) = next {
        entries.clear();
        next = ledger.add_stretch(alloc, first, &mut entries)?;
        put_entries(sink, &entries)?;
        count = count.saturating_add(entries.len() as u64);
    }
    sink.flush()?;
    Ok(count)
}

fn put_entries<K: Sink>(sink: &mut K, entries: &[Entry]) -> Result<(), Failed>
    ensures ok { OnOk result (PutsOn (between K.state sink.old sink.new) (book_bytes entries.now)) }
    ensures err { OnErr result (Put (K.state sink.old) (K.state sink.new) result
        (book_bytes entries.now)) }
{
    for some in entries.chunks(ENTRIES_AT_ONCE) {
        write_entries(sink, some)?;
    }
    Ok(())
}
