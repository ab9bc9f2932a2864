//! The command `check`: each line submits a legal game, or is refused.

ghost use Rattle.std.specs.Prelude.{◌≡◌, ◌≤◌, Err, Ok, false, length};
ghost use Rattle.pb_commands.specs.CheckShown.{CheckShown, ChecksOrEnds};
ghost use Rattle.pb_accepted.specs.Accepting.{named, reply_line};
ghost use Rattle.pb_commands.specs.LinesRun.{PutsOrStops};

use crate::lines::{LineAnswer, answer_lines};
use pb_io::{Fault, Sink, Source, put_pieces};
use pb_ledger::{Refusal, Reply, Watcher, check_line};
use std::alloc::Global;

#[derive(Drop)]
struct Checker<'w, Watch> {
    watcher: &'w mut Watch,
}

impl<Watch: Watcher> LineAnswer for Checker<'_, Watch> {
    ghost shows = { λ _ _. CheckShown };

    fn answer<K: Sink>(
        &mut self,
        sink: &mut K,
        _number: u64,
        line: Option<&[u8]>,
    ) -> Result<bool, Fault> {
        // A long line isn't kept, so its id isn't known.
        let Some(line) = line else {
            return self.refuse(sink, b"", Refusal::Long);
        };
        match check_line(line) {
            Ok(game) => {
                put_pieces(sink, &[b"ok ", game.id_bytes()], b"\n")?;
                self.watcher.answered(None);
                Ok(true)
            }
            Err(refusal) => self.refuse(sink, line, refusal),
        }
    }
}

impl<Watch: Watcher> Checker<'_, Watch> {
    fn refuse<K: Sink>(
        &mut self,
        sink: &mut K,
        line: &[u8],
        refusal: Refusal,
    ) -> Result<bool, Fault>
        requires { length (named line.now (Err refusal)) ≤ 64 }
        ensures { PutsOrStops (λ verdict. verdict ≡ Ok (false, reply_line line.now (Err refusal)))
            (K.state sink.old) (K.state sink.new) result }
    {
        sink.put(Reply::new(line, Err(refusal)).as_bytes())?;
        self.watcher.answered(Some(refusal));
        Ok(false)
    }
}

/// Puts `ok` and the id for each line that submits a legal game, and else the reply line that
/// refuses it. It answers whether no line was refused, and tells the watcher what each came to.
///
/// # Errors
///
/// `Memory` comes only before the first fill.
pub fn run_check<In: Source, Out: Sink, Watch: Watcher>(
    alloc: Global,
    source: &mut In,
    sink: &mut Out,
    watcher: &mut Watch,
    fills: u32,
) -> Result<bool, Fault>
    ensures { ChecksOrEnds fills (In.state source.old) (In.state source.new)
        (Out.state sink.old) (Out.state sink.new) result }
{
    answer_lines(alloc, source, sink, Checker { watcher }, fills)
}
