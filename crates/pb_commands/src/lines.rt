//! Streams of lines, each of which is answered.

ghost use Rattle.std.specs.Prelude.{List, ℕ, ◌≡◌, true};
ghost use Rattle.pb_commands.specs.Judged.{Verdict};
ghost use Rattle.pb_io.specs.LineTask.{either};
ghost use Rattle.pb_commands.specs.LinesRun.{AnswersLine, PutsOrStops, AnswersOrEnds};
ghost use Rattle.pb_io.specs.Lines.{IsLine};

use pb_io::{Fault, LineTask, Sink, Source, take_lines};
use std::alloc::Global;

/// Answers lines, each by what is put for it.
pub(crate) trait LineAnswer: Drop {
    /// What a line comes to, by its number, from 1, and its bytes. No answer changes it.
    ghost shows: { Self → ℕ → List ℕ → Verdict → Type 0 };

    /// Puts what the line of this number gives, and answers whether it was taken. A line of more
    /// than `LINE_LIMIT` bytes isn't kept.
    ///
    /// # Errors
    ///
    /// The sink has failed, or memory was wanting and nothing was put.
    fn answer<K: Sink>(
        &mut self,
        sink: &mut K,
        number: u64,
        line: Option<&[u8]>,
    ) -> Result<bool, Fault>
        ensures puts { (whole : List ℕ) → IsLine line.entry whole
            → PutsOrStops (shows self.old number whole) (K.state sink.old) (K.state sink.new)
            result }
        ensures same { (number : ℕ) (line : List ℕ) (verdict : Verdict)
            → shows self.new number line verdict → shows self.old number line verdict };
}

#[derive(Drop)]
struct Answering<'a, 's, A, K> {
    answerer: &'a mut A,
    sink: &'s mut K,
    lines: u64,
    /// Whether no line was refused so far.
    all_taken: bool,
}

impl<A: LineAnswer, K: Sink> LineTask for Answering<'_, '_, A, K> {
    type Stop = Fault;

    ghost takes = { either (AnswersLine A.shows K.state) };

    fn take(&mut self, line: Option<&[u8]>, _is_ended: bool) -> Result<(), Fault> {
        self.lines = self.lines.saturating_add(1);
        let taken = self.answerer.answer(self.sink, self.lines, line)?;
        self.all_taken = self.all_taken && taken;
        Ok(())
    }
}

impl<A: LineAnswer, K: Sink> Answering<'_, '_, A, K> {
    fn answer_all<S: Source>(
        &mut self,
        alloc: Global,
        source: &mut S,
        fills: u32,
    ) -> Result<bool, Fault>
        requires first { self.old.lines ≡ 0 }
        requires none_refused { self.old.all_taken ≡ true }
        ensures ends { AnswersOrEnds (A.shows self.old.answerer.now) fills (S.state source.old)
            (S.state source.new) (K.state self.old.sink.now) (K.state self.new.sink.now) result }
        ensures lent { self.new.sink.ghost_name ≡ self.old.sink.ghost_name }
    {
        take_lines(alloc, source, self, fills)?;
        self.sink.flush()?;
        Ok(self.all_taken)
    }
}

/// Answers the lines of the source in order, tells whether none was refused, and hands on what was
/// put once, at the end. A piece that no LF ended is a line at the end of input alone.
pub(crate) fn answer_lines<S: Source, K: Sink, A: LineAnswer>(
    alloc: Global,
    source: &mut S,
    sink: &mut K,
    mut answerer: A,
    fills: u32,
) -> Result<bool, Fault>
    ensures { AnswersOrEnds (A.shows answerer) fills (S.state source.old) (S.state source.new)
        (K.state sink.old) (K.state sink.new) result }
{
    let mut answering = Answering {
        answerer: &mut answerer,
        sink,
        lines: 0,
        all_taken: true,
    };
    answering.answer_all(alloc, source, fills)
}
