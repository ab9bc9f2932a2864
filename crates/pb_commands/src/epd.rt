//! The command `epd`: each EPD line is written in its one ordered form, or refused.

ghost use Rattle.pb_commands.specs.EpdShown.{RewritesOrEnds, IsBlank, epd_verdict, refused_line};
ghost use Rattle.pb_commands.specs.EpdShown.{LineShown};
ghost use Rattle.std.specs.Prelude.{◌≡◌, ◌↔◌, ◌++◌, IsTrue, decimal};
ghost use Rattle.pb_commands.specs.LinesRun.{PutsOrStops};

use crate::lines::{LineAnswer, answer_lines};
use itoa::Buffer;
use pb_board::without_return;
use pb_epd::{EpdError, read_epd, write_epd};
use pb_io::{Fault, Sink, Source, put_pieces};
use std::alloc::Global;

#[derive(Drop)]
struct Rewriter {
    alloc: Global,
}

impl LineAnswer for Rewriter {
    ghost shows = { λ _. LineShown };

    fn answer<K: Sink>(
        &mut self,
        sink: &mut K,
        number: u64,
        line: Option<&[u8]>,
    ) -> Result<bool, Fault> {
        let Some(line) = line else {
            return refuse_line(sink, number, b"long", b"");
        };
        let text = without_return(line);
        if is_blank(text) {
            return Ok(true);
        }
        match read_epd(self.alloc, text) {
            Ok(epd) => {
                let form = write_epd(self.alloc, &epd)?;
                put_pieces(sink, &[form.as_slice()], b"\n")?;
                Ok(true)
            }
            Err(error) => put_refusal(sink, number, error),
        }
    }
}

/// Rewrites each EPD line in its one ordered form, or puts its number and why it is refused, and
/// answers whether none was. A line of spaces alone is counted and skipped.
pub fn run_epd<S: Source, K: Sink>(
    alloc: Global,
    source: &mut S,
    sink: &mut K,
    fills: u32,
) -> Result<bool, Fault>
    ensures { RewritesOrEnds fills (S.state source.old) (S.state source.new)
        (K.state sink.old) (K.state sink.new) result }
{
    answer_lines(alloc, source, sink, Rewriter { alloc }, fills)
}

pub(crate) fn is_blank(text: &[u8]) -> bool
    ensures { IsTrue result ↔ IsBlank text.now }
{
    text.iter().all(|byte| *byte == b' ')
}

/// Answers that the line was refused, or puts nothing where memory was wanting.
pub(crate) fn put_refusal<K: Sink>(
    sink: &mut K,
    number: u64,
    error: EpdError,
) -> Result<bool, Fault>
    ensures { PutsOrStops (λ verdict. verdict ≡ epd_verdict number error) (K.state sink.old)
        (K.state sink.new) result }
{
    match error {
        EpdError::Token(at) => refuse_at(sink, number, b"token ", at),
        EpdError::Fields => refuse_line(sink, number, b"fields", b""),
        EpdError::Setup(refusal) => {
            refuse_line(sink, number, b"setup ", refusal.word().as_bytes())
        }
        EpdError::Opcode(index) => refuse_at(sink, number, b"opcode ", index),
        EpdError::Unended => refuse_line(sink, number, b"unended", b""),
        EpdError::Repeated(index) => refuse_at(sink, number, b"repeated ", index),
        EpdError::Memory => Err(Fault::Memory),
    }
}

fn refuse_at<K: Sink>(sink: &mut K, number: u64, why: &[u8], index: usize) -> Result<bool, Fault>
    ensures { PutsOrStops (λ verdict. verdict ≡ refused_line number (why.now ++ decimal index))
        (K.state sink.old) (K.state sink.new) result }
{
    let mut buffer = Buffer::new();
    refuse_line(sink, number, why, buffer.format(index).as_bytes())
}

pub(crate) fn refuse_line<K: Sink>(
    sink: &mut K,
    number: u64,
    why: &[u8],
    at: &[u8],
) -> Result<bool, Fault>
    ensures { PutsOrStops (λ verdict. verdict ≡ refused_line number (why.now ++ at.now))
        (K.state sink.old) (K.state sink.new) result }
{
    let mut buffer = Buffer::new();
    let digits = buffer.format(number);
    put_pieces(
        sink,
        &[b"refused ", digits.as_bytes(), b" ", why, at],
        b"\n",
    )?;
    Ok(false)
}
