//! Reply lines.

ghost use Rattle.std.specs.Prelude.{◌≡◌, ◌+◌, ◌≤◌, ◌++◌, decimal, length};
ghost use Rattle.std.specs.Str.Lines.{strip_carriage_return};
ghost use Rattle.pb_board.specs.Fields.{field, fields, tab};
ghost use Rattle.pb_accepted.specs.Accepting.{named, reason, reply_line};

use arrayvec::ArrayVec;
use itoa::Buffer;
use pb_board::{cut_once, without_return};
use pb_games::Refusal;
use std::marker::Model;

/// Holds the reply line to a submission line, with its LF: `ok ID NUMBER`, or `refused ID REASON`
/// with a `-` in place of an id that isn't there. It takes no memory of its own.
#[derive(Drop)]
pub struct Reply {
    bytes: ArrayVec<u8, 96>,
}

impl Model for Reply {
    ghost use Rattle.std.specs.Prelude.{List, ℕ};

    ghost Value = { List ℕ };

    ghost view = { λ r. r.bytes.items };
}

impl Reply {
    /// Makes the reply to the line, without its LF, that was answered so. It names `-` where the
    /// line is refused as `Long`, `Shape` or `Id`.
    pub fn new(line: &[u8], answer: Result<u32, Refusal>) -> Reply
        requires { length (named line.now answer) ≤ 64 }
        ensures { result ≡ reply_line line.now answer }
    {
        let mut reply = Reply {
            bytes: ArrayVec::new(),
        };
        match answer {
            Ok(number) => {
                reply.add(b"ok ");
                reply.add(first_field(line));
                reply.add_number(b" ", number);
            }
            Err(refusal) => {
                reply.add(b"refused ");
                reply.add(id_beside(line, refusal));
                reply.add(b" ");
                reply.add_reason(refusal);
            }
        }
        reply.add(b"\n");
        reply
    }

    /// Gives the bytes of the line.
    pub fn as_bytes(&self) -> &[u8]
        ensures { result.now ≡ self.now }
    {
        self.bytes.as_slice()
    }

    fn add_reason(&mut self, refusal: Refusal)
        requires { length self.old + 19 ≤ 96 }
        ensures text { self.new ≡ self.old ++ reason refusal }
        ensures short { length (reason refusal) ≤ 19 }
    {
        match refusal {
            Refusal::Long => self.add(b"long"),
            Refusal::Shape => self.add(b"shape"),
            Refusal::Id => self.add(b"id"),
            Refusal::Result => self.add(b"result"),
            Refusal::Fen(_) => self.add(b"fen"),
            Refusal::Start => self.add(b"start"),
            Refusal::Spelling(ply) => self.add_number(b"spelling ", ply),
            Refusal::Plies => self.add(b"plies"),
            Refusal::Illegal(ply) => self.add_number(b"illegal ", ply),
            Refusal::Conflict(number) => self.add_number(b"conflict ", number),
            Refusal::Full => self.add(b"full"),
            Refusal::Memory => self.add(b"memory"),
        }
    }

    fn add_number(&mut self, before: &[u8], number: u32)
        requires { length self.old + length before.now + 10 ≤ 96 }
        ensures text { self.new ≡ self.old ++ (before.now ++ decimal number) }
        ensures short { length (decimal number) ≤ 10 }
    {
        self.add(before);
        let mut digits = Buffer::new();
        self.add(digits.format(number).as_bytes());
    }

    fn add(&mut self, text: &[u8])
        requires { length self.old + length text.now ≤ 96 }
        ensures { self.new ≡ self.old ++ text.now }
    {
        self.bytes.try_extend_from_slice(text).unwrap();
    }
}

fn id_beside(line: &[u8], refusal: Refusal) -> &[u8]
    ensures { result.now ≡ named line.now (Err refusal) }
{
    match refusal {
        Refusal::Long | Refusal::Shape | Refusal::Id => b"-",
        _ => first_field(line),
    }
}

fn first_field(line: &[u8]) -> &[u8]
    ensures { result.now ≡ field (fields tab (strip_carriage_return line.now)) 0 }
{
    let line = without_return(line);
    match cut_once(line, b'\t') {
        Some((first, _)) => first,
        None => line,
    }
}
