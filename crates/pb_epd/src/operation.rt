//! Operations: which opcodes and operands are lawful.

ghost use Rattle.std.specs.Prelude.{◌≡◌, ◌↔◌, ◌+◌, List, All, IsTrue, MatchOption};
ghost use Rattle.pb_epd.specs.Token.{IsToken, quoted, word};
ghost use Rattle.pb_epd.specs.Operation.{IsOpcode, IsOperand};
ghost use Rattle.pb_board.specs.Refusal.{BreaksAt};

use crate::token::{LONGEST, quoted_run, word_run};
use std::marker::Model;

/// Holds the bytes of a word or a text.
#[derive(Drop)]
pub struct OperandBytes {
    bytes: Vec<u8>,
}

impl Model for OperandBytes {
    ghost use Rattle.std.specs.Prelude.{List, ℕ};

    ghost Value = { List ℕ };

    ghost view = { λ o. o.bytes.items };
}

impl OperandBytes {
    /// Makes an operand of bytes, whether they are lawful or not.
    pub fn of(bytes: Vec<u8>) -> OperandBytes
        ensures { result ≡ bytes.items }
    {
        OperandBytes { bytes }
    }

    /// Gives the bytes.
    pub fn as_bytes(&self) -> &[u8]
        ensures { result.now ≡ self.now }
    {
        self.bytes.as_slice()
    }
}

/// Holds an operand of an operation, of the form in which it stands in the text.
#[derive(Drop)]
pub enum Operand {
    /// 1 to 255 bytes of 33 to 126 without `;` and `"`.
    Word(OperandBytes),
    /// 0 to 255 bytes of 32 to 126 without `"`, which stand in quotes.
    Text(OperandBytes),
}

/// In bytes, after the first.
const OPCODE_REST: usize = 14;

pub(crate) fn is_opcode(bytes: &[u8]) -> bool
    ensures { IsTrue result ↔ IsOpcode bytes.now }
{
    match bytes.split_first() {
        Some((first, rest)) => first.is_ascii_alphabetic()
            && rest.len() <= OPCODE_REST
            && rest
                .iter()
                .all(|byte| byte.is_ascii_alphanumeric() || *byte == b'_'),
        None => false,
    }
}

fn is_word(bytes: &[u8]) -> bool
    ensures { IsTrue result ↔ IsToken (word bytes.now) }
{
    !bytes.is_empty() && bytes.len() <= LONGEST && word_run(bytes) == bytes.len()
}

fn is_quoted(bytes: &[u8]) -> bool
    ensures { IsTrue result ↔ IsToken (quoted bytes.now) }
{
    bytes.len() <= LONGEST && quoted_run(bytes) == bytes.len()
}

fn is_lawful(operand: &Operand) -> bool
    ensures { IsTrue result ↔ IsOperand operand.now }
{
    match operand {
        Operand::Word(bytes) => is_word(bytes.as_bytes()),
        Operand::Text(bytes) => is_quoted(bytes.as_bytes()),
    }
}

/// Counted from 1.
pub(crate) fn first_unlawful(operands: &[Operand]) -> Option<usize>
    ensures { MatchOption result (All IsOperand operands.now) (λ n.
        BreaksAt (All IsOperand) operands.now n) }
{
    let before = operands.iter().position(|operand| !is_lawful(operand))?;
    Some(before + 1)
}
