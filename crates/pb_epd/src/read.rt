//! Reads EPD records.

ghost use Rattle.std.specs.Prelude.{◌≡◌, ◌≢◌, ◌∷◌, ◌+◌, ◌^◌, ◌<◌, [], List, IfOk, IfErr};
ghost use Rattle.std.specs.Prelude.{MatchOption, MatchResult, OnErr, OnOk};
ghost use Rattle.pb_epd.specs.Token.{Token, word, end_mark, Tokens, TokensAfter};
ghost use Rattle.pb_epd.specs.Lexeme.{token_of};
ghost use Rattle.pb_epd.specs.Epd.{EpdRecord, IsEpd, EpdText};
ghost use Rattle.pb_epd.specs.Operation.{IsOpcode, IsOperation, operand_token};
ghost use Rattle.pb_epd.specs.Refusal.{IsFirstDueEpd, IsFourWords, IsNamed};
ghost use Rattle.pb_epd.specs.Reading.{HasTokens, EndsSoundly, AreOperands, NextFrom, IsSound};
ghost use Rattle.pb_epd.specs.Reading.{AreOperations, RefusesTokens, StandsWith};
ghost use Rattle.pb_epd.specs.declared.refusal.EpdError.TheVariants as epd;

use crate::epd::Epd;
use crate::operation::{Operand, OperandBytes, is_opcode};
use crate::refusal::{EpdError, PutError};
use crate::token::{Lexeme, Next, first_bad, next_token};
use pb_board::{Setup, read_setup};
use std::alloc::{AllocError, Global};

#[derive(Drop)]
enum NextOperation<'a> {
    Done,
    Unended,
    /// It doesn't begin with an opcode.
    Unnamed,
    /// An opcode with its operands, and what follows their end.
    Operation {
        opcode: &'a [u8],
        operands: Vec<Operand>,
        rest: &'a [u8],
    },
}

/// `repeated` is the first operation, from 1, whose opcode stood before.
#[derive(Drop)]
struct SoFar {
    epd: Epd,
    count: usize,
    repeated: Option<usize>,
}

fn operand_of(alloc: Global, token: Lexeme<'_>) -> Result<Option<Operand>, AllocError>
    ensures { IfOk result (λ r. MatchOption r (token_of token.entry ≡ end_mark) (λ o.
        token_of token.entry ≡ operand_token o)) }
{
    let operand = match token {
        Lexeme::Word(bytes) => Operand::Word(OperandBytes::of(bytes.to_vec(alloc)?)),
        Lexeme::Quoted(bytes) => Operand::Text(OperandBytes::of(bytes.to_vec(alloc)?)),
        Lexeme::End => return Ok(None),
    };
    Ok(Some(operand))
}

fn read_operands<'a>(
    alloc: Global,
    before: Lexeme<'_>,
    text: &'a [u8],
) -> Result<Option<(Vec<Operand>, &'a [u8])>, AllocError>
    ensures { IfOk result (λ r. MatchOption r
        ((ts : List Token) → TokensAfter (token_of before.entry) ts text.now → AreOperands ts)
        (λ cut. EndsSoundly (token_of before.entry) text.now cut.0.items cut.1.now)) }
{
    let mut operands = Vec::new(alloc);
    let mut before = before;
    let mut rest = text;
    loop {
        let Next::Found(token, after) = next_token(before, rest) else {
            return Ok(None);
        };
        let Some(operand) = operand_of(alloc, token)? else {
            return Ok(Some((operands, after)));
        };
        operands.push(operand)?;
        before = token;
        rest = after;
    }
}

fn opcode_of(token: Lexeme<'_>) -> Option<&[u8]>
    ensures { MatchOption result ((ts : List Token) → ¬ IsNamed (token_of token.entry ∷ ts))
        (λ opcode. (token_of token.entry ≡ word opcode.now) × IsOpcode opcode.now) }
{
    match token {
        Lexeme::Word(bytes) if is_opcode(bytes) => Some(bytes),
        _ => None,
    }
}

fn next_operation<'a>(
    alloc: Global,
    before: Lexeme<'_>,
    text: &'a [u8],
) -> Result<NextOperation<'a>, AllocError>
    ensures taken { IfOk result (λ r. (ts : List Token)
        → TokensAfter (token_of before.entry) ts text.now → NextFrom r ts) }
    ensures sound { IfOk result (λ r. IsSound r (token_of before.entry) text.now) }
    ensures memory { OnErr result ((ts : List Token)
        → TokensAfter (token_of before.entry) ts text.now → ts ≢ []) }
{
    let (first, rest) = match next_token(before, text) {
        Next::Done => return Ok(NextOperation::Done),
        Next::Found(first, rest) => (first, rest),
        Next::Bad(_) => return Ok(NextOperation::Unended),
    };
    if !first.is_operand() {
        return Ok(NextOperation::Unnamed);
    }
    let Some((operands, rest)) = read_operands(alloc, first, rest)? else {
        return Ok(NextOperation::Unended);
    };
    match opcode_of(first) {
        Some(opcode) => Ok(NextOperation::Operation {
            opcode,
            operands,
            rest,
        }),
        None => Ok(NextOperation::Unnamed),
    }
}

fn note(so_far: &mut SoFar, opcode: &[u8], operands: Vec<Operand>) -> Result<(), EpdError>
    requires lawful { IsOperation (opcode.now, operands.items) }
    requires room { so_far.old.count + 1 < 2 ^ 64 }
    ensures rules { IsEpd so_far.new.epd }
    ensures setup { so_far.new.epd.setup ≡ so_far.old.epd.setup }
    ensures count { so_far.new.count ≡ so_far.old.count + 1 }
    ensures stands { OnOk result (StandsWith (opcode.now, operands.items) so_far.old so_far.new) }
    ensures memory { IfErr result (λ x. x ≡ epd.Memory) }
{
    so_far.count += 1;
    match so_far.epd.add(opcode, operands) {
        Ok(()) => Ok(()),
        Err(PutError::Repeated) => {
            so_far.repeated = so_far.repeated.or(Some(so_far.count));
            Ok(())
        }
        Err(_) => Err(EpdError::Memory),
    }
}

fn read_operations(
    alloc: Global,
    setup: Setup,
    before: Lexeme<'_>,
    text: &[u8],
) -> Result<Epd, EpdError>
    ensures found { IfOk result (λ e. (e.setup ≡ setup) × IsEpd e
        × HasTokens (token_of before.entry) text.now
        × ((ts : List Token) → TokensAfter (token_of before.entry) ts text.now
        → AreOperations ts e.operations)) }
    ensures refused { IfErr result (λ x. (ts : List Token)
        → TokensAfter (token_of before.entry) ts text.now → RefusesTokens x ts) }
{
    let mut so_far = SoFar {
        epd: Epd::new(alloc, setup),
        count: 0,
        repeated: None,
    };
    let mut before = before;
    let mut left = text;
    loop {
        let Ok(taken) = next_operation(alloc, before, left) else {
            return Err(EpdError::Memory);
        };
        match taken {
            NextOperation::Done => break,
            NextOperation::Unended => return Err(EpdError::Unended),
            NextOperation::Unnamed => return Err(EpdError::Opcode(so_far.count + 1)),
            NextOperation::Operation {
                opcode,
                operands,
                rest,
            } => {
                note(&mut so_far, opcode, operands)?;
                before = Lexeme::End;
                left = rest;
            }
        }
    }
    match so_far.repeated {
        Some(number) => Err(EpdError::Repeated(number)),
        None => Ok(so_far.epd),
    }
}

fn read_tokens(alloc: Global, text: &[u8]) -> Result<Epd, EpdError>
    ensures found { IfOk result (λ e. IsEpd e × EpdText e text.now) }
    ensures refused { IfErr result (λ x. (ts : List Token) → Tokens ts text.now
        → IsFirstDueEpd x text.now) }
    ensures memory { IfErr result (λ x. x ≡ epd.Memory → ¬ IsFourWords text.now) }
{
    let mut four = [text; 4];
    let mut last = Lexeme::End;
    let mut rest = text;
    for n in 0..4 {
        let Next::Found(token, after) = next_token(last, rest) else {
            return Err(EpdError::Fields);
        };
        let Lexeme::Word(bytes) = token else {
            return Err(EpdError::Fields);
        };
        four[n] = bytes;
        last = token;
        rest = after;
    }
    let setup = match read_setup(four) {
        Ok(setup) => setup,
        Err(error) => return Err(EpdError::Setup(error)),
    };
    read_operations(alloc, setup, last, rest)
}

/// Reads the record that the text spells (PGN Standard 16.2), its operations in any order.
///
/// # Errors
///
/// The first that is due, in the order of `EpdError`'s variants; only want of memory may come
/// before those of the operations.
pub fn read_epd(alloc: Global, text: &[u8]) -> Result<Epd, EpdError>
    ensures found { IfOk result (λ e. IsEpd e × EpdText e text.now) }
    ensures only { (e : EpdRecord) → IsEpd e → EpdText e text.now
        → MatchResult result (λ r. r ≡ e) (λ x. x ≡ epd.Memory) }
    ensures refused { IfErr result (λ x. IsFirstDueEpd x text.now) }
    ensures memory { IfErr result (λ x. x ≡ epd.Memory → ¬ IsFourWords text.now) }
{
    // Bad tokens are looked for only in a text that is refused.
    match read_tokens(alloc, text) {
        Ok(epd) => Ok(epd),
        Err(error) => match first_bad(text) {
            Some(at) => Err(EpdError::Token(at)),
            None => Err(error),
        },
    }
}
