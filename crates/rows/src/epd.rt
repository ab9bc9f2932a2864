//! EPD records.

use crate::page::{Done, NO_ROW, Page};
use crate::record::setup_of;
use pb_board::write_setup;
use pb_epd::{Epd, Operand, OperandBytes, read_epd, write_epd};
use std::alloc::{AllocError, Global};

/// Answers a call.
pub fn answer(page: &mut Page, call: &[&str]) -> Done {
    match call {
        ["read", line] => match read_epd(page.alloc, line.as_bytes()) {
            Ok(record) => return tell(page, &record),
            Err(refusal) => page.put_refusal(&refusal),
        },
        ["operands", line, opcode] => match read_epd(page.alloc, line.as_bytes()) {
            Ok(record) => tell_operands(page, record.get(opcode.as_bytes())),
            Err(_refusal) => return NO_ROW,
        },
        ["put", record, operations @ ..] => {
            let setup = setup_of(record)?;
            return put_all(page, &mut Epd::new(page.alloc, setup), operations);
        }
        _ => return NO_ROW,
    }
    Ok(())
}

/// How many operations a record has, and its text.
fn tell(page: &mut Page, record: &Epd) -> Done {
    page.put_count("operations: ", &record.len());
    page.put("\n");
    page.put_bytes(write_epd(page.alloc, record)?.as_slice());
    page.put("\n");
    Ok(())
}

/// Each operand of an operation, and whether it is a word or a quoted text.
fn tell_operands(page: &mut Page, operands: Option<&[Operand]>) {
    let Some(operands) = operands else {
        page.put("none");
        return;
    };
    for operand in operands {
        let (kind, bytes) = match operand {
            Operand::Word(word) => ("word ", word),
            Operand::Text(quoted) => ("text ", quoted),
        };
        page.put(kind);
        page.put_bytes(bytes.as_bytes());
        page.put("\n");
    }
}

/// Puts these operations in turn: the answer to each, and the record after it.
fn put_all(page: &mut Page, record: &mut Epd, operations: &[&str]) -> Done {
    for operation in operations {
        let opcode = operation.split(',').next().unwrap_or("");
        let operands = operands_of(page.alloc, operation)?;
        page.put_debug(&record.put(opcode.as_bytes(), operands));
        page.put("\n");
        tell(page, record)?;
    }
    page.put("setup ");
    page.put_bytes(write_setup(page.alloc, &record.setup())?.as_slice());
    Ok(())
}

/// The operands of an operation, each of which has a comma before it.
fn operands_of(alloc: Global, operation: &str) -> Result<Vec<Operand>, AllocError> {
    let mut operands = Vec::new(alloc);
    for operand in operation.split(',').skip(1) {
        let bytes = operand.as_bytes().to_vec(alloc)?;
        operands.push(Operand::Word(OperandBytes::of(bytes)))?;
    }
    Ok(operands)
}
