//! Writes EPD records.

ghost use Rattle.std.specs.Prelude.{◌≡◌, ◌∷◌, ◌++◌, IfOk, OnOk, flat_map};
ghost use Rattle.pb_board.specs.Fields.{space};
ghost use Rattle.pb_epd.specs.Epd.{epd_form};
ghost use Rattle.pb_epd.specs.Token.{token_text};
ghost use Rattle.pb_epd.specs.Operation.{operand_token, operation_text};

use crate::epd::Epd;
use crate::operation::Operand;
use pb_board::write_setup;
use std::alloc::{AllocError, Global};

fn put_operand(out: &mut Vec<u8>, operand: &Operand) -> Result<(), AllocError>
    ensures { OnOk result (out.new.items ≡ out.old.items
        ++ token_text (operand_token operand.now)) }
{
    match operand {
        Operand::Word(bytes) => out.extend_from_slice(bytes.as_bytes())?,
        Operand::Text(bytes) => {
            out.push(b'"')?;
            out.extend_from_slice(bytes.as_bytes())?;
            out.push(b'"')?;
        }
    }
    Ok(())
}

fn put_operation(out: &mut Vec<u8>, opcode: &[u8], operands: &[Operand]) -> Result<(), AllocError>
    ensures { OnOk result (out.new.items ≡ out.old.items ++ space
        ∷ operation_text (opcode.now, operands.now)) }
{
    out.push(b' ')?;
    out.extend_from_slice(opcode)?;
    for operand in operands {
        out.push(b' ')?;
        put_operand(out, operand)?;
    }
    out.push(b';')?;
    Ok(())
}

fn put_operations(out: &mut Vec<u8>, epd: &Epd) -> Result<(), AllocError>
    ensures { OnOk result (out.new.items ≡ out.old.items
        ++ flat_map (λ o. space ∷ operation_text o) epd.now.operations) }
{
    for (opcode, operands) in epd.operations() {
        put_operation(out, opcode.as_slice(), operands.as_slice())?;
    }
    Ok(())
}

/// Gives the one ordered text of the record (PGN Standard 16.2.1 and 16.2.2): the four fields and
/// the operations, with single spaces, no space before an end and none after the last.
///
/// # Errors
///
/// There was no memory for the text.
pub fn write_epd(alloc: Global, epd: &Epd) -> Result<Vec<u8>, AllocError>
    ensures { IfOk result (λ v. v.items ≡ epd_form epd.now) }
{
    let mut out = write_setup(alloc, &epd.setup())?;
    put_operations(&mut out, epd)?;
    Ok(out)
}
