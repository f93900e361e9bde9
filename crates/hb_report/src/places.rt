//! Numbers and places, as a report and a trace write them.

ghost use Rattle.std.specs.Prelude.{◌≡◌, ◌++◌, decimal, OnOk};
ghost use Rattle.hb_report.specs.Places as places;

use crate::words::reason_word;
use hb_deriv::ill::Ill;
use hb_tree::program::Program;
use hb_types::ids::NodeId;
use itoa::Buffer;
use std::alloc::AllocError;

/// Adds a number in decimal digits.
pub fn push_number(lines: &mut Vec<u8>, number: u32) -> Result<(), AllocError>
    ensures { OnOk result (lines.new.items ≡ lines.old.items ++ decimal number) }
{
    let mut digits = Buffer::new();
    lines.extend_from_slice(digits.format(number).as_bytes())?;
    Ok(())
}

/// Adds the line and the column of a node. There are none where the program has no such node.
pub fn push_place(lines: &mut Vec<u8>, prog: &Program, node: NodeId) -> Result<(), AllocError>
    ensures { OnOk result (lines.new.items ≡ lines.old.items ++ places.place prog.now node.0) }
{
    if node.0 as usize >= prog.nodes() {
        return Ok(());
    }
    let (line, column) = prog.place(node);
    push_number(lines, line)?;
    lines.push(b':')?;
    push_number(lines, column)?;
    Ok(())
}

/// Adds what is wrong in the body of a call, and where.
pub fn push_fault(lines: &mut Vec<u8>, prog: &Program, ill: Ill) -> Result<(), AllocError>
    ensures { OnOk result (lines.new.items ≡ lines.old.items ++ places.fault prog.now ill) }
{
    lines.push(b' ')?;
    lines.extend_from_slice(reason_word(ill.reason).as_bytes())?;
    lines.push(b' ')?;
    push_place(lines, prog, ill.node)?;
    Ok(())
}
