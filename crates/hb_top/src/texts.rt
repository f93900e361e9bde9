//! A text that says a program, or has a fault.

ghost use Rattle.std.specs.Prelude.{◌≡◌, ◌≤◌, Err, IfOk, OnErr, length, option_map};
ghost use Rattle.hb_top.specs.Outcomes.{fault_of};
ghost use Rattle.hb_top.specs.Texts.{IsReading, IsRefusal};

use crate::due::{Due, Ending, Stop};
use crate::faults::{Fault, fault_line, lex_fault, parse_fault};
use crate::top::LIMIT;
use hb_lex::lex;
use hb_parse::parse;
use hb_tree::program::Program;
use std::alloc::Global;

/// What a text is read as.
#[derive(Drop)]
pub enum Reading {
    Program(Program),
    /// The line of its fault is due.
    Refused(Due),
}

// What a text with this fault is read as, or, where there is none, want of memory.
fn refused(alloc: Global, text: &[u8], fault: Option<Fault>) -> Result<Reading, Stop>
    requires { length text.now ≤ LIMIT }
    ensures due { IfOk result (λ reading. IsRefusal text.now (option_map fault_of fault) reading) }
    ensures memory { OnErr result (result ≡ Err Stop.Memory) }
{
    let Some(fault) = fault else {
        return Err(Stop::Memory);
    };
    let line = fault_line(alloc, text, fault)?;
    Ok(Reading::Refused(Due::new(alloc, Ending::TextRefused, &line)?))
}

/// Reads a text within the limit.
pub fn read_text(alloc: Global, text: &[u8]) -> Result<Reading, Stop>
    requires { length text.now ≤ LIMIT }
    ensures reading { IfOk result (IsReading text.now) }
    ensures memory { OnErr result (result ≡ Err Stop.Memory) }
{
    let tokens = match lex(alloc, text) {
        Ok(tokens) => tokens,
        Err(fail) => return refused(alloc, text, lex_fault(fail)),
    };
    match parse(alloc, text, &tokens) {
        Ok(program) => Ok(Reading::Program(program)),
        Err(fail) => refused(alloc, text, parse_fault(fail)),
    }
}
