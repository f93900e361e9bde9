//! The lines of a report.

ghost use Rattle.std.specs.Prelude.{◌≡◌, ◌++◌, slice_get, IfOk, OnOk, string_bytes};
ghost use Rattle.hb_eval.specs.Told.{told_by};
ghost use Rattle.hb_report.specs.Report as report;

use crate::places::{push_fault, push_place};
use crate::words::stop_word;
use hb_eval::script_run::ScriptRun;
use hb_eval::stop::{Outcome, Stop};
use hb_tree::program::Program;
use hb_types::ids::{CallerId, NodeId};
use std::alloc::{AllocError, Global};

// The name of a script. There is none where the program has no such script.
fn script_name(prog: &Program, i: usize) -> &[u8]
    ensures { result.now ≡ report.name_of prog.now (slice_get prog.now.scripts i) }
{
    if i >= prog.scripts() {
        return &[];
    }
    let (name, _) = prog.script(i);
    prog.name(name)
}

/// Adds the line that tells whose run it is: 0 is the setup, and i is the i-th script.
pub fn push_head_line(
    lines: &mut Vec<u8>,
    prog: &Program,
    caller: CallerId,
) -> Result<(), AllocError>
    ensures { OnOk result (lines.new.items ≡ lines.old.items ++ report.head_line prog.now caller.0) }
{
    if caller.0 == 0 {
        lines.extend_from_slice(b"setup\n")?;
        return Ok(());
    }
    lines.extend_from_slice(b"script ")?;
    lines.extend_from_slice(script_name(prog, caller.0 as usize - 1))?;
    lines.push(b'\n')?;
    Ok(())
}

// Adds the line of a stop at a node.
fn push_stop_line(
    lines: &mut Vec<u8>,
    prog: &Program,
    stop: Stop,
    node: NodeId,
) -> Result<(), AllocError>
    ensures { OnOk result (lines.new.items ≡ lines.old.items ++ report.stop_line prog.now stop node) }
{
    lines.extend_from_slice(b"stop ")?;
    lines.extend_from_slice(stop_word(stop).as_bytes())?;
    lines.push(b' ')?;
    push_place(lines, prog, node)?;
    if let Stop::IllTyped(ill) = stop {
        push_fault(lines, prog, ill)?;
    }
    lines.push(b'\n')?;
    Ok(())
}

/// Adds the line that tells how a run ended.
pub fn push_end_line(
    lines: &mut Vec<u8>,
    prog: &Program,
    outcome: &Outcome,
) -> Result<(), AllocError>
    ensures { OnOk result (lines.new.items ≡ lines.old.items ++ report.end_line prog.now outcome.now) }
{
    match outcome {
        Outcome::Done(_) => {
            lines.extend_from_slice(b"done\n")?;
            Ok(())
        }
        Outcome::Stopped(stop, node) => push_stop_line(lines, prog, *stop, *node),
    }
}

/// The line of a run's calls: how many were decided, and how many of them entered by each way.
pub fn count_line(alloc: Global, run: &ScriptRun) -> Result<String, AllocError>
    ensures { IfOk result (λ text. string_bytes text ≡ report.count_line (told_by run.now)) }
{
    let (calls, own, shared, fresh) = (run.calls, run.own, run.shared, run.fresh);
    format!(in alloc; "calls {calls} own {own} shared {shared} fresh {fresh}\n")
}
