//! The sections of a report: one for each run.

ghost use Rattle.std.specs.Prelude.{◌≡◌, ◌++◌, map, IfOk, OnOk};
ghost use Rattle.hb_eval.specs.Told.{is_done, told_by};
ghost use Rattle.hb_report.specs.Report as report;

use crate::lines::{count_line, push_end_line, push_head_line};
use hb_eval::script_run::ScriptRun;
use hb_eval::stop::Outcome;
use hb_tree::program::Program;
use std::alloc::{AllocError, Global};

// Adds the section of a run.
fn push_section(
    alloc: Global,
    lines: &mut Vec<u8>,
    prog: &Program,
    run: &ScriptRun,
) -> Result<(), AllocError>
    ensures { OnOk result (lines.new.items ≡ lines.old.items ++ report.section prog.now (told_by run.now)) }
{
    push_head_line(lines, prog, run.caller)?;
    lines.extend_from_slice(&run.output)?;
    push_end_line(lines, prog, &run.outcome)?;
    lines.extend_from_slice(count_line(alloc, run)?.as_bytes())?;
    Ok(())
}

/// The report of these runs of a program: whose each was, the lines that it printed, how it ended, and its counts of calls.
pub fn report(alloc: Global, prog: &Program, runs: &[ScriptRun]) -> Result<Vec<u8>, AllocError>
    ensures { IfOk result (λ bytes. bytes.items ≡ report.report_of prog.now (map told_by runs.now)) }
{
    let mut lines = Vec::new(alloc);
    for run in runs {
        push_section(alloc, &mut lines, prog, run)?;
    }
    Ok(lines)
}

// Whether the run came to its end.
fn is_done(run: &ScriptRun) -> bool
    ensures { result ≡ is_done run.now.outcome }
{
    matches!(&run.outcome, Outcome::Done(_))
}

/// Whether each run came to its end.
pub fn all_done(runs: &[ScriptRun]) -> bool
    ensures { result ≡ report.are_done (map told_by runs.now) }
{
    runs.iter().all(|run| is_done(run))
}
