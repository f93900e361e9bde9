//! The report of a program's runs, and their trace where it is wanted.

ghost use Rattle.std.specs.Prelude.{◌≡◌, ℕ, [], Err, IfOk, None, OnErr, if◌then◌else◌, length, map, ◌<◌};
ghost use Rattle.hb_eval.specs.Told.{told_by};
ghost use Rattle.hb_jobs.specs.Jobs.{options_told};
ghost use Rattle.hb_report.specs.Journals.{kept_in};
ghost use Rattle.hb_report.specs.Trace.{trace_of};
ghost use Rattle.hb_tree.specs.Program.{IsProgram};
ghost use Rattle.hb_tree.specs.Roots.{IsReachedOnce};
ghost use Rattle.hb_top.specs.Outcomes.{IsDueBy};
ghost use Rattle.hb_top.specs.Reports.{IsReported, ending_of, traced};

use crate::due::{Due, Ending, Stop};
use crate::runs::{has_fixed_turns, run_at_once, run_by_turns};
use hb_call::Share;
use hb_eval::script_run::ScriptRun;
use hb_jobs::RunOptions;
use hb_report::{all_done, journals, kept_entries, report, trace};
use hb_threads::{Gate, ThreadRun};
use hb_tree::program::Program;
use hb_turns::OrderedRun;
use std::alloc::{AllocError, Global};
use std::thread::Threads;

/// Done, where each run is.
pub fn ending(runs: &[ScriptRun]) -> Ending
    ensures { result ≡ ending_of (map told_by runs.now) }
{
    if all_done(runs) {
        Ending::Done
    } else {
        Ending::Stopped
    }
}

// The trace of a run by turns, where it is wanted: in the order of the history where an order was given, and else caller by caller.
fn trace_by_turns(
    alloc: Global,
    program: &Program,
    options: &RunOptions,
    ran: &OrderedRun,
) -> Result<Vec<u8>, AllocError>
    ensures { IfOk result (λ text. text.items ≡ traced program.now (options_told options.now) ran.now.names ran.now.history.items) }
{
    if !options.trace {
        return Ok(Vec::new(alloc));
    }
    if options.order.is_some() {
        return trace(alloc, program, &ran.names, &ran.history);
    }
    let entries = journals(alloc, &ran.history, program.scripts() + 1)?;
    trace(alloc, program, &ran.names, &entries)
}

/// The report of a program that runs by turns.
pub fn report_by_turns(alloc: Global, program: &Program, options: &RunOptions) -> Result<Due, Stop>
    requires once { IsReachedOnce program.now }
    ensures is { IsProgram program.now }
    ensures due { (len : ℕ) → IfOk result (λ due. IsDueBy (IsReported program.now (options_told options.now) len) len due) }
    ensures memory { OnErr result (result ≡ Err Stop.Memory) }
{
    // Its count tells that it is a program.
    let _nodes = program.nodes();
    let ran = run_by_turns(alloc, program, options, &mut Share::Off)?;
    let ending = ending(&ran.runs);
    let mut text = report(alloc, program, &ran.runs)?;
    text.extend_from_slice(&trace_by_turns(alloc, program, options, &ran)?)?;
    Ok(Due { ending, text })
}

// The trace of scripts that ran at once, where it is wanted: caller by caller, of what each kept.
fn trace_by_callers(
    alloc: Global,
    program: &Program,
    options: &RunOptions,
    ran: &ThreadRun,
) -> Result<Vec<u8>, AllocError>
    ensures { IfOk result (λ text. text.items ≡ (if options.now.trace then trace_of program.now ran.now.names (kept_in ran.now.runs.items) else [])) }
{
    if !options.trace {
        return Ok(Vec::new(alloc));
    }
    let entries = kept_entries(alloc, &ran.runs)?;
    trace(alloc, program, &ran.names, &entries)
}

// The report of a program whose scripts run at once.
fn report_at_once<R: Threads + Sync, G: Gate + Sync>(
    rt: &R,
    alloc: Global,
    program: &Program,
    options: &RunOptions,
    gate: &G,
) -> Result<Due, Stop>
    requires is { IsProgram program.now }
    requires once { IsReachedOnce program.now }
    requires unordered { (options_told options.now).order ≡ None }
    requires many { 1 < length program.now.scripts }
    ensures due { (len : ℕ) → IfOk result (λ due. IsDueBy (IsReported program.now (options_told options.now) len) len due) }
    ensures memory { OnErr result (result ≡ Err Stop.Memory) }
{
    let ran = run_at_once(rt, alloc, program, options, gate)?;
    let ending = ending(&ran.runs);
    let mut text = report(alloc, program, &ran.runs)?;
    text.extend_from_slice(&trace_by_callers(alloc, program, options, &ran)?)?;
    Ok(Due { ending, text })
}

/// The report of the runs of a program, and their trace where it is wanted.
pub fn report_of_program<R: Threads + Sync, G: Gate + Sync>(
    rt: &R,
    alloc: Global,
    program: &Program,
    options: &RunOptions,
    gate: &G,
) -> Result<Due, Stop>
    requires { IsReachedOnce program.now }
    ensures is { IsProgram program.now }
    ensures due { (len : ℕ) → IfOk result (λ due. IsDueBy (IsReported program.now (options_told options.now) len) len due) }
    ensures memory { OnErr result (result ≡ Err Stop.Memory) }
{
    // Its count tells that it is a program.
    let _nodes = program.nodes();
    if has_fixed_turns(program, options) {
        report_by_turns(alloc, program, options)
    } else {
        report_at_once(rt, alloc, program, options, gate)
    }
}
