//! The runs of a program, by turns or at once.

ghost use Rattle.std.specs.Prelude.{◌≡◌, ◌<◌, [], Err, IfOk, List, None, OnErr, false, if◌then◌else◌, length, map};
ghost use Rattle.hb_call.specs.Sharing.{collected};
ghost use Rattle.hb_eval.specs.Told.{told_by};
ghost use Rattle.hb_jobs.specs.Jobs.{options_told};
ghost use Rattle.hb_names.specs.Names.{Name};
ghost use Rattle.hb_report.specs.Journals.{kept_in};
ghost use Rattle.hb_report.specs.Trace.{trace_of};
ghost use Rattle.hb_tables.specs.declared.entry.Entry.{Entry};
ghost use Rattle.hb_tree.specs.Program.{IsProgram};
ghost use Rattle.hb_tree.specs.Roots.{IsReachedOnce};
ghost use Rattle.hb_turns.specs.Collecting.{Collects};
ghost use Rattle.hb_words.specs.Seats.{history};
ghost use Rattle.hb_top.specs.Reports.{Ran, order_or_none, traced};

use crate::due::Stop;
use hb_call::Share;
use hb_eval::script_run::ScriptRun;
use hb_fronts::CallerOptions;
use hb_jobs::RunOptions;
use hb_run::laws::histories_keep_the_promise;
use hb_threads::{Gate, ThreadRun};
use hb_tree::program::Program;
use hb_turns::{OrderedRun, run_ordered};
use hb_types::ids::CallerId;
use std::alloc::Global;
use std::thread::Threads;

// The order of a run: that of the words, or none.
fn order(options: &RunOptions) -> &[CallerId]
    ensures { map (λ c. c.0) result.now ≡ order_or_none (options_told options.now) }
{
    match &options.order {
        Some(order) => order,
        None => &[],
    }
}

/// Runs a program by turns. Of the derivations of its checks the share may collect some.
pub fn run_by_turns(
    alloc: Global,
    program: &Program,
    options: &RunOptions,
    share: &mut Share,
) -> Result<OrderedRun, Stop>
    requires once { IsReachedOnce program.now }
    ensures ran { IfOk result (λ ran. Ran program.now (options_told options.now) ran.names ran.history.items (map told_by ran.runs.items)) }
    ensures collects { IfOk result (λ ran. Collects program.now ran.names [] ran.history.items (collected share.old) (collected share.new)) }
    ensures memory { OnErr result (result ≡ Err Stop.Memory) }
{
    let ran = run_ordered(
        alloc,
        program,
        order(options),
        options.steps,
        options.changes,
        share,
    )?;
    Ok(ran)
}

/// Runs a program whose scripts run at once.
pub fn run_at_once<R: Threads + Sync, G: Gate + Sync>(
    rt: &R,
    alloc: Global,
    program: &Program,
    options: &RunOptions,
    gate: &G,
) -> Result<ThreadRun, Stop>
    requires is { IsProgram program.now }
    requires once { IsReachedOnce program.now }
    requires unordered { (options_told options.now).order ≡ None }
    requires many { 1 < length program.now.scripts }
    ensures ran { IfOk result (λ ran. Ran program.now (options_told options.now) ran.names (history ran.closed) (map told_by ran.runs.items)) }
    ensures kept { IfOk result (λ ran. (if options.now.trace then trace_of program.now ran.names (kept_in ran.runs.items) else [])
        ≡ traced program.now (options_told options.now) ran.names (history ran.closed)) }
    ensures memory { OnErr result (result ≡ Err Stop.Memory) }
{
    histories_keep_the_promise();
    let each = CallerOptions {
        steps: options.steps,
        keep_journal: options.trace,
    };
    let ran = hb_threads::run_program(rt, alloc, program, options.changes, each, gate)?;
    Ok(ran)
}

/// Whether whose turns they are is fixed: by an order that was given, or since there is one script at most.
pub fn has_fixed_turns(program: &Program, options: &RunOptions) -> bool
    ensures unordered { result ≡ false → (options_told options.now).order ≡ None }
    ensures many { result ≡ false → 1 < length program.now.scripts }
{
    options.order.is_some() || program.scripts() <= 1
}

/// The runs of a program of which nothing else is wanted.
pub fn runs_of<R: Threads + Sync, G: Gate + Sync>(
    rt: &R,
    alloc: Global,
    program: &Program,
    options: &RunOptions,
    gate: &G,
) -> Result<Vec<ScriptRun>, Stop>
    requires once { IsReachedOnce program.now }
    ensures is { IsProgram program.now }
    ensures ran { IfOk result (λ runs. (names : List Name) × (log : List Entry) × Ran program.now (options_told options.now) names log (map told_by runs.items)) }
    ensures memory { OnErr result (result ≡ Err Stop.Memory) }
{
    // Its count tells that it is a program.
    let _nodes = program.nodes();
    if has_fixed_turns(program, options) {
        let OrderedRun { runs, .. } = run_by_turns(alloc, program, options, &mut Share::Off)?;
        Ok(runs)
    } else {
        let ThreadRun { runs, .. } = run_at_once(rt, alloc, program, options, gate)?;
        Ok(runs)
    }
}
