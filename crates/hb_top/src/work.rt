//! The generated texts: written, or run and told in a line.

ghost use Rattle.std.specs.Prelude.{◌≡◌, ◌≤◌, ◌++◌, Err, IfOk, List, OnErr, OnOk, length, map, string_bytes};
ghost use Rattle.hb_eval.specs.Told.{told_by};
ghost use Rattle.hb_gen.specs.Generated.{generated};
ghost use Rattle.hb_jobs.specs.Jobs.{options_told};
ghost use Rattle.hb_names.specs.Names.{Name};
ghost use Rattle.hb_tables.specs.declared.entry.Entry.{Entry};
ghost use Rattle.hb_tree.specs.Roots.{IsReachedOnce};
ghost use Rattle.hb_tree.specs.Program.{IsProgram};
ghost use Rattle.hb_top.specs.Answers.{IsReadAs};
ghost use Rattle.hb_top.specs.Outcomes.{IsDue, IsDueBy, Outcome};
ghost use Rattle.hb_top.specs.Reports.{Ran};
ghost use Rattle.hb_top.specs.Work.{IsWorked, calls_text, count_of, head_of, others_text, total_of, work_line, work_options};
ghost use Rattle.hb_top.specs.declared.due.Ending.TheVariants.{Done};

use crate::due::{Due, Ending, Stop};
use crate::reports::ending;
use crate::runs::{run_by_turns, runs_of};
use crate::texts::{Reading, read_text};
use hb_call::Share;
use hb_eval::script_run::ScriptRun;
use hb_gen::laws::generated_texts_are_short;
use hb_gen::{GenFail, generate};
use hb_jobs::options::CHANGES_MAX;
use hb_jobs::{RunOptions, Size};
use hb_threads::Gate;
use hb_tree::program::Program;
use std::alloc::{AllocError, Global};
use std::fmt::Write;
use std::thread::Threads;

/// The steps of each script of a generated text.
pub const WORK_STEPS: u32 = 100_000;

/// What is counted of a run: the calls that were decided, or those that entered by one way.
#[derive(Clone, Copy)]
pub enum Counted {
    Calls,
    Own,
    Shared,
    Fresh,
}

// How many there are in a run.
fn count_in(run: &ScriptRun, what: Counted) -> u32
    ensures { result ≡ count_of what (told_by run.now) }
{
    match what {
        Counted::Calls => run.calls,
        Counted::Own => run.own,
        Counted::Shared => run.shared,
        Counted::Fresh => run.fresh,
    }
}

// How many there are in these runs together.
fn total(runs: &[ScriptRun], what: Counted) -> u64
    requires { length runs.now ≤ 17 }
    ensures { result ≡ total_of what (map told_by runs.now) }
{
    let mut total = 0;
    for run in runs {
        total += u64::from(count_in(run, what));
    }
    total
}

// The front of a line.
fn head_of(alloc: Global, size: u32, scripts: usize) -> Result<String, AllocError>
    ensures { IfOk result (λ line. string_bytes line ≡ head_of size scripts) }
{
    format!(in alloc; "work {size} scripts {scripts} ")
}

// Adds how many calls there were, and how many entered on a check of their own script.
fn push_calls(line: &mut String, calls: u64, own: u64) -> Result<(), AllocError>
    ensures { OnOk result (string_bytes line.new ≡ string_bytes line.old ++ calls_text calls own) }
{
    write!(line, "calls {calls} own {own}")
}

// Adds how many entered on a check of another script, and on a fresh one.
fn push_others(line: &mut String, shared: u64, fresh: u64) -> Result<(), AllocError>
    ensures { OnOk result (string_bytes line.new ≡ string_bytes line.old ++ others_text shared fresh) }
{
    write!(line, " shared {shared} fresh {fresh}\n")
}

// The line of these runs.
fn work_line(alloc: Global, size: u32, runs: &[ScriptRun]) -> Result<String, AllocError>
    requires { length runs.now ≤ 17 }
    ensures { IfOk result (λ line. string_bytes line ≡ work_line size (map told_by runs.now)) }
{
    let calls = total(runs, Counted::Calls);
    let own = total(runs, Counted::Own);
    let shared = total(runs, Counted::Shared);
    let fresh = total(runs, Counted::Fresh);
    let mut line = head_of(alloc, size, runs.len())?;
    push_calls(&mut line, calls, own)?;
    push_others(&mut line, shared, fresh)?;
    Ok(line)
}

// The generated text of a size.
fn text_of(alloc: Global, size: &Size) -> Result<Vec<u8>, Stop>
    ensures text { IfOk result (λ text. text.items ≡ generated size.now.number) }
    ensures memory { OnErr result (result ≡ Err Stop.Memory) }
{
    match generate(alloc, size.number) {
        Ok(text) => Ok(text),
        Err(GenFail::NoMemory) => Err(Stop::Memory),
        Err(GenFail::Range) => unreachable!(),
    }
}

/// The generated text of a size.
pub fn generated_due(alloc: Global, size: &Size) -> Result<Due, Stop>
    ensures due { IfOk result (λ due. IsDue due Done (generated size.now.number)) }
    ensures memory { OnErr result (result ≡ Err Stop.Memory) }
{
    let text = text_of(alloc, size)?;
    Ok(Due {
        ending: Ending::Done,
        text,
    })
}

// How a generated text runs: its scripts at once, and nothing of them is traced.
fn work_options() -> RunOptions
    ensures { options_told result ≡ work_options }
{
    RunOptions {
        order: None,
        trace: false,
        steps: WORK_STEPS,
        changes: CHANGES_MAX,
    }
}

// The line of a program's runs.
fn line_due(alloc: Global, size: &Size, program: &Program, runs: &[ScriptRun]) -> Result<Due, Stop>
    requires is { IsProgram program.now }
    requires ran { (names : List Name) × (log : List Entry) × Ran program.now work_options names log (map told_by runs.now) }
    ensures due { IfOk result (IsDueBy (IsWorked size.now.number program.now) 0) }
    ensures memory { OnErr result (result ≡ Err Stop.Memory) }
{
    let line = work_line(alloc, size.number, runs)?;
    Ok(Due::new(alloc, ending(runs), &line)?)
}

// What a program comes to whose scripts run at once.
fn work_program<R: Threads + Sync, G: Gate + Sync>(
    rt: &R,
    alloc: Global,
    size: &Size,
    program: &Program,
    gate: &G,
) -> Result<Due, Stop>
    requires { IsReachedOnce program.now }
    ensures is { IsProgram program.now }
    ensures due { IfOk result (λ due. IsDueBy (IsWorked size.now.number program.now) 0 due) }
    ensures memory { OnErr result (result ≡ Err Stop.Memory) }
{
    let options = work_options();
    let runs = runs_of(rt, alloc, program, &options, gate)?;
    line_due(alloc, size, program, &runs)
}

/// Runs the generated text of a size, and tells its runs in a line.
pub fn work<R: Threads + Sync, G: Gate + Sync>(
    rt: &R,
    alloc: Global,
    size: &Size,
    gate: &G,
) -> Result<Due, Stop>
    ensures due { IfOk result (λ due. IsDueBy (IsReadAs (IsWorked size.now.number) (generated size.now.number) 0) 0 due) }
    ensures memory { OnErr result (result ≡ Err Stop.Memory) }
{
    generated_texts_are_short();
    let text = text_of(alloc, size)?;
    let reading = read_text(alloc, text.as_slice())?;
    match reading {
        Reading::Program(program) => work_program(rt, alloc, size, &program, gate),
        Reading::Refused(due) => Ok(due),
    }
}

// What a program comes to whose scripts run one after another.
fn work_program_by_turns(alloc: Global, size: &Size, program: &Program) -> Result<Due, Stop>
    requires { IsReachedOnce program.now }
    ensures is { IsProgram program.now }
    ensures due { IfOk result (λ due. IsDueBy (IsWorked size.now.number program.now) 0 due) }
    ensures memory { OnErr result (result ≡ Err Stop.Memory) }
{
    // Its count tells that it is a program.
    let _nodes = program.nodes();
    let options = work_options();
    let mut share = Share::Off;
    let ran = run_by_turns(alloc, program, &options, &mut share)?;
    line_due(alloc, size, program, &ran.runs)
}

/// The same, with its scripts one after another.
pub fn work_by_turns(alloc: Global, size: &Size) -> Result<Due, Stop>
    ensures due { IfOk result (λ due. IsDueBy (IsReadAs (IsWorked size.now.number) (generated size.now.number) 0) 0 due) }
    ensures memory { OnErr result (result ≡ Err Stop.Memory) }
{
    generated_texts_are_short();
    let text = text_of(alloc, size)?;
    let reading = read_text(alloc, text.as_slice())?;
    match reading {
        Reading::Program(program) => work_program_by_turns(alloc, size, &program),
        Reading::Refused(due) => Ok(due),
    }
}
