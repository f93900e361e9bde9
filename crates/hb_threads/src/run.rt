//! A program's setup, and then its scripts in threads.

ghost use Rattle.std.specs.Prelude.{◌≡◌, ◌++◌, [], ℕ, List, cond, length, map, IfOk};
ghost use Rattle.std.specs.List.{AllByRecursion};
ghost use Rattle.hb_call.specs.Held.{stands};
ghost use Rattle.hb_eval.specs.Told.{told_by};
ghost use Rattle.hb_eval.specs.declared.script_run.ScriptRun.{ScriptRun};
ghost use Rattle.hb_fronts.specs.Exits.{HasJournal};
ghost use Rattle.hb_row.specs.Seats.{asked_by};
ghost use Rattle.hb_run.specs.Headline.{KeepsPromise};
ghost use Rattle.hb_run.specs.History.{IsHistory};
ghost use Rattle.hb_words.specs.Seats.{history, view_of};
ghost use Rattle.hb_threads.specs.Ends.{AreRunsOf};
ghost use Rattle.hb_threads.specs.Heads.{IsHead};
ghost use Rattle.hb_threads.specs.Jobs.{AreJobs, HasRun, IsReady};

use crate::forking::fork_all;
use crate::gate::Gate;
use crate::job::{Job, run_jobs};
use crate::setup::run_setup;
use hb_eval::script_run::ScriptRun;
use hb_fronts::CallerOptions;
use hb_names::NameList;
use hb_row::{NameRow, NameSeat};
use hb_tree::program::Program;
use hb_words::closed::Closed;
use hb_words::words::{MethodWords, WordSeat};
use std::alloc::{AllocError, Global};
use std::thread::Threads;

/// What the setup and the scripts came to.
#[derive(Drop)]
pub struct ThreadRun {
    /// The setup's run first, where there is one, and then those of the scripts in the order of the text.
    pub runs: Vec<ScriptRun>,
    pub names: NameList,
    pub closed: Closed,
}

// What jobs leave that came to their ends.
#[derive(Drop)]
struct Left {
    seats: Vec<WordSeat>,
    names: Vec<NameSeat>,
    runs: Vec<ScriptRun>,
}

// How many scripts run behind the setup.
fn scripts_behind(prog: &Program, goes_on: bool) -> usize
    ensures { result ≡ cond goes_on (length prog.now.scripts) 0 }
{
    if goes_on { prog.scripts() } else { 0 }
}

// Runs the jobs of a vector.
fn run_each<R: Threads + Sync, G: Gate + Sync>(
    rt: &R,
    alloc: Global,
    prog: &Program,
    options: CallerOptions,
    words: &MethodWords,
    row: &NameRow,
    gate: &G,
    mut jobs: Vec<Job>,
) -> Vec<Job>
    requires ready { AreJobs (IsReady prog.now words.now row.now) jobs.items }
    ensures run { AreJobs (HasRun prog.now options words.now row.now) result.items }
    ensures count { length result.items ≡ length jobs.items }
{
    run_jobs(
        rt,
        alloc,
        prog,
        options,
        words,
        row,
        gate,
        jobs.as_mut_slice(),
    );
    jobs
}

// Takes the jobs apart. Their runs come behind those that are there.
fn part_jobs(alloc: Global, jobs: Vec<Job>, mut runs: Vec<ScriptRun>) -> Result<Left, AllocError>
    ensures seats { IfOk result (λ left. left.seats.items ≡ map (λ (j : Job). j.seat) jobs.items) }
    ensures names { IfOk result (λ left. left.names.items ≡ map (λ (j : Job). j.names) jobs.items) }
    ensures runs { IfOk result (λ left. (more : List ScriptRun) × (left.runs.items ≡ runs.items ++ more) × AreRunsOf jobs.items more) }
{
    let mut seats = Vec::new(alloc);
    let mut names = Vec::new(alloc);
    for job in jobs {
        let Job {
            seat,
            names: asking,
            run,
            ..
        } = job;
        let Some(run) = run else {
            return Err(AllocError);
        };
        seats.push(seat)?;
        names.push(asking)?;
        runs.push(run)?;
    }
    Ok(Left { seats, names, runs })
}

/// Runs the setup of a program, where there is one, and behind a setup that is done all scripts at once, over words and a row of names that are as they were made.
pub fn run_scripts<R: Threads + Sync, G: Gate + Sync>(
    rt: &R,
    alloc: Global,
    prog: &Program,
    words: MethodWords,
    mut first: WordSeat,
    row: NameRow,
    mut names: NameSeat,
    options: CallerOptions,
    gate: &G,
) -> Result<ThreadRun, AllocError>
    requires seats { IsHead words row 1 first names }
    requires blank { (view_of first).seen ≡ [] }
    requires unasked { asked_by names ≡ [] }
    ensures history { IfOk result (λ r. IsHistory prog.now (view_of first).limit options.steps r.names (history r.closed) (map told_by r.runs.items)) }
    ensures promise { IfOk result (λ r. KeepsPromise prog.now r.names (history r.closed) (map told_by r.runs.items)) }
    ensures journals { IfOk result (λ r. AllByRecursion (HasJournal options.keep_journal (history r.closed)) r.runs.items) }
    ensures free { IfOk result (λ r. (c q : ℕ) → stands c q (history r.closed) ≡ []) }
{
    let setup = run_setup(
        alloc, prog, options, &words, &mut first, &row, &mut names, gate,
    )?;
    let count = scripts_behind(prog, setup.goes_on);
    let jobs = fork_all(alloc, prog, count, &words, &mut first, &row, &mut names)?;
    let jobs = run_each(rt, alloc, prog, options, &words, &row, gate, jobs);
    let Left {
        seats,
        names: asking,
        runs,
    } = part_jobs(alloc, jobs, setup.runs)?;
    let list = row.gather(names, asking)?;
    let closed = words.close(first, seats);
    hb_run::laws::histories_keep_the_promise();
    Ok(ThreadRun {
        runs,
        names: list,
        closed,
    })
}
