//! Scripts that run at once, each with seats of its own.

ghost use Rattle.std.specs.Prelude.{◌≡◌, length};
ghost use Rattle.hb_threads.specs.Jobs.{AreJobs, HasRun, IsReady};

use crate::gate::Gate;
use crate::script::run_seat;
use hb_eval::script_run::ScriptRun;
use hb_fronts::CallerOptions;
use hb_row::{NameRow, NameSeat};
use hb_tree::program::Program;
use hb_types::ids::{CallerId, NodeId};
use hb_words::words::{MethodWords, WordSeat};
use std::alloc::Global;
use std::thread::{Threads, for_each_mut};

/// A script, its caller's seats, and room for what its run comes to.
#[derive(Drop)]
pub struct Job {
    pub caller: CallerId,
    pub block: NodeId,
    pub seat: WordSeat,
    pub names: NameSeat,
    /// Stays empty where memory was wanting.
    pub run: Option<ScriptRun>,
}

/// Runs one script to its end.
pub fn run_job<G: Gate>(
    alloc: Global,
    prog: &Program,
    options: CallerOptions,
    words: &MethodWords,
    row: &NameRow,
    gate: &G,
    job: &mut Job,
)
    requires ready { IsReady prog.now words.now row.now job.old }
    ensures run { HasRun prog.now options words.now row.now job.new }
    ensures caller { job.new.caller ≡ job.old.caller }
{
    let caller = job.caller;
    let block = job.block;
    let seat = &mut job.seat;
    let names = &mut job.names;
    let ran = run_seat(
        alloc, prog, caller, block, options, words, seat, row, names, gate,
    );
    job.run = ran.ok();
}

/// Runs all scripts to their ends, each in a thread of its own, and joins them.
pub fn run_jobs<R: Threads + Sync, G: Gate + Sync>(
    rt: &R,
    alloc: Global,
    prog: &Program,
    options: CallerOptions,
    words: &MethodWords,
    row: &NameRow,
    gate: &G,
    jobs: &mut [Job],
)
    requires ready { AreJobs (IsReady prog.now words.now row.now) jobs.old }
    ensures run { AreJobs (HasRun prog.now options words.now row.now) jobs.new }
    ensures count { length jobs.new ≡ length jobs.old }
{
    for_each_mut(
        rt,
        jobs,
        16,
        &|_i: usize, job: &mut Job|
            requires { IsReady prog.now words.now row.now job.now }
            ensures { HasRun prog.entry.now options words.entry.now row.entry.now job.exit.now × (job.exit.now.caller ≡ job.entry.now.caller) }
        { run_job(alloc, prog, options, words, row, gate, job) },
    );
}
