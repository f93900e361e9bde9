//! A program in threads, from words and a row of names that are made for it.

ghost use Rattle.std.specs.Prelude.{◌≡◌, ◌≤◌, ℕ, [], map, IfOk};
ghost use Rattle.std.specs.List.{AllByRecursion};
ghost use Rattle.hb_call.specs.Held.{stands};
ghost use Rattle.hb_eval.specs.Told.{told_by};
ghost use Rattle.hb_fronts.specs.Exits.{HasJournal};
ghost use Rattle.hb_run.specs.Headline.{KeepsPromise};
ghost use Rattle.hb_run.specs.History.{IsHistory};
ghost use Rattle.hb_words.specs.Seats.{history};

use crate::gate::Gate;
use crate::run::{ThreadRun, run_scripts};
use hb_fronts::CallerOptions;
use hb_row::NameRow;
use hb_tables::entry::VERSIONS_MAX;
use hb_tree::program::Program;
use hb_words::words::MethodWords;
use std::alloc::{AllocError, Global};
use std::thread::Threads;

/// Runs a program in threads. Each method may be given a type and a definition so many times.
pub fn run_program<R: Threads + Sync, G: Gate + Sync>(
    rt: &R,
    alloc: Global,
    prog: &Program,
    versions: u32,
    options: CallerOptions,
    gate: &G,
) -> Result<ThreadRun, AllocError>
    requires versions { (1 ≤ versions) × (versions ≤ VERSIONS_MAX) }
    ensures history { IfOk result (λ r. IsHistory prog.now versions options.steps r.names (history r.closed) (map told_by r.runs.items)) }
    ensures promise { IfOk result (λ r. KeepsPromise prog.now r.names (history r.closed) (map told_by r.runs.items)) }
    ensures journals { IfOk result (λ r. AllByRecursion (HasJournal options.keep_journal (history r.closed)) r.runs.items) }
    ensures free { IfOk result (λ r. (c q : ℕ) → stands c q (history r.closed) ≡ []) }
{
    let (words, first) = MethodWords::make(alloc, versions)?;
    let (row, names) = NameRow::make(alloc)?;
    run_scripts(rt, alloc, prog, words, first, row, names, options, gate)
}
