//! Callers that hold and free one key in threads of their own, while another changes its type.

ghost use Rattle.std.specs.Prelude.{◌≡◌, ◌+◌, ◌<◌, ◌≤◌, ◌*◌, [], All};
ghost use Rattle.hb_words.specs.Seats.{IsSeatAt, view_of};
ghost use Rattle.hb_trials_words.specs.Calls.{calls_of, IsIdle};

use crate::calls::{free, hold, look, set_type};
use hb_tables::desk::{Desk, TypeAnswer};
use hb_tables::entry::VERSIONS_MAX;
use hb_types::ids::TypeSite;
use hb_words::desk::WordDesk;
use hb_words::layout::CALLERS_MAX;
use hb_words::words::{MethodWords, WordSeat};
use std::alloc::{AllocError, Global};
use std::thread::{Threads, for_each_mut};

// The greatest number of times.
const TIMES_MAX: u32 = 1_000_000_000;

const SITE: TypeSite = TypeSite(6);

/// What a caller does.
#[derive(Clone, Copy)]
pub enum Task {
    /// It holds the key and frees it.
    Visit,
    /// It looks at the key's definition.
    Look,
    /// It gives the key a type.
    Change,
}

/// A caller's seat, what it does and how often, and how often it gave a type.
#[derive(Drop)]
pub struct Worker {
    pub seat: WordSeat,
    task: Task,
    times: u32,
    pub changes: u32,
}

fn visit_often<D: Desk>(desk: &mut D, times: u32)
    requires idle { calls_of (D.fixed desk.old).caller (D.front desk.old) ≡ [] }
    requires spare { 2 * times ≤ D.spare desk.old }
    ensures idle { calls_of (D.fixed desk.old).caller (D.front desk.new) ≡ [] }
    ensures fixed { D.fixed desk.new ≡ D.fixed desk.old }
{
    for _ in 0..times {
        hold(desk);
        free(desk);
    }
}

fn look_often<D: Desk>(desk: &mut D, times: u32)
    requires idle { calls_of (D.fixed desk.old).caller (D.front desk.old) ≡ [] }
    ensures idle { calls_of (D.fixed desk.old).caller (D.front desk.new) ≡ [] }
    ensures fixed { D.fixed desk.new ≡ D.fixed desk.old }
{
    for _ in 0..times {
        look(desk);
    }
}

// How often it gave the type.
fn change_often<D: Desk>(desk: &mut D, times: u32) -> u32
    requires idle { calls_of (D.fixed desk.old).caller (D.front desk.old) ≡ [] }
    requires spare { times ≤ D.spare desk.old }
    ensures idle { calls_of (D.fixed desk.old).caller (D.front desk.new) ≡ [] }
    ensures fixed { D.fixed desk.new ≡ D.fixed desk.old }
{
    let mut done = 0_u32;
    for _ in 0..times {
        if set_type(desk, SITE) == TypeAnswer::Done {
            done = done.saturating_add(1);
        }
    }
    done
}

fn work(words: &MethodWords, worker: &mut Worker)
    requires idle { IsIdle words.now worker.old.seat }
    ensures idle { IsIdle words.now worker.new.seat }
{
    let times = worker.times.min(TIMES_MAX);
    let mut desk = WordDesk::new(words, &mut worker.seat);
    match worker.task {
        Task::Visit => visit_often(&mut desk, times),
        Task::Look => look_often(&mut desk, times),
        Task::Change => worker.changes = change_often(&mut desk, times),
    }
}

/// All callers do what they do, each in a thread of its own.
pub fn work_all<R: Threads + Sync>(rt: &R, words: &MethodWords, workers: &mut [Worker])
    requires idle { All (λ w. IsIdle words.now w.seat) workers.old }
    ensures idle { All (λ w. IsIdle words.now w.seat) workers.new }
{
    for_each_mut(
        rt,
        workers,
        CALLERS_MAX,
        &|_i: usize, worker: &mut Worker|
            requires { IsIdle words.now worker.now.seat }
            ensures { IsIdle words.entry.now worker.exit.now.seat }
        { work(words, worker) },
    );
}

/// The next caller, with this to do so often.
pub fn begin(words: &MethodWords, first: &mut WordSeat, task: Task, times: u32) -> Worker
    requires seat { IsSeatAt words.now first.old }
    requires first { (view_of first.old).caller ≡ 0 }
    requires room { (view_of first.old).made < CALLERS_MAX }
    ensures idle { IsIdle words.now result.seat }
    ensures seat { IsSeatAt words.now first.new }
    ensures first { (view_of first.new).caller ≡ 0 }
    ensures made { (view_of first.new).made ≡ (view_of first.old).made + 1 }
{
    Worker {
        seat: words.fork(first),
        task,
        times,
        changes: 0,
    }
}

/// So many callers, up to four, do this so often, each in a thread of its own.
pub fn measure<R: Threads + Sync>(
    rt: &R,
    alloc: Global,
    task: Task,
    callers: u32,
    times: u32,
) -> Result<(), AllocError> {
    let (words, mut first) = MethodWords::make(alloc, VERSIONS_MAX)?;
    let mut workers = [
        begin(
            &words,
            &mut first,
            task,
            if callers > 0 { times } else { 0 },
        ),
        begin(
            &words,
            &mut first,
            task,
            if callers > 1 { times } else { 0 },
        ),
        begin(
            &words,
            &mut first,
            task,
            if callers > 2 { times } else { 0 },
        ),
        begin(
            &words,
            &mut first,
            task,
            if callers > 3 { times } else { 0 },
        ),
    ];
    work_all(rt, &words, &mut workers);
    Ok(())
}
