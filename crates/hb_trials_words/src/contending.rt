//! Two callers that hold and free one key, each in a thread of its own, while a third changes its type.

ghost use Rattle.std.specs.Prelude.{◌≡◌};
ghost use Rattle.hb_words.specs.Seats.{IsSeatAt, view_of};
ghost use Rattle.hb_trials_words.specs.Calls.{IsIdle};

use crate::calls::KEY;
use crate::threads::{Task, Worker, begin, work_all};
use hb_tables::desk::Desk;
use hb_tables::entry::VERSIONS_MAX;
use hb_types::ids::CallerId;
use hb_words::desk::WordDesk;
use hb_words::words::{MethodWords, WordSeat};
use std::alloc::Global;
use std::process::Abort;
use std::test::Fail;
use std::thread::Threads;

// The seat of the caller with this number, and how often it gave a type.
fn end(rt: &impl Abort, words: &MethodWords, worker: Worker, caller: CallerId) -> (WordSeat, u32)
    requires idle { IsIdle words.now worker.seat }
    ensures seat { IsSeatAt words.now result.0 }
    ensures caller { (view_of result.0).caller ≡ caller.0 }
{
    let Worker {
        mut seat,
        changes,
        ..
    } = worker;
    let door = WordDesk::new(words, &mut seat).caller();
    assert!(rt; door == caller);
    (seat, changes)
}

// Two callers that visit the key, while a third changes its type: no pin is left, and each change is counted.
fn contend<R: Threads + Abort + Sync>(rt: &R, alloc: Global) -> Result<(), Fail> {
    let (words, mut first) = MethodWords::make(alloc, VERSIONS_MAX)?;
    let mut workers = [
        begin(&words, &mut first, Task::Visit, 10_000),
        begin(&words, &mut first, Task::Visit, 10_000),
        begin(&words, &mut first, Task::Change, 10_000),
    ];
    work_all(rt, &words, &mut workers);
    let [one, two, three] = workers;
    let (one, _) = end(rt, &words, one, CallerId(1));
    let (two, _) = end(rt, &words, two, CallerId(2));
    let (three, changes) = end(rt, &words, three, CallerId(3));
    let closed = words.close(first, vec![in alloc; one, two, three]?);
    let site = if changes > 0 { 7 << 24 } else { 0 };
    assert_eq!(rt; closed.type_word(KEY), (changes as u64) << 40 | site);
    Ok(())
}

#[test]
fn callers_in_threads_leave_no_pins(rt: HostRuntime) -> Result<(), Fail> {
    for _ in 0..20 {
        contend(&rt, rt.alloc())?;
    }
    Ok(())
}
