//! Two threads that publish at once.

ghost use Rattle.std.specs.Prelude.{IfOk};
ghost use Rattle.hb_shared.specs.Notes.{AreNotesOf};

use crate::publishing::{all_found, publish_many, publish_noted};
use hb_shared::{Notes, SharedDerivations};
use hb_types::ids::CallerId;
use std::alloc::{AllocError, Global};
use std::test::Fail;
use std::thread::{Threads, join};

// Two callers that publish 66 each.
fn two_callers<R: Threads + Sync>(
    rt: &R,
    alloc: Global,
    shared: &SharedDerivations,
) -> Result<(), AllocError> {
    let (one, two) = join(
        rt,
        || publish_many(shared, alloc, CallerId(4), 66),
        || publish_many(shared, alloc, CallerId(5), 66),
    );
    one?;
    two
}

#[test]
fn callers_in_threads_keep_to_their_cells(rt: HostRuntime) -> Result<(), Fail> {
    for _ in 0..20 {
        let shared = SharedDerivations::new(rt.alloc())?;
        two_callers(&rt, rt.alloc(), &shared)?;
        let found = all_found(&shared, rt.alloc())?;
        assert_eq!(rt; found.len(), 128);
        for (place, it) in found.iter().enumerate() {
            let at = 192 + place as u32;
            assert_eq!(rt; *it, (at, 4 + (place / 64) as u8, (place % 64) as u16));
        }
    }
    Ok(())
}

// Publishes the bodies in a caller's name, and answers what it learned of the cells.
fn publish_and_note(
    shared: &SharedDerivations,
    alloc: Global,
    bodies: (u16, u16),
) -> Result<Notes, AllocError>
    ensures { IfOk result (AreNotesOf shared.now) }
{
    let mut notes = shared.notes(alloc)?;
    publish_noted(shared, alloc, CallerId(9), bodies, &mut notes)?;
    Ok(notes)
}

// Two threads that publish in the name of one caller, of whose cells there are too few, agree on what is in them.
fn one_caller<R: Threads + Sync>(
    rt: &R,
    alloc: Global,
    shared: &SharedDerivations,
) -> Result<(), AllocError> {
    let (one, two) = join(
        rt,
        || -> Result<Notes, AllocError>
            ensures { IfOk result (AreNotesOf shared.entry.now) }
        { publish_and_note(shared, alloc, (0, 40)) },
        || -> Result<Notes, AllocError>
            ensures { IfOk result (AreNotesOf shared.entry.now) }
        { publish_and_note(shared, alloc, (100, 140)) },
    );
    let (mut one, two) = (one?, two?);
    one.compare(two);
    Ok(())
}

#[test]
fn threads_of_one_caller_fill_its_cells_once(rt: HostRuntime) -> Result<(), Fail> {
    for _ in 0..20 {
        let shared = SharedDerivations::new(rt.alloc())?;
        one_caller(&rt, rt.alloc(), &shared)?;
        let found = all_found(&shared, rt.alloc())?;
        assert_eq!(rt; found.len(), 64);
        let mut seen = [false; 200];
        for (place, it) in found.iter().enumerate() {
            assert!(rt; it.0 == 512 + place as u32 && it.1 == 9);
            let body = it.2 as usize;
            assert!(rt; body < seen.len() && !seen[body]);
            seen[body] = true;
        }
    }
    Ok(())
}
