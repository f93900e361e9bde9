//! Rows of what is published from one thread.

use crate::publishing::{all_found, derivation_of, publish_many, publish_noted};
use hb_shared::{CELLS_MAX, SharedDerivations};
use hb_types::ids::CallerId;
use std::test::Fail;

#[test]
fn nothing_is_found_where_nothing_is_published(rt: HostRuntime) -> Result<(), Fail> {
    let shared = SharedDerivations::new(rt.alloc())?;
    assert!(rt; shared.next_from(0).is_none());
    let mut notes = shared.notes(rt.alloc())?;
    assert!(rt; shared.next_from_as(0, &mut notes).is_none());
    Ok(())
}

#[test]
fn three_that_are_published_are_found_in_rising_cells(rt: HostRuntime) -> Result<(), Fail> {
    let shared = SharedDerivations::new(rt.alloc())?;
    for (caller, body) in [(2, 7), (1, 8), (2, 9)] {
        shared.publish(
            rt.alloc(),
            CallerId(caller),
            derivation_of(rt.alloc(), body),
        )?;
    }
    let expected = [(0, 1, 8), (64, 2, 7), (65, 2, 9)];
    assert_eq!(rt;
        all_found(&shared, rt.alloc())?.as_slice(),
        expected.as_slice()
    );
    for index in [66, CELLS_MAX, u32::MAX] {
        assert!(rt; shared.next_from(index).is_none(), "{index}");
    }
    Ok(())
}

#[test]
fn the_sixty_fifth_of_a_caller_is_dropped(rt: HostRuntime) -> Result<(), Fail> {
    let shared = SharedDerivations::new(rt.alloc())?;
    publish_many(&shared, rt.alloc(), CallerId(16), 66)?;
    publish_many(&shared, rt.alloc(), CallerId(15), 1)?;
    let found = all_found(&shared, rt.alloc())?;
    assert_eq!(rt; found.len(), 65);
    assert_eq!(rt; found.first(), Some(&(896, 15, 0)));
    for (body, it) in found.iter().skip(1).enumerate() {
        assert_eq!(rt; *it, (960 + body as u32, 16, body as u16));
    }
    Ok(())
}

#[test]
fn a_cell_is_answered_until_all_are_taken(rt: HostRuntime) -> Result<(), Fail> {
    let shared = SharedDerivations::new(rt.alloc())?;
    let mut notes = shared.notes(rt.alloc())?;
    let kept = publish_noted(&shared, rt.alloc(), CallerId(3), (0, 66), &mut notes)?;
    assert_eq!(rt; kept.len(), 66);
    for (body, cell) in kept.iter().enumerate() {
        let expected = if body < 64 {
            Some(128 + body as u32)
        } else {
            None
        };
        assert_eq!(rt; *cell, expected);
    }
    let found = shared.next_from_as(130, &mut notes);
    let found = found.map(|(at, published)| (at, published.derivation.body.0));
    assert_eq!(rt; found, Some((130, 2)));
    Ok(())
}
