//! Rows of single calls, and the words that are left at the end.

ghost use Rattle.std.specs.Prelude.{◌≡◌};
ghost use Rattle.hb_words.specs.Seats.{IsSeatAt, view_of};
ghost use Rattle.hb_trials_words.specs.Calls.{IsIdle};

use crate::calls::{KEY, decide_twice, free, hold, look, set_def, set_type};
use hb_tables::desk::{DefAnswer, Held, Look, TypeAnswer};
use hb_types::ids::{BodySite, TypeSite};
use hb_words::desk::WordDesk;
use hb_words::words::{MethodWords, WordSeat};
use std::test::Fail;

// One change and one site in a type word, and one change in a def word.
const CHANGE: u64 = 1 << 40;

const SITE: u64 = 1 << 24;

const REDEF: u64 = 1 << 32;

// What four changes of a type are answered, of which the second comes while a call holds the key, and what that call found.
fn change_types(words: &MethodWords, seat: &mut WordSeat) -> ([TypeAnswer; 4], Held)
    requires idle { IsIdle words.now seat.old }
    ensures seat { IsSeatAt words.now seat.new }
    ensures caller { (view_of seat.new).caller ≡ (view_of seat.old).caller }
    ensures made { (view_of seat.new).made ≡ (view_of seat.old).made }
{
    let mut desk = WordDesk::new(words, seat);
    let first = set_type(&mut desk, TypeSite(5));
    let held = hold(&mut desk);
    let busy = set_type(&mut desk, TypeSite(6));
    free(&mut desk);
    let second = set_type(&mut desk, TypeSite(6));
    let worn = set_type(&mut desk, TypeSite(7));
    ([first, busy, second, worn], held)
}

#[test]
fn a_held_type_is_not_changed(rt: HostRuntime) -> Result<(), Fail> {
    let (words, mut seat) = MethodWords::make(rt.alloc(), 2)?;
    let (answers, held) = change_types(&words, &mut seat);
    let expected = [
        TypeAnswer::Done,
        TypeAnswer::Busy { pins: 1 },
        TypeAnswer::Done,
        TypeAnswer::Worn,
    ];
    assert_eq!(rt; answers, expected);
    let expected = Held {
        ty: Some(TypeSite(5)),
        changes: 1,
    };
    assert_eq!(rt; held, expected);
    let closed = words.close(seat, Vec::new(rt.alloc()));
    assert_eq!(rt; closed.type_word(KEY), 2 * CHANGE + 7 * SITE);
    assert_eq!(rt; closed.def_word(KEY), 0);
    Ok(())
}

#[test]
fn definitions_are_counted(rt: HostRuntime) -> Result<(), Fail> {
    let (words, mut seat) = MethodWords::make(rt.alloc(), 2)?;
    let mut desk = WordDesk::new(&words, &mut seat);
    let first = set_def(&mut desk, BodySite(3));
    let second = set_def(&mut desk, BodySite(4));
    let third = set_def(&mut desk, BodySite(5));
    let expected = [DefAnswer::Done, DefAnswer::Done, DefAnswer::Worn];
    assert_eq!(rt; [first, second, third], expected);
    let closed = words.close(seat, Vec::new(rt.alloc()));
    assert_eq!(rt; closed.def_word(KEY), 2 * REDEF + 5);
    assert_eq!(rt; closed.type_word(KEY), 0);
    Ok(())
}

// A call of the first caller looks, the second caller gives a definition, and the call is decided by that look and then by the newer one.
fn decide_late(
    words: &MethodWords,
    first: &mut WordSeat,
    second: &mut WordSeat,
) -> (Look, [Result<(), Look>; 2])
    requires first { IsIdle words.now first.old }
    requires second { IsSeatAt words.now second.old }
    ensures first { IsSeatAt words.now first.new }
    ensures second { IsSeatAt words.now second.new }
    ensures caller { (view_of first.new).caller ≡ (view_of first.old).caller }
    ensures made { (view_of first.new).made ≡ (view_of first.old).made }
    ensures other { (view_of second.new).caller ≡ (view_of second.old).caller }
{
    let mut desk = WordDesk::new(words, first);
    hold(&mut desk);
    let old = look(&mut desk);
    set_def(&mut WordDesk::new(words, second), BodySite(3));
    let answers = decide_twice(&mut desk, old);
    free(&mut desk);
    (old, answers)
}

#[test]
fn a_newer_definition_of_another_is_told(rt: HostRuntime) -> Result<(), Fail> {
    let (words, mut first) = MethodWords::make(rt.alloc(), 9)?;
    let mut second = words.fork(&mut first);
    let (old, answers) = decide_late(&words, &mut first, &mut second);
    let none = Look {
        site: None,
        changes: 0,
    };
    assert_eq!(rt; old, none);
    let newer = Look {
        site: Some(BodySite(3)),
        changes: 1,
    };
    assert_eq!(rt; answers, [Err(newer), Ok(())]);
    let closed = words.close(first, vec![in rt.alloc(); second]?);
    assert_eq!(rt; closed.def_word(KEY), REDEF + 4);
    assert_eq!(rt; closed.type_word(KEY), 0);
    Ok(())
}
